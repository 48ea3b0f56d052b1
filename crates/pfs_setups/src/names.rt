//! The names that the rows of the setup tables show.

ghost use Rattle.std.specs.Prelude.{◌≡◌, IfOk, List, map, take, slice_get, option_copied};
ghost use Rattle.std.specs.List.{range_with_len, slice_index_or};
ghost use Rattle.pfs_setups.specs.SetupRows.{class_named, name_of_class, naming_of};

use crate::NoMemory;
use pfs_classes::{ClassId, Classes, Setting, TableName};
use pfs_names::{NameId, Names};
use pfs_text::Text;
use std::alloc::Global;
use std::marker::Model;

/// What a setting fixes of the rows of the setup tables: the names by id, the name of each registered class, and the
/// tables by number.
#[derive(Drop)]
pub struct RowNames {
    names: Vec<Text>,
    classes: Vec<Option<NameId>>,
    tables: Vec<TableName>,
}

impl Model for RowNames {
    ghost use Rattle.pfs_setups.specs.SetupRows.{Naming};

    ghost Value = { Naming };

    ghost view = { λ s. record {
      names = s.names.items;
      classes = s.classes.items;
      tables = s.tables.items;
    } };
}

impl RowNames {
    /// Those of a setting. All room is taken here.
    #[tactic(auto, unfolding(crate::specs::SetupRows::naming_of))]
    pub fn open(alloc: Global, setting: &Setting) -> Result<RowNames, NoMemory>
        ensures { IfOk result (λ names. names ≡ naming_of setting.now) }
    {
        Ok(RowNames {
            names: texts_of(alloc, &setting.names)?,
            classes: class_names(alloc, &setting.classes)?,
            tables: tables_of(alloc, setting.tables.as_slice())?,
        })
    }

    /// The names by id.
    pub fn names(&self) -> &[Text]
        ensures { result.now ≡ self.now.names }
    {
        self.names.as_slice()
    }

    /// The text of a name's id, where it is one of the names.
    pub(crate) fn text(&self, id: NameId) -> Option<&[u8]>
        ensures { option_copied result ≡ slice_get self.now.names id }
    {
        match self.names.get(id.0 as usize) {
            Some(text) => Some(text.as_bytes()),
            None => None,
        }
    }

    /// The name of the class with this id, where it is registered.
    pub(crate) fn class(&self, id: u64) -> Option<&[u8]>
        ensures { option_copied result ≡ class_named self.now id }
    {
        match class_at(self.classes.as_slice(), id) {
            Some(name) => self.text(name),
            None => None,
        }
    }

    /// The table with this number, if there is one.
    pub(crate) fn table(&self, number: u64) -> Option<&TableName>
        ensures { option_copied result ≡ slice_get self.now.tables number }
    {
        self.tables.get(number as usize)
    }
}

fn class_at(classes: &[Option<NameId>], id: u64) -> Option<NameId>
    ensures { result ≡ slice_index_or classes.now id None }
{
    match classes.get(id as usize) {
        Some(name) => *name,
        None => None,
    }
}

fn texts_of(alloc: Global, names: &Names) -> Result<Vec<Text>, NoMemory>
    ensures { IfOk result (λ texts. texts.items ≡ names.now) }
{
    let mut texts = Vec::new(alloc);
    for id in 0..names.count() {
        texts.push(Text::from_slice(alloc, names.get(NameId(id)).as_bytes())?)?;
    }
    Ok(texts)
}

// The id of the name of each class by id; `transaction` is the last.
fn class_names(alloc: Global, classes: &Classes) -> Result<Vec<Option<NameId>>, NoMemory>
    ensures { IfOk result (λ names. names.items ≡ map (name_of_class classes.now) (range_with_len 0 63)) }
{
    let mut names = Vec::with_capacity(alloc, 63)?;
    for id in 0..63 {
        names.push(name_of_class(classes, id))?;
    }
    Ok(names)
}

fn name_of_class(classes: &Classes, id: u64) -> Option<NameId>
    ensures { result ≡ name_of_class classes.now id }
{
    if id < classes.count() || id == 62 {
        Some(classes.class(ClassId(id)).name)
    } else {
        None
    }
}

fn tables_of(alloc: Global, tables: &[TableName]) -> Result<Vec<TableName>, NoMemory>
    ensures { IfOk result (λ copies. copies.items ≡ tables.now) }
{
    let mut copies = Vec::with_capacity(alloc, tables.len())?;
    for table in tables {
        let schema = Text::from_slice(alloc, table.schema.as_bytes())?;
        let name = Text::from_slice(alloc, table.name.as_bytes())?;
        copies.push(TableName { schema, name })?;
    }
    Ok(copies)
}
