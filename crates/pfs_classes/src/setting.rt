//! What a run's script fixes.

ghost use Rattle.std.specs.Prelude.{◌≡◌, ◌<◌, ◌≤◌, ◌++◌, ◌∷◌, [], length, OnOk, OnErr, slice_get, Some};
ghost use Rattle.pfs_rows.specs.Limits.{AreInRange};
ghost use Rattle.pfs_classes.specs.Settings.{ComesFrom, HasNames};

use crate::{Classes, NoMemory};
use pfs_names::Names;
use pfs_rows::Limits;
use pfs_text::Text;
use std::alloc::Global;
use std::marker::Model;

/// A table that a script names: its schema and its name.
#[derive(Debug, Drop)]
pub struct TableName {
    pub schema: Text,
    pub name: Text,
}

/// The tables of a script by number, from 0.
#[derive(Debug, Drop)]
pub struct TableList {
    tables: Vec<TableName>,
}

impl Model for TableList {
    ghost use Rattle.std.specs.Prelude.{List};
    ghost use Rattle.pfs_classes.specs.declared.setting.TableName.{TableName};

    ghost Value = { List TableName };

    ghost view = { λ a. a.tables.items };
}

impl TableList {
    /// The tables of a list, in its order. It takes no memory.
    pub fn new(tables: Vec<TableName>) -> TableList
        ensures { result ≡ tables.items }
    {
        TableList { tables }
    }

    /// The tables in their order.
    pub fn as_slice(&self) -> &[TableName]
        ensures { result.now ≡ self.now }
    {
        self.tables.as_slice()
    }

    /// The list of tables, given back without taking memory.
    pub fn into_vec(self) -> Vec<TableName>
        ensures { result.items ≡ self }
    {
        self.tables
    }

    /// Adds a table with the next number. Out of memory it is dropped, and the list is as before.
    pub fn push(&mut self, table: TableName) -> Result<(), NoMemory>
        ensures ok { OnOk result (self.new ≡ self.old ++ table ∷ []) }
        ensures err { OnErr result (self.new ≡ self.old) }
    {
        self.tables.push(table)?;
        Ok(())
    }
}

/// A digest text. Its SHA-256 is taken where it is shown.
#[derive(Debug, Drop)]
pub struct DigestText {
    pub text: Text,
}

/// The digest texts of a script by place, from 0.
#[derive(Debug, Drop)]
pub struct DigestList {
    digests: Vec<DigestText>,
}

impl Model for DigestList {
    ghost use Rattle.std.specs.Prelude.{List};
    ghost use Rattle.pfs_classes.specs.declared.setting.DigestText.{DigestText};

    ghost Value = { List DigestText };

    ghost view = { λ a. a.digests.items };
}

impl DigestList {
    /// The digest texts of a list, in its order. It takes no memory.
    pub fn new(digests: Vec<DigestText>) -> DigestList
        ensures { result ≡ digests.items }
    {
        DigestList { digests }
    }

    /// The digest texts in their order.
    pub fn as_slice(&self) -> &[DigestText]
        ensures { result.now ≡ self.now }
    {
        self.digests.as_slice()
    }

    /// The list of digest texts, given back without taking memory.
    pub fn into_vec(self) -> Vec<DigestText>
        ensures { result.items ≡ self }
    {
        self.digests
    }

    /// Adds a digest text at the next place. Out of memory it is dropped, and the list is as
    /// before.
    pub fn push(&mut self, digest: DigestText) -> Result<(), NoMemory>
        ensures ok { OnOk result (self.new ≡ self.old ++ digest ∷ []) }
        ensures err { OnErr result (self.new ≡ self.old) }
    {
        self.digests.push(digest)?;
        Ok(())
    }
}

/// What a run's script fixes: its names, classes, tables and digest texts, its limits, and the
/// opening flags of the consumers. The classes are registered and set under these names and
/// limits, and there are at most 64 tables and as many digest texts as the limit allows.
#[derive(Drop)]
pub struct Setting {
    pub names: Names,
    pub classes: Classes,
    pub tables: TableList,
    pub digests: DigestList,
    pub limits: Limits,
    pub consumers: u16,
    pub ghost in_range: { AreInRange limits },
    pub ghost same_limits: { classes.limits ≡ limits },
    pub ghost come: { ∥ ComesFrom names classes ∥₁ },
    pub ghost known: { HasNames names classes },
    pub ghost few_tables: { length tables ≤ 64 },
    pub ghost few_digests: { length digests ≤ limits.digests },
}

impl Setting {
    /// The setting of these parts.
    pub fn new(
        names: Names,
        classes: Classes,
        tables: TableList,
        digests: DigestList,
        limits: Limits,
        consumers: u16,
    ) -> Setting
        requires in_range { AreInRange limits }
        requires same_limits { classes.limits ≡ limits }
        requires come { ComesFrom names classes }
        requires few_tables { length tables ≤ 64 }
        requires few_digests { length digests ≤ limits.digests }
        ensures names { result.names ≡ names }
        ensures classes { result.classes ≡ classes }
        ensures tables { result.tables ≡ tables }
        ensures digests { result.digests ≡ digests }
        ensures limits { result.limits ≡ limits }
        ensures consumers { result.consumers ≡ consumers }
    {
        Setting {
            names,
            classes,
            tables,
            digests,
            limits,
            consumers,
        }
    }
}
