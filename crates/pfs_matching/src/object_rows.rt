//! `setup_objects`: which tables are instrumented.
ghost use Rattle.std.specs.Prelude.{◌≡◌, ◌≢◌, ℕ, ◌+◌, ◌<◌, ◌≤◌, ◌↔◌, [], ◌∷◌, ◌++◌, length, map, All, Contains, IfOk, IsTrue, MatchOption, OnOk, OnErr, Some, slice_get, vec_capacity, vec_len};
ghost use Rattle.std.specs.List.{find, list_any, prefix_len};
ghost use Rattle.std.specs.List.Sorted.{IsStrictlyIncreasing};
ghost use Rattle.std.specs.Option.{option_map};
ghost use Rattle.std.specs.Ordering.{is_eq};
ghost use Rattle.pfs_matching.specs.declared.object_rows.ObjectKind.{ObjectKind};
ghost use Rattle.pfs_matching.specs.KeyedRows.{AreRows, comes_before, key_cmp, with_named_changed, with_row, without_named};
ghost use Rattle.pfs_matching.specs.ObjectRules.{changed_object, is_table as spec_is_table, kind_name, object_key, opening_objects, opening_of_kind, object_says, opening_row as spec_row, table_flags, table_has};

use crate::keyed_rows::{KeyedRow, KeyedRows, MOST_ROWS};
use crate::{FlagChange, MatchFault, NoMemory};
use pfs_text::Text;
use std::alloc::Global;
use std::cmp::Ordering;
use std::marker::Model;

/// The OBJECT_TYPE of a row. The kinds stand in the order of their names by bytes.
#[derive(Clone, Copy, Debug, PartialEq, Eq)]
pub enum ObjectKind {
    Event,
    Function,
    Procedure,
    Table,
    Trigger,
}

impl ObjectKind {
    /// All kinds, in their order.
    pub const ALL: [ObjectKind; 5] = [
        ObjectKind::Event,
        ObjectKind::Function,
        ObjectKind::Procedure,
        ObjectKind::Table,
        ObjectKind::Trigger,
    ];

    /// The kind's name in a table, MySQL's own.
    pub fn name(self) -> &'static str
        ensures { result.now ≡ kind_name self }
    {
        match self {
            ObjectKind::Event => "EVENT",
            ObjectKind::Function => "FUNCTION",
            ObjectKind::Procedure => "PROCEDURE",
            ObjectKind::Table => "TABLE",
            ObjectKind::Trigger => "TRIGGER",
        }
    }

    /// The kind of that name, compared byte by byte; none where no kind has it.
    pub fn find(name: &[u8]) -> Option<ObjectKind>
        ensures { MatchOption result ((kind : ObjectKind)
            → kind_name kind ≢ name.now) (λ kind. kind_name kind ≡ name.now) }
    {
        for kind in ObjectKind::ALL {
            if kind.name().as_bytes() == name {
                return Some(kind);
            }
        }
        None
    }
}

/// A row of `setup_objects`: OBJECT_TYPE, OBJECT_SCHEMA, OBJECT_NAME, ENABLED and TIMED. The text `%` stands for any
/// schema or name.
#[derive(Debug, Drop)]
pub struct ObjectRow {
    pub kind: ObjectKind,
    pub schema: Text,
    pub name: Text,
    pub enabled: bool,
    pub timed: bool,
}

impl KeyedRow for ObjectRow {
    ghost use Rattle.std.specs.Prelude.{refl};
    ghost use Rattle.pfs_matching.specs.ObjectRules.{object_key, changed_object};

    ghost key = { object_key };

    ghost changed = { changed_object };

    ghost keeps = { λ change row. refl };

    fn order(&self, other: &ObjectRow) -> Ordering {
        let kinds = self
            .kind
            .name()
            .as_bytes()
            .cmp(other.kind.name().as_bytes());
        kinds
            .then(self.schema.cmp(&other.schema))
            .then(self.name.cmp(&other.name))
    }

    fn change(&mut self, change: &FlagChange) {
        self.enabled = change.first.unwrap_or(self.enabled);
        self.timed = change.second.unwrap_or(self.timed);
    }
}

/// The rows of `setup_objects` in the order of OBJECT_TYPE, OBJECT_SCHEMA and OBJECT_NAME by their bytes, with room
/// for 100.
#[derive(Drop)]
pub struct Objects {
    rows: KeyedRows<ObjectRow>,
}

impl Model for Objects {
    ghost use Rattle.std.specs.Prelude.{List};
    ghost use Rattle.pfs_matching.specs.declared.object_rows.ObjectRow.{ObjectRow};

    ghost Value = { List ObjectRow };

    ghost view = { λ a. a.rows };
}

impl Objects {
    /// The twenty opening rows: for each kind every object with YES and YES, but those of the schemas
    /// `information_schema`, `mysql` and `performance_schema` with NO and NO. The room for 100 rows is taken here,
    /// and no other call takes memory.
    pub fn open(alloc: Global) -> Result<Objects, NoMemory>
        ensures { IfOk result (λ objects. objects ≡ opening_objects) }
    {
        let rows = opening_rows(alloc)?;
        Ok(Objects {
            rows: KeyedRows::new(rows),
        })
    }

    /// The number of rows.
    pub fn count(&self) -> usize
        ensures number { result ≡ length self.now }
        ensures rows { AreRows object_key self.now }
    {
        self.rows.rows().len()
    }

    /// The row at a place in key order.
    pub fn row(&self, place: usize) -> &ObjectRow
        requires { place < length self.now }
        ensures { slice_get self.now place ≡ Some result.now }
    {
        &self.rows.rows()[place]
    }

    /// Adds a row at its place in key order. It comes with its own texts, so this takes no memory. Duplicate comes
    /// exactly where a row with this type, schema and name is there, and is tested before Full, which comes exactly
    /// at 100 rows. The limit is our own. A refusal changes nothing.
    pub fn insert(&mut self, row: ObjectRow) -> Result<(), MatchFault>
        ensures ok { OnOk result (self.new ≡ with_row object_key row self.old) }
        ensures duplicate { (result ≡ Err MatchFault.Duplicate) ↔ Contains (map object_key self.old) (object_key row) }
        ensures full { (result ≡ Err MatchFault.Full)
            ↔ ((¬ Contains (map object_key self.old) (object_key row)) × (length self.old ≡ 100)) }
        ensures err { OnErr result (self.new ≡ self.old) }
    {
        self.rows.insert(row)
    }

    /// Removes the rows at these places, which ascend.
    pub fn delete(&mut self, keys: &[usize])
        requires inside { All (λ place. place < length self.old) keys.now }
        requires ascending { IsStrictlyIncreasing keys.now }
        ensures { self.new ≡ without_named keys.now self.old }
    {
        self.rows.delete(keys);
    }

    /// Changes ENABLED and TIMED of the rows at these places, which ascend.
    pub fn update(&mut self, keys: &[usize], change: &FlagChange)
        requires inside { All (λ place. place < length self.old) keys.now }
        requires ascending { IsStrictlyIncreasing keys.now }
        ensures { self.new ≡ with_named_changed (changed_object change.now) keys.now self.old }
    {
        self.rows.update(keys, change);
    }

    /// Removes all rows.
    pub fn truncate(&mut self)
        ensures { self.new ≡ [] }
    {
        self.rows.truncate();
    }

    /// ENABLED and TIMED of a table, from the rows of type TABLE: those of the row with its schema and name; else
    /// with its schema and OBJECT_NAME `%`; else with `%` for both. This is MySQL's order. That a table without a row
    /// is off, NO and NO, is our own rule. `%` is no pattern here: it stands alone.
    pub fn decide_object(&self, schema: &[u8], name: &[u8]) -> (bool, bool)
        ensures { result ≡ table_flags self.now schema.now name.now }
    {
        let rows = self.rows.rows();
        if let Some(flags) = first_flags(rows, schema, name) {
            return flags;
        }
        if let Some(flags) = first_flags(rows, schema, b"%") {
            return flags;
        }
        first_flags(rows, b"%", b"%").unwrap_or((false, false))
    }
}

fn opening_rows(alloc: Global) -> Result<Vec<ObjectRow>, NoMemory>
    ensures rows { IfOk result (λ rows. rows.items ≡ opening_objects) }
    ensures room { IfOk result (λ rows. 100 ≤ vec_capacity rows) }
{
    let mut rows = Vec::with_capacity(alloc, MOST_ROWS)?;
    for kind in ObjectKind::ALL {
        put_opening(alloc, &mut rows, kind)?;
    }
    Ok(rows)
}

// Appends the opening rows of a kind.
fn put_opening(alloc: Global, rows: &mut Vec<ObjectRow>, kind: ObjectKind) -> Result<(), NoMemory>
    requires { vec_len rows.old + 4 ≤ vec_capacity rows.old }
    ensures rows { OnOk result (rows.new.items ≡ rows.old.items ++ opening_of_kind kind) }
    ensures room { vec_capacity rows.new ≡ vec_capacity rows.old }
{
    rows.push_reserved(opening_row(alloc, kind, b"%", true)?);
    rows.push_reserved(opening_row(alloc, kind, b"information_schema", false)?);
    rows.push_reserved(opening_row(alloc, kind, b"mysql", false)?);
    rows.push_reserved(opening_row(alloc, kind, b"performance_schema", false)?);
    Ok(())
}

fn opening_row(
    alloc: Global,
    kind: ObjectKind,
    schema: &[u8],
    on: bool,
) -> Result<ObjectRow, NoMemory>
    ensures { IfOk result (λ row. row ≡ spec_row kind schema.now on) }
{
    Ok(ObjectRow {
        kind,
        schema: Text::from_slice(alloc, schema)?,
        name: Text::from_slice(alloc, b"%")?,
        enabled: on,
        timed: on,
    })
}

// ENABLED and TIMED of the first row for tables with this schema and name.
fn first_flags(rows: &[ObjectRow], schema: &[u8], name: &[u8]) -> Option<(bool, bool)>
    ensures { result ≡ option_map object_says (find (table_has (schema.now, name.now)) rows.now) }
{
    rows.iter()
        .find(|row| is_table(row.kind)
            && row.schema.as_bytes() == schema
            && row.name.as_bytes() == name)
        .map(|row| (row.enabled, row.timed))
}

fn is_table(kind: ObjectKind) -> bool
    ensures { result ≡ spec_is_table kind }
{
    matches!(kind, ObjectKind::Table)
}
