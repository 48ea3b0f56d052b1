//! The changes of the administration.
ghost use Rattle.std.specs.Prelude.{◌≡◌};
ghost use Rattle.pfs_exec.specs.NewRows.{table_of};

use crate::TestList;
use pfs_matching::{ActorRow, FlagChange, ObjectRow};
use pfs_rows::Table;

/// New values for the flags of each row that meets the conditions.
#[derive(Debug, Drop)]
pub struct Update {
    /// A table whose rows have flags.
    pub table: Table,
    /// The new flags; None leaves one as it is.
    pub change: FlagChange,
    pub tests: TestList,
}

/// Each row that meets the conditions goes.
#[derive(Debug, Drop)]
pub struct Delete {
    /// `setup_actors` or `setup_objects`.
    pub table: Table,
    pub tests: TestList,
}

/// A row of `setup_actors` or of `setup_objects`, with all its values.
#[derive(Debug, Drop)]
pub enum NewRow {
    Actor(ActorRow),
    Object(ObjectRow),
}

/// One row comes.
#[derive(Debug, Drop)]
pub struct Insert {
    /// The table that the row is of.
    pub table: Table,
    pub row: NewRow,
}

impl Insert {
    /// The insertion of this row into the table that it is of.
    pub fn new(row: NewRow) -> Insert
        ensures row { result.row ≡ row }
        ensures table { result.table ≡ table_of row }
    {
        let table = match &row {
            NewRow::Actor(_) => Table::SetupActors,
            NewRow::Object(_) => Table::SetupObjects,
        };
        Insert { table, row }
    }
}

/// What a text of SQL asks of the administration, a SELECT aside.
#[derive(Debug, Drop)]
pub enum Change {
    /// This table is emptied.
    Truncate(Table),
    Update(Update),
    Insert(Insert),
    Delete(Delete),
}
