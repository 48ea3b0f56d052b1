//! What follows from the definitions for all tables and names.
ghost use Rattle.std.specs.Prelude.{◌≡◌, ℕ, List, Contains};
ghost use Rattle.pfs_rows.specs.declared.table.Table.{Table};
ghost use Rattle.pfs_catalogue.specs.Columns.{AreFound, NamesDiffer};
ghost use Rattle.pfs_catalogue.specs.LetterCases.{IsTableName};

use crate::TABLES;

/// The names of a table's columns differ, also where letter case is left aside.
pub fn column_names_differ()
    ensures { NamesDiffer }
{}

/// Each column is found at its place by its name in any letter case.
pub fn columns_are_found()
    ensures { AreFound }
{}

/// Each table stands in `TABLES`.
pub fn all_tables()
    ensures { (table : Table) → Contains TABLES table }
{}

/// No name is the name of two tables.
pub fn one_table()
    ensures { (a b : Table) (name : List ℕ) → IsTableName a name → IsTableName b name → a ≡ b }
{
    pfs_rows::laws::table_names_differ();
}
