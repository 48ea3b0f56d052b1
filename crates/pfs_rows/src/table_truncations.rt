//! Laws of truncations and their tables.

ghost use Rattle.pfs_rows.specs.TruncationTables.{TableLaw};

/// The truncation of a table is the one whose table it is, and it has one where there is such a truncation.
pub fn each_has_its_table()
    ensures { TableLaw }
{}
