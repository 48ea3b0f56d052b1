//! Laws of the rows that the administration holds.

ghost use Rattle.pfs_setups.specs.HeldRows.{FitsLaw};
ghost use Rattle.pfs_setups.specs.HeldExamples.{WorkedRows};

/// Each row has a value for each column of its table, of the column's kind.
pub fn rows_fit()
    ensures { FitsLaw }
{}

/// The rows of an opening, and one that was added.
pub fn rows_worked()
    ensures { WorkedRows }
{}
