//! The contents of the rows of a report.

ghost use Rattle.std.specs.Prelude.{IfOk};
ghost use Rattle.pfs_check_turns.specs.ToldContents.{AreContentsTold};

use crate::NoMemory;
use crate::turns::order_of;
use pfs_check_contents::{RowChange, Shelf, replay};
use std::alloc::Global;

/// What changes make of the rows, given in the order of the report. None where they aren't orderly: then no replay of
/// them is known. Err where memory runs out.
pub fn contents_of(alloc: Global, changes: &[RowChange]) -> Result<Option<Shelf>, NoMemory>
    ensures { IfOk result (AreContentsTold changes.now) }
{
    pfs_check_contents::laws::shelved();
    let order = order_of(alloc, changes)?;
    let shelf = replay(alloc, changes, order.as_slice())?;
    Ok(shelf)
}
