//! What a summary shows.

ghost use Rattle.std.specs.Prelude.{◌≡◌, IfOk};
ghost use Rattle.pfs_summaries.specs.Summaries.{summary_rows_of};

use crate::NoMemory;
use crate::contents::contents_of;
use crate::rows::ordered_rows;
use crate::tallies::{is_hidden, tallies_of};
use pfs_classes::Setting;
use pfs_rows::{Reading, SummaryTable, TableKind};
use pfs_text::{Row, Rowset};
use std::alloc::Global;

// The info rows, and row 0 before them.
const INFO_ROWS: usize = 129;

/// The rows of a summary by these readings, in the order of its key: by thread, or by the names,
/// then by class, and where all are equal by the place. A row merges what was counted in the cells
/// that belong to its key. It is left out where one of these cells was busy, and, by account, user
/// and host, where nothing was counted and no connection is there. Other readings than those of the
/// table's rows count nothing.
#[tactic(auto, using(crate::proofs::SameRows::hidden))]
pub fn summary_rows(
    alloc: Global,
    setting: &Setting,
    kind: TableKind,
    which: SummaryTable,
    readings: &[Reading],
) -> Result<Rowset, NoMemory>
    ensures { IfOk result (λ rows. rows ≡ summary_rows_of setting.now kind which readings.now) }
{
    if is_hidden(which, readings) {
        return Ok(Rowset::new(Vec::new(alloc)));
    }
    let infos = contents_of(alloc, 0, INFO_ROWS, readings)?;
    let tallies = tallies_of(alloc, which, &infos, readings)?;
    let rows = ordered_rows(alloc, setting, kind, which, &infos, &tallies)?;
    Ok(Rowset::new(rows))
}
