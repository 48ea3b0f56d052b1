//! What a report prints of its actions beside their sets, collected by one walk.

ghost use Rattle.std.specs.Prelude.{◌≡◌, IfOk};
ghost use Rattle.pfs_check_cut.specs.CutReports.{phases_by};
ghost use Rattle.pfs_check_faults.specs.ReportCases.{Case, Findings, entries_of};
ghost use Rattle.pfs_check_moves.specs.PrintedMoves.{ArePrinted};

use crate::NoMemory;
use crate::printed::PrintedMoves;
use pfs_check_cut::CutPhase;
use pfs_check_visits::visit_report;
use pfs_check_walk::{Spot, Track, Visit};
use pfs_event::Entry;
use pfs_journal::ReportParts;
use pfs_model::Line;
use std::alloc::Global;

/// Collects what each entry changes, and asks nothing of it.
#[derive(Drop)]
pub(crate) struct CollectingMoves {
    pub alloc: Global,
    pub printed: PrintedMoves,
}

impl Visit for CollectingMoves {
    ghost use Rattle.pfs_check_moves.specs.PrintedMoves.{ArePrinted, in_order};

    ghost rule = { λ case found earlier place. Unit {0} };

    ghost knows = { λ visitor case found earlier. ArePrinted (in_order earlier) visitor.printed.kept };

    fn visit<T: Track>(
        &mut self,
        _spot: Spot,
        _line: &Line,
        track: &T,
        entry: &Entry,
    ) -> Result<bool, NoMemory> {
        let action = track.action();
        self.printed.note(self.alloc, action, entry)?;
        Ok(true)
    }
}

/// The takes and gives, the releases and tags of each action of a report that is cut at these places. Err where memory
/// runs out.
pub(crate) fn collect_moves(
    alloc: Global,
    cuts: &[CutPhase],
    report: &ReportParts,
) -> Result<PrintedMoves, NoMemory>
    ensures { (case : Case) → (found : Findings) → found.blocks ≡ phases_by cuts.now report.now.phases
        → IfOk result (λ printed. ArePrinted (entries_of found) printed.kept) }
{
    let mut collecting = CollectingMoves {
        alloc,
        printed: PrintedMoves::new(alloc),
    };
    let _visited = visit_report(alloc, &mut collecting, cuts, report)?;
    Ok(collecting.printed)
}
