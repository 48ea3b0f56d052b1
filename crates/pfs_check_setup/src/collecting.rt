//! What a report prints of its actions, collected by one walk.

ghost use Rattle.std.specs.Prelude.{◌≡◌, IfOk};
ghost use Rattle.pfs_check_cut.specs.CutReports.{phases_by};
ghost use Rattle.pfs_check_faults.specs.ReportCases.{Case, Findings, entries_of};
ghost use Rattle.pfs_check_setup.specs.PrintedActions.{ArePrinted};

use crate::NoMemory;
use crate::printed::PrintedActions;
use pfs_check_cut::CutPhase;
use pfs_check_visits::visit_report;
use pfs_check_walk::{Spot, Track, Visit};
use pfs_event::Entry;
use pfs_journal::ReportParts;
use pfs_model::Line;
use std::alloc::Global;

/// Collects what each entry changes, and asks nothing of it.
#[derive(Drop)]
pub(crate) struct CollectingSets {
    pub alloc: Global,
    pub printed: PrintedActions,
}

impl Visit for CollectingSets {
    ghost use Rattle.pfs_check_seen.specs.SeenRules.{in_order};
    ghost use Rattle.pfs_check_setup.specs.PrintedActions.{ArePrinted};

    ghost rule = { λ case found earlier place. Unit {0} };

    ghost knows = { λ visitor case found earlier. ArePrinted (in_order earlier) visitor.printed };

    fn visit<T: Track>(
        &mut self,
        _spot: Spot,
        _line: &Line,
        track: &T,
        entry: &Entry,
    ) -> Result<bool, NoMemory> {
        let action = track.action();
        self.printed.note(self.alloc, action, entry)?;
        Ok(true)
    }
}

/// The sets of each action of a report that is cut at these places, and how many other changes it has. Err where memory
/// runs out.
pub(crate) fn collect_sets(
    alloc: Global,
    cuts: &[CutPhase],
    report: &ReportParts,
) -> Result<PrintedActions, NoMemory>
    ensures { (case : Case) → (found : Findings) → found.blocks ≡ phases_by cuts.now report.now.phases
        → IfOk result (ArePrinted (entries_of found)) }
{
    let mut collecting = CollectingSets {
        alloc,
        printed: PrintedActions::new(alloc),
    };
    let _visited = visit_report(alloc, &mut collecting, cuts, report)?;
    Ok(collecting.printed)
}
