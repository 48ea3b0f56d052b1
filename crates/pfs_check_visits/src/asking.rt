//! A rule asked of a report, with the line of the first entry that lacks it.

ghost use Rattle.std.specs.Prelude.{[], List, IfOk};
ghost use Rattle.pfs_check_cut.specs.CutReports.{phases_by};
ghost use Rattle.pfs_check_faults.specs.ReportCases.{Case, Findings};
ghost use Rattle.pfs_check_faults.specs.ShapeFaults.{IsCut};
ghost use Rattle.pfs_script.specs.declared.blocks.Phase.{Phase};
ghost use Rattle.pfs_check_visits.specs.ReportVisits.{IsAsked, entries_by};

use crate::NoMemory;
use crate::report_visits::visit_report;
use crate::visited::Visited;
use pfs_check_cut::CutPhase;
use pfs_check_line_numbers::entry_line;
use pfs_check_walk::Visit;
use pfs_journal::ReportParts;
use std::alloc::Global;

/// Asks a rule of each entry of a report that is cut at these places: None where all keep it, or the line of the first
/// that doesn't, counted from 1. Err where memory runs out.
pub fn ask_report<V: Visit>(
    alloc: Global,
    visitor: &mut V,
    cuts: &[CutPhase],
    report: &ReportParts,
) -> Result<Option<u64>, NoMemory>
    ensures { (phases : List Phase) → IsCut phases report.now (phases_by cuts.now report.now.phases)
        → (case : Case) → (found : Findings) → V.knows visitor.old case found []
        → IfOk result (IsAsked report.now (V.rule case found) (entries_by cuts.now report.now)
        (V.knows visitor.new case found)) }
{
    let visited = visit_report(alloc, visitor, cuts, report)?;
    match visited {
        Visited::Kept(_) => Ok(None),
        Visited::Lacking(at) => {
            let line = entry_line(report, at)?;
            Ok(line)
        }
    }
}
