//! The order of the actions along rows, asked of a report.

ghost use Rattle.std.specs.Prelude.{◌≡◌, IfOk};
ghost use Rattle.pfs_check_cut.specs.CutReports.{phases_by};
ghost use Rattle.pfs_check_deeds.specs.JudgedFalls.{AreFallsJudged};
ghost use Rattle.pfs_check_deeds.specs.PlacedDeeds.{placed_deeds};
ghost use Rattle.pfs_check_faults.specs.declared.rules.Rule.TheVariants as rules;
ghost use Rattle.pfs_check_faults.specs.Judgements.{Keeps};
ghost use Rattle.pfs_check_faults.specs.ReportCases.{Case, Findings, entries_of};

use crate::NoMemory;
use crate::collecting::Collecting;
use pfs_check_cut::CutPhase;
use pfs_check_falls::{PlacedDeed, first_fall};
use pfs_check_line_numbers::entry_line;
use pfs_check_visits::visit_report;
use pfs_journal::ReportParts;
use std::alloc::Global;

/// All deeds of a report that is cut at these places, each with the place of its entry. Err where memory runs out.
pub fn collect_deeds(
    alloc: Global,
    cuts: &[CutPhase],
    report: &ReportParts,
) -> Result<Vec<PlacedDeed>, NoMemory>
    ensures { (case : Case) → (found : Findings) → found.blocks ≡ phases_by cuts.now report.now.phases
        → IfOk result (λ deeds. deeds.items ≡ placed_deeds 0 (entries_of found)) }
{
    let mut collecting = Collecting::new(alloc);
    let _visited = visit_report(alloc, &mut collecting, cuts, report)?;
    Ok(collecting.deeds)
}

/// Asks whether the numbers of the actions never fall along a row: None where they don't, or the first line whose deed
/// is by an action of a lower number than what stands right before it in its row, counted from 1. Err where memory runs
/// out.
pub fn judge_falls(
    alloc: Global,
    cuts: &[CutPhase],
    report: &ReportParts,
) -> Result<Option<u64>, NoMemory>
    ensures { (case : Case) → (found : Findings) → case.report ≡ report.now
        → found.blocks ≡ phases_by cuts.now report.now.phases → Keeps rules.Shape case found
        → IfOk result (AreFallsJudged case found) }
{
    let deeds = collect_deeds(alloc, cuts, report)?;
    let fall = first_fall(deeds)?;
    match fall {
        None => Ok(None),
        Some(place) => {
            let line = entry_line(report, place)?;
            Ok(line)
        }
    }
}
