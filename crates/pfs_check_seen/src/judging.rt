//! The fifth rule, asked of a report.

ghost use Rattle.std.specs.Prelude.{◌≡◌, [], IfOk};
ghost use Rattle.pfs_check_cut.specs.CutReports.{phases_by};
ghost use Rattle.pfs_check_faults.specs.declared.rules.Rule.TheVariants as rules;
ghost use Rattle.pfs_check_faults.specs.Judgements.{KeepBefore};
ghost use Rattle.pfs_check_faults.specs.ReportCases.{Case, Findings, entries_of};
ghost use Rattle.pfs_check_floors.specs.RowNames.{AreSightsOf};
ghost use Rattle.pfs_check_seen.specs.SeenRules.{IsSeenJudged};
ghost use Rattle.pfs_model.specs.Chains.{AreChained, row_change, word_change};

use crate::NoMemory;
use crate::collecting::Collecting;
use crate::seeing::Seeing;
use pfs_check_cut::CutPhase;
use pfs_check_floors::Sights;
use pfs_check_visits::{ask_report, visit_report};
use pfs_journal::ReportParts;
use std::alloc::Global;

/// The answer of the fifth rule.
#[derive(Clone, Copy, Debug, PartialEq, Eq)]
pub enum SeenRule {
    /// It is kept.
    Kept,
    /// The first line at which it fails, counted from 1.
    Wrong(u64),
}

/// What is known of rows and switch words before the first entry of a report that is cut at these places. Err where
/// memory runs out.
pub fn collect_sights(
    alloc: Global,
    cuts: &[CutPhase],
    report: &ReportParts,
) -> Result<Sights, NoMemory>
    ensures { (case : Case) → (found : Findings) → found.blocks ≡ phases_by cuts.now report.now.phases
        → AreChained row_change (entries_of found) → AreChained word_change (entries_of found)
        → IfOk result (AreSightsOf (entries_of found) []) }
{
    let mut collecting = Collecting::new(alloc);
    let _visited = visit_report(alloc, &mut collecting, cuts, report)?;
    collecting.collected.into_sights(alloc)
}

/// Asks the fifth rule of a report that is cut at these places: what a line names was there, and stands at or above
/// what its session must have seen. Err where memory runs out.
pub fn judge_seen(
    alloc: Global,
    cuts: &[CutPhase],
    report: &ReportParts,
) -> Result<SeenRule, NoMemory>
    ensures { (case : Case) → (found : Findings) → case.report ≡ report.now
        → found.blocks ≡ phases_by cuts.now report.now.phases → KeepBefore rules.Seen case found
        → IfOk result (IsSeenJudged case found) }
{
    let sights = collect_sights(alloc, cuts, report)?;
    let mut seeing = Seeing { sights };
    let line = ask_report(alloc, &mut seeing, cuts, report)?;
    match line {
        None => Ok(SeenRule::Kept),
        Some(line) => Ok(SeenRule::Wrong(line)),
    }
}
