//! The causes of lines, asked of a report.

ghost use Rattle.std.specs.Prelude.{◌≡◌, [], IfOk};
ghost use Rattle.pfs_check_caused.specs.CauseRules.{AreCausesJudged, AreKnown, AreQueryCausesJudged, rule_of};
ghost use Rattle.pfs_check_cut.specs.CutReports.{phases_by};
ghost use Rattle.pfs_check_faults.specs.declared.rules.Rule.TheVariants as rules;
ghost use Rattle.pfs_check_faults.specs.Judgements.{KeepBefore};
ghost use Rattle.pfs_check_faults.specs.ReportCases.{Case, Findings, entries_of};

use crate::NoMemory;
use crate::asking::{Events, Known, Queries};
use crate::collecting::Collecting;
use pfs_check_causes::laws::phases_rise;
use pfs_check_cut::CutPhase;
use pfs_check_seen::collect_sights;
use pfs_check_visits::{ask_report, visit_report};
use pfs_journal::ReportParts;
use std::alloc::Global;

/// What is found of the causes of a report.
#[derive(Clone, Copy, Debug, PartialEq, Eq)]
pub enum CauseRule {
    /// Each is shown.
    Kept,
    /// The first line with an entry that doesn't show its cause, counted from 1.
    Wrong(u64),
}

// What is known of causes before the first entry.
fn collect_known(alloc: Global, cuts: &[CutPhase], report: &ReportParts) -> Result<Known, NoMemory>
    ensures { (case : Case) → (found : Findings) → found.blocks ≡ phases_by cuts.now report.now.phases
        → KeepBefore rules.Rings case found → IfOk result (AreKnown (entries_of found) []) }
{
    phases_rise();
    let sights = collect_sights(alloc, cuts, report)?;
    let mut collecting = Collecting::new(alloc);
    let _visited = visit_report(alloc, &mut collecting, cuts, report)?;
    let causes = collecting.givens.into_causes(alloc)?;
    Ok(Known { sights, causes })
}

fn rule_of(line: Option<u64>) -> CauseRule
    ensures { result ≡ rule_of line }
{
    match line {
        None => CauseRule::Kept,
        Some(line) => CauseRule::Wrong(line),
    }
}

/// Asks the causes of a report that is cut at these places, those of the ninth rule: outside SELECTs that read the
/// store each line that says that a row was held, busy, late or FREE shows why. Err where memory runs out.
pub fn judge_causes(
    alloc: Global,
    cuts: &[CutPhase],
    report: &ReportParts,
) -> Result<CauseRule, NoMemory>
    ensures { (case : Case) → (found : Findings) → case.report ≡ report.now
        → found.blocks ≡ phases_by cuts.now report.now.phases → KeepBefore rules.Rings case found
        → IfOk result (AreCausesJudged case found) }
{
    let known = collect_known(alloc, cuts, report)?;
    let mut events = Events { known };
    let line = ask_report(alloc, &mut events, cuts, report)?;
    Ok(rule_of(line))
}

/// Asks those of the tenth rule: in a SELECT that reads the store each line that says that a row was busy or FREE shows
/// why. Err where memory runs out.
pub fn judge_query_causes(
    alloc: Global,
    cuts: &[CutPhase],
    report: &ReportParts,
) -> Result<CauseRule, NoMemory>
    ensures { (case : Case) → (found : Findings) → case.report ≡ report.now
        → found.blocks ≡ phases_by cuts.now report.now.phases → KeepBefore rules.Rings case found
        → IfOk result (AreQueryCausesJudged case found) }
{
    let known = collect_known(alloc, cuts, report)?;
    let mut queries = Queries { known };
    let line = ask_report(alloc, &mut queries, cuts, report)?;
    Ok(rule_of(line))
}
