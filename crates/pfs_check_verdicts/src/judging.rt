//! The sixth rule, asked of a report.

ghost use Rattle.std.specs.Prelude.{◌≡◌, IfOk};
ghost use Rattle.pfs_check_cut.specs.CutReports.{phases_by};
ghost use Rattle.pfs_check_faults.specs.declared.rules.Rule.TheVariants as rules;
ghost use Rattle.pfs_check_faults.specs.Judgements.{KeepBefore};
ghost use Rattle.pfs_check_faults.specs.ReportCases.{Case, Findings, flags_in};
ghost use Rattle.pfs_check_verdicts.specs.PrintedSets.{GivesFlags};
ghost use Rattle.pfs_check_verdicts.specs.VerdictRules.{IsVerdictJudged};

use crate::NoMemory;
use crate::collecting::CollectingFlags;
use crate::flags::PrintedFlags;
use crate::verdicts::JudgingVerdicts;
use pfs_check_cut::CutPhase;
use pfs_check_visits::{ask_report, visit_report};
use pfs_classes::Setting;
use pfs_journal::ReportParts;
use std::alloc::Global;

/// The answer of the sixth rule.
#[derive(Clone, Copy, Debug, PartialEq, Eq)]
pub enum VerdictRule {
    /// It is kept.
    Kept,
    /// The first line at which it fails, counted from 1.
    Wrong(u64),
}

/// The flags of the switch words at their versions, of a report that is cut at these places, and is one of a script with
/// this setting. Where a word is set twice at a version, the first set counts. Err where memory runs out.
pub fn collect_flags(
    alloc: Global,
    setting: &Setting,
    cuts: &[CutPhase],
    report: &ReportParts,
) -> Result<PrintedFlags, NoMemory>
    ensures { (case : Case) → (found : Findings) → case.setting ≡ setting.now
        → found.blocks ≡ phases_by cuts.now report.now.phases → IfOk result (GivesFlags (flags_in case found)) }
{
    let flags = PrintedFlags::open(alloc, setting)?;
    let mut collecting = CollectingFlags { flags };
    let _visited = visit_report(alloc, &mut collecting, cuts, report)?;
    Ok(collecting.flags)
}

/// Asks the sixth rule of a report that is cut at these places, and is one of a script with this setting: each start
/// names the verdict of the flags that it saw. Err where memory runs out.
pub fn judge_verdicts(
    alloc: Global,
    setting: &Setting,
    cuts: &[CutPhase],
    report: &ReportParts,
) -> Result<VerdictRule, NoMemory>
    ensures { (case : Case) → (found : Findings) → case.setting ≡ setting.now → case.report ≡ report.now
        → found.blocks ≡ phases_by cuts.now report.now.phases → KeepBefore rules.Verdict case found
        → IfOk result (IsVerdictJudged case found) }
{
    let flags = collect_flags(alloc, setting, cuts, report)?;
    let mut judging = JudgingVerdicts {
        flags,
        stack: setting.limits.statement_stack,
    };
    let line = ask_report(alloc, &mut judging, cuts, report)?;
    match line {
        None => Ok(VerdictRule::Kept),
        Some(line) => Ok(VerdictRule::Wrong(line)),
    }
}
