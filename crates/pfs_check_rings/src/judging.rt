//! The ninth rule, asked of a report.

ghost use Rattle.std.specs.Prelude.{◌≡◌, IfOk};
ghost use Rattle.pfs_check_cut.specs.CutReports.{phases_by};
ghost use Rattle.pfs_check_faults.specs.declared.rules.Rule.TheVariants as rules;
ghost use Rattle.pfs_check_faults.specs.Judgements.{KeepBefore};
ghost use Rattle.pfs_check_faults.specs.ReportCases.{Case, Findings};
ghost use Rattle.pfs_check_rings.specs.RingRules.{AreRingsJudged};

use crate::NoMemory;
use crate::least::rings_line;
use pfs_check_brought::judge_dues;
use pfs_check_caused::judge_causes;
use pfs_check_cut::CutPhase;
use pfs_check_tickets::judge_tickets;
use pfs_classes::Setting;
use pfs_journal::ReportParts;
use std::alloc::Global;

/// The answer of the ninth rule.
#[derive(Clone, Copy, Debug, PartialEq, Eq)]
pub enum RingRule {
    /// It is kept.
    Kept,
    /// The first line at which it fails, counted from 1.
    Wrong(u64),
}

/// Asks the ninth rule of a report that is cut at these places, and is one of a script with this setting: each event is
/// brought where its flags ask for, the tickets of the long histories are those that were drawn, and outside SELECTs
/// that read the store what was held, busy or late has its cause. Err where memory runs out.
pub fn judge_rings(
    alloc: Global,
    setting: &Setting,
    cuts: &[CutPhase],
    report: &ReportParts,
) -> Result<RingRule, NoMemory>
    ensures { (case : Case) → (found : Findings) → case.setting ≡ setting.now → case.report ≡ report.now
        → found.blocks ≡ phases_by cuts.now report.now.phases → KeepBefore rules.Rings case found
        → IfOk result (AreRingsJudged case found) }
{
    let tickets = judge_tickets(alloc, cuts, report)?;
    let causes = judge_causes(alloc, cuts, report)?;
    let dues = judge_dues(alloc, setting, cuts, report)?;
    let line = rings_line(tickets, causes, dues);
    match line {
        None => Ok(RingRule::Kept),
        Some(line) => Ok(RingRule::Wrong(line)),
    }
}
