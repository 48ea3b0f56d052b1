//! The fourth rule, asked of a report.

ghost use Rattle.std.specs.Prelude.{◌≡◌, IfOk};
ghost use Rattle.pfs_check_cut.specs.CutReports.{phases_by};
ghost use Rattle.pfs_check_faults.specs.declared.rules.Rule.TheVariants as rules;
ghost use Rattle.pfs_check_faults.specs.Judgements.{KeepBefore};
ghost use Rattle.pfs_check_faults.specs.ReportCases.{Case, Findings};
ghost use Rattle.pfs_check_numbers.specs.OrderAnswers.{AreOrdersOf};
ghost use Rattle.pfs_check_setup.specs.SetupRules.{AreFoundIn, IsSetupJudged};

use crate::NoMemory;
use crate::collecting::collect_sets;
use crate::faults::first_fault;
use pfs_check_cut::CutPhase;
use pfs_check_orders::Orders;
use pfs_check_versions::Versions;
use pfs_journal::ReportParts;
use std::alloc::Global;

/// The answer of the fourth rule.
#[derive(Clone, Copy, Debug, PartialEq, Eq)]
pub enum SetupRule {
    /// It is kept.
    Kept,
    /// The first line at which it fails, counted from 1.
    Wrong(u64),
}

/// Asks the fourth rule of a report that is cut at these places, by where its actions begin and by what they may ask
/// for: each action sets the switch words that it asks for, each at its next version along the actions. Err where
/// memory runs out.
pub fn judge_setup(
    alloc: Global,
    cuts: &[CutPhase],
    report: &ReportParts,
    actions: &Versions,
    orders: &Orders,
) -> Result<SetupRule, NoMemory>
    ensures { (case : Case) → (found : Findings) → case.report ≡ report.now
        → found.blocks ≡ phases_by cuts.now report.now.phases → KeepBefore rules.Setup case found
        → AreFoundIn case found actions.now → AreOrdersOf case found orders.now
        → IfOk result (IsSetupJudged case found) }
{
    let printed = collect_sets(alloc, cuts, report)?;
    let entries = &orders.entries;
    let line = first_fault(alloc, &printed, actions, entries, orders.orders.as_slice())?;
    match line {
        None => Ok(SetupRule::Kept),
        Some(line) => Ok(SetupRule::Wrong(line)),
    }
}
