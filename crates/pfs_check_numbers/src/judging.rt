//! The seventh rule, asked of a report.

ghost use Rattle.std.specs.Prelude.{◌≡◌, IfOk};
ghost use Rattle.pfs_check_cut.specs.CutReports.{phases_by};
ghost use Rattle.pfs_check_faults.specs.declared.rules.Rule.TheVariants as rules;
ghost use Rattle.pfs_check_faults.specs.Judgements.{KeepBefore};
ghost use Rattle.pfs_check_faults.specs.ReportCases.{Case, Findings};
ghost use Rattle.pfs_check_numbers.specs.OrderAnswers.{AreOrdersOf, IsNumbersJudged};

use crate::NoMemory;
use crate::numbering::Numbering;
use pfs_check_cut::CutPhase;
use pfs_check_orders::Orders;
use pfs_check_visits::ask_report;
use pfs_journal::ReportParts;
use std::alloc::Global;

/// The answer of the seventh rule.
#[derive(Drop)]
pub enum NumbersRule {
    /// It is kept, and here are the orders again.
    Kept(Orders),
    /// The first line at which it fails, counted from 1.
    Wrong(u64),
}

/// Asks the seventh rule of a report that is cut at these places, by the orders of its actions: an event has the next
/// number, a connect the places that its action finds, and an answer is that of its line. Err where memory runs out.
pub fn judge_numbers(
    alloc: Global,
    cuts: &[CutPhase],
    report: &ReportParts,
    orders: Orders,
) -> Result<NumbersRule, NoMemory>
    ensures { (case : Case) → (found : Findings) → case.report ≡ report.now
        → found.blocks ≡ phases_by cuts.now report.now.phases → KeepBefore rules.Numbers case found
        → AreOrdersOf case found orders → IfOk result (IsNumbersJudged case found) }
{
    let mut numbering = Numbering { orders };
    let line = ask_report(alloc, &mut numbering, cuts, report)?;
    match line {
        None => Ok(NumbersRule::Kept(numbering.orders)),
        Some(line) => Ok(NumbersRule::Wrong(line)),
    }
}
