//! The eighth rule, asked of a report whose actions never fall along a row, and of one whose actions fall.

ghost use Rattle.std.specs.Prelude.{◌≡◌, IfOk};
ghost use Rattle.pfs_model.specs.Actions.{NeverFall, deeds_of};
ghost use Rattle.pfs_check_cut.specs.CutReports.{phases_by};
ghost use Rattle.pfs_check_faults.specs.declared.rules.Rule.TheVariants as rules;
ghost use Rattle.pfs_check_faults.specs.ActionFaults.{NeverFallsAt};
ghost use Rattle.pfs_check_faults.specs.Judgements.{IsFirstFault, KeepBefore};
ghost use Rattle.pfs_check_faults.specs.ReportCases.{Case, Findings, entries_of};
ghost use Rattle.pfs_law_made.specs.MadeContents.{IsKeptAsMade};
ghost use Rattle.pfs_check_visits.specs.ReportVisits.{IsFirstLacking};
ghost use Rattle.pfs_check_moves.specs.MovesRules.{AreFoundIn, AreOrdersIn, IsMovesJudged, IsShelfIn, given_in, lower_of};

use crate::NoMemory;
use crate::collecting::collect_moves;
use crate::faults::first_fault;
use pfs_check_contents::Shelf;
use pfs_check_cut::CutPhase;
use pfs_check_orders::Orders;
use pfs_check_versions::Versions;
use pfs_journal::ReportParts;
use std::alloc::Global;

/// The answer of the eighth rule.
#[derive(Clone, Copy, Debug, PartialEq, Eq)]
pub enum MovesRule {
    /// It is kept.
    Kept,
    /// The first line at which it fails, counted from 1.
    Wrong(u64),
}

/// Asks the eighth rule of a report that is cut at these places and whose actions never fall along a row, by where its
/// actions begin, by what they may ask for and by the contents of its rows: each action changes just the rows that it
/// asks for, and gives on what a take found just where it has counted something. Err where memory runs out.
pub fn judge_moves(
    alloc: Global,
    cuts: &[CutPhase],
    report: &ReportParts,
    actions: &Versions,
    orders: &Orders,
    shelf: &Shelf,
) -> Result<MovesRule, NoMemory>
    ensures { (case : Case) → (found : Findings) → case.report ≡ report.now
        → found.blocks ≡ phases_by cuts.now report.now.phases → KeepBefore rules.Moves case found
        → NeverFall (deeds_of (entries_of found)) → AreFoundIn case found actions.now
        → AreOrdersIn case found orders.now → IsShelfIn case found shelf.now
        → IfOk result (IsMovesJudged case found shelf.now) }
{
    pfs_law_made::laws::kept();
    pfs_law_acted::laws::acted();
    pfs_law_acted::laws::idle();
    let printed = collect_moves(alloc, cuts, report)?;
    let entries = &orders.entries;
    let line = first_fault(
        alloc,
        shelf,
        &printed,
        actions,
        entries,
        orders.orders.as_slice(),
    )?;
    match line {
        None => Ok(MovesRule::Kept),
        Some(line) => Ok(MovesRule::Wrong(line)),
    }
}

fn lower_of(fall: u64, line: Option<u64>) -> u64
    ensures { result ≡ lower_of fall line }
{
    match line {
        Some(line) => if line <= fall { line } else { fall },
        None => fall,
    }
}

/// Tells the first line at which the eighth rule fails, of a report whose first deed that falls along a row stands on
/// this one, and of whose rows all versions are made and kept: the lower of it and of the first line at which an action
/// doesn't change what it asks for. Err where memory runs out.
pub fn judge_fallen(
    alloc: Global,
    cuts: &[CutPhase],
    report: &ReportParts,
    actions: &Versions,
    orders: &Orders,
    shelf: &Shelf,
    fall: u64,
) -> Result<u64, NoMemory>
    ensures { (case : Case) → (found : Findings) → case.report ≡ report.now
        → found.blocks ≡ phases_by cuts.now report.now.phases → KeepBefore rules.Moves case found
        → AreFoundIn case found actions.now → AreOrdersIn case found orders.now
        → IsKeptAsMade (given_in case found) (entries_of found) shelf.now
        → IsFirstLacking case.report (NeverFallsAt (entries_of found)) (entries_of found) fall
        → IfOk result (IsFirstFault rules.Moves case found) }
{
    let printed = collect_moves(alloc, cuts, report)?;
    let entries = &orders.entries;
    let line = first_fault(
        alloc,
        shelf,
        &printed,
        actions,
        entries,
        orders.orders.as_slice(),
    )?;
    Ok(lower_of(fall, line))
}
