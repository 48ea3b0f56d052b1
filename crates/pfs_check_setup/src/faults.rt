//! The first line at which an action's sets aren't those that are due.

ghost use Rattle.std.specs.Prelude.{ℕ, suc, ◌≡◌, ◌+◌, ◌<◌, ◌≤◌, List, length, map, IfOk, OnOk};
ghost use Rattle.pfs_journal.specs.declared.report.ReportParts.{ReportParts};
ghost use Rattle.pfs_model.specs.ActionAsks.{Asked, of_action};
ghost use Rattle.pfs_model.specs.Actions.{settings_of};
ghost use Rattle.pfs_model.specs.Chains.{action_change, each_of};
ghost use Rattle.pfs_model.specs.EntryPlaces.{Placed};
ghost use Rattle.pfs_check_faults.specs.ActionFaults.{sets_due};
ghost use Rattle.pfs_check_setup.specs.DueSets.{AreAskedFor, Differs};
ghost use Rattle.pfs_check_setup.specs.PrintedActions.{sets_in, setting_by};
ghost use Rattle.pfs_check_setup.specs.SetupRules.{AreActionsAsked, AreOrdered, IsActionAsked, IsOrdered, KnowsActions, lower_line};

use crate::NoMemory;
use crate::dues::{count_sets, due_sets};
use crate::printed::{PrintedActions, count_in, no_counts, one_more};
use crate::sets::{WordSet, first_difference};
use pfs_check_line_numbers::behind;
use pfs_check_orders::Order;
use pfs_check_versions::Versions;
use pfs_event::Log;
use pfs_model::Change;
use std::alloc::Global;
use std::collections::BTreeMap;

fn sets_of(printed: &PrintedActions, number: u64) -> &[WordSet]
    ensures { result.now ≡ sets_in printed.now.sets number }
{
    match printed.sets.get(&number) {
        Some(own) => own.as_slice(),
        None => &[],
    }
}

// The line of the set at a place, where its action begins on this one and has so many other changes.
fn set_line(begins: u64, changes: u64, at: usize) -> Result<u64, NoMemory>
    ensures { IfOk result (λ line. line ≡ begins + 1 + changes + at) }
{
    let first = behind(begins, 1)?;
    let next = behind(first, changes)?;
    let line = behind(next, at as u64)?;
    Ok(line)
}

// The line of the first set of an action that isn't as it is due, at this place among its sets.
fn fault_at(
    printed: &PrintedActions,
    actions: &Versions,
    number: u64,
    at: usize,
) -> Result<Option<u64>, NoMemory>
    ensures { (report : ReportParts) → (asked : ℕ → Asked) → (all : List Placed)
        → KnowsActions report all printed.now actions.now → 0 < number
        → number ≤ length (each_of action_change all)
        → Differs (sets_due asked number) (settings_of (of_action number all)) at
        → IfOk result (IsActionAsked report asked all number) }
{
    let begins = Change {
        row: 0,
        version: number,
    };
    match actions.find(begins) {
        Some(made) => {
            let line = set_line(made.line, count_in(&printed.changes, number), at)?;
            Ok(Some(line))
        }
        None => Ok(None),
    }
}

// The first line at which the sets of an action aren't these.
fn fault_of(
    printed: &PrintedActions,
    actions: &Versions,
    number: u64,
    due: &[WordSet],
) -> Result<Option<u64>, NoMemory>
    ensures { (report : ReportParts) → (asked : ℕ → Asked) → (all : List Placed)
        → KnowsActions report all printed.now actions.now → 0 < number
        → number ≤ length (each_of action_change all) → map (setting_by number) due.now ≡ sets_due asked number
        → IfOk result (IsActionAsked report asked all number) }
{
    match first_difference(due, sets_of(printed, number)) {
        Some(at) => fault_at(printed, actions, number, at),
        None => Ok(None),
    }
}

// One action more, behind so many.
fn ask_one(
    alloc: Global,
    counts: &mut BTreeMap<u64, u64>,
    printed: &PrintedActions,
    actions: &Versions,
    entries: &Log,
    order: Order,
    before: usize,
) -> Result<Option<u64>, NoMemory>
    ensures line { (report : ReportParts) → (asked : ℕ → Asked) → (all : List Placed)
        → KnowsActions report all printed.now actions.now → before < length (each_of action_change all)
        → IsOrdered asked entries.now.entries order before → AreAskedFor asked counts.old before
        → IfOk result (IsActionAsked report asked all (suc before)) }
    ensures counts { (asked : ℕ → Asked) → IsOrdered asked entries.now.entries order before
        → AreAskedFor asked counts.old before → OnOk result (AreAskedFor asked counts.new (suc before)) }
{
    let due = due_sets(alloc, counts, entries, order)?;
    let number = one_more(before as u64)?;
    let line = fault_of(printed, actions, number, due.as_slice())?;
    count_sets(counts, entries, order)?;
    Ok(line)
}

fn lower_line(one: Option<u64>, other: Option<u64>) -> Option<u64>
    ensures { result ≡ lower_line one other }
{
    let Some(first) = one else {
        return other;
    };
    match other {
        Some(second) => Some(if first <= second { first } else { second }),
        None => Some(first),
    }
}

/// The first line at which the sets of some action fail, where these are the orders of all; None where each action has
/// the sets that are due. Err where memory runs out.
pub(crate) fn first_fault(
    alloc: Global,
    printed: &PrintedActions,
    actions: &Versions,
    entries: &Log,
    orders: &[Order],
) -> Result<Option<u64>, NoMemory>
    ensures { (report : ReportParts) → (asked : ℕ → Asked) → (all : List Placed)
        → KnowsActions report all printed.now actions.now → AreOrdered asked all entries.now.entries orders.now
        → IfOk result (AreActionsAsked report asked all (length orders.now)) }
{
    let mut counts = no_counts(alloc);
    let mut line = None;
    for before in 0..orders.len() {
        let order = &orders[before];
        let next = ask_one(
            alloc,
            &mut counts,
            printed,
            actions,
            entries,
            *order,
            before,
        )?;
        line = lower_line(line, next);
    }
    Ok(line)
}
