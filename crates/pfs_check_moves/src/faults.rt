//! The first line at which an action's changes aren't those that it asks for.

ghost use Rattle.std.specs.Prelude.{ℕ, suc, ◌≡◌, ◌+◌, ◌<◌, ◌≤◌, List, length, IfOk, Vec};
ghost use Rattle.std.specs.BTreeMap.{BTreeMap};
ghost use Rattle.std.specs.declared.alloc.Global.{Global};
ghost use Rattle.pfs_event.specs.declared.entry.Entry.{Entry};
ghost use Rattle.pfs_journal.specs.declared.report.ReportParts.{ReportParts};
ghost use Rattle.pfs_model.specs.ActionAsks.{Asked};
ghost use Rattle.pfs_model.specs.Chains.{action_change, each_of};
ghost use Rattle.pfs_model.specs.Contents.{Given};
ghost use Rattle.pfs_model.specs.EntryPlaces.{Placed};
ghost use Rattle.pfs_check_contents.specs.declared.shelf.Shelf.{Shelf};
ghost use Rattle.pfs_check_orders.specs.ActionOrders.{entries_in};
ghost use Rattle.pfs_check_moves.specs.AskedMoves.{AreOrdered, IsOrdered};
ghost use Rattle.pfs_check_moves.specs.DueMoves.{IsFirstMiss, due_of};
ghost use Rattle.pfs_check_moves.specs.FoundTakes.{counted_by};
ghost use Rattle.pfs_check_moves.specs.MovesRules.{AreActionsMoved, FailsAt, IsActionMoved, KnowsMoves, lower_line};

use crate::NoMemory;
use crate::comparing::first_miss;
use crate::dues::due_moves;
use crate::finds::find_takes;
use crate::printed::PrintedMoves;
use pfs_check_contents::Shelf;
use pfs_check_line_numbers::behind;
use pfs_check_orders::Order;
use pfs_check_versions::Versions;
use pfs_event::{Entry, Log};
use pfs_model::Change;
use std::alloc::Global;

// The first place at which an action's changes aren't those that it asks for.
fn miss_of(
    alloc: Global,
    shelf: &Shelf,
    printed: &[Entry],
    entries: &Log,
    order: Order,
) -> Result<Option<usize>, NoMemory>
    ensures { order.end ≤ length entries.now.entries
        → IfOk result (IsFirstMiss shelf.now (counted_by shelf.now printed.now)
        (due_of (counted_by shelf.now printed.now) (entries_in entries.now.entries order)) printed.now) }
{
    let found = find_takes(alloc, shelf, printed)?;
    let due = due_moves(alloc, &found, entries, order)?;
    Ok(first_miss(shelf, &found, due.as_slice(), printed))
}

// The line of the change at a place, where its action begins on this one.
fn move_line(begins: u64, at: usize) -> Result<u64, NoMemory>
    ensures { IfOk result (λ line. line ≡ begins + 1 + at) }
{
    let first = behind(begins, 1)?;
    let line = behind(first, at as u64)?;
    Ok(line)
}

// The line of the first change of an action that isn't as it is due, at this place among its changes.
fn fault_at(actions: &Versions, number: u64, at: usize) -> Result<Option<u64>, NoMemory>
    ensures { (report : ReportParts) → (given : Given) → (shelf : Shelf) → (asked : ℕ → Asked) → (all : List Placed)
        → (printed : BTreeMap ℕ (Vec Entry Global)) → KnowsMoves report given shelf all printed actions.now
        → 0 < number → number ≤ length (each_of action_change all) → FailsAt given asked all number at
        → IfOk result (IsActionMoved report given shelf asked all number) }
{
    let begins = Change {
        row: 0,
        version: number,
    };
    match actions.find(begins) {
        Some(made) => {
            let line = move_line(made.line, at)?;
            Ok(Some(line))
        }
        None => Ok(None),
    }
}

// The first line at which the changes of an action fail.
fn fault_of(
    alloc: Global,
    shelf: &Shelf,
    printed: &PrintedMoves,
    actions: &Versions,
    entries: &Log,
    order: Order,
    number: u64,
) -> Result<Option<u64>, NoMemory>
    ensures { (report : ReportParts) → (given : Given) → (asked : ℕ → Asked) → (all : List Placed) → (before : ℕ)
        → KnowsMoves report given shelf.now all printed.now.kept actions.now → number ≡ suc before
        → number ≤ length (each_of action_change all) → IsOrdered asked entries.now.entries order before
        → IfOk result (IsActionMoved report given shelf.now asked all number) }
{
    let miss = miss_of(alloc, shelf, printed.of(number), entries, order)?;
    match miss {
        Some(at) => fault_at(actions, number, at),
        None => Ok(None),
    }
}

fn lower_line(one: Option<u64>, other: Option<u64>) -> Option<u64>
    ensures { result ≡ lower_line one other }
{
    let Some(first) = one else {
        return other;
    };
    match other {
        Some(second) => Some(if first <= second { first } else { second }),
        None => Some(first),
    }
}

/// The first line at which the changes of some action fail, where these are the orders of all; None where each action
/// changes what it asks for. Err where memory runs out.
pub(crate) fn first_fault(
    alloc: Global,
    shelf: &Shelf,
    printed: &PrintedMoves,
    actions: &Versions,
    entries: &Log,
    orders: &[Order],
) -> Result<Option<u64>, NoMemory>
    ensures { (report : ReportParts) → (given : Given) → (asked : ℕ → Asked) → (all : List Placed)
        → KnowsMoves report given shelf.now all printed.now.kept actions.now
        → AreOrdered asked all entries.now.entries orders.now
        → IfOk result (AreActionsMoved report given shelf.now asked all (length orders.now)) }
{
    let mut line = None;
    for before in 0..orders.len() {
        let order = &orders[before];
        let number = (before + 1) as u64;
        let next = fault_of(alloc, shelf, printed, actions, entries, *order, number)?;
        line = lower_line(line, next);
    }
    Ok(line)
}
