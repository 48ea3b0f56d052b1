//! The turns of changes, in which they are replayed.

ghost use Rattle.std.specs.Prelude.{◌≡◌, IfOk, map};
ghost use Rattle.pfs_check_turns.specs.declared.turns.Turn.{Turn};
ghost use Rattle.pfs_check_turns.specs.ReplayTurns.{AreAlong, AreInOrder, AreListed, IsOrderOf, later_test, next_turn, place_of, step_of};

use crate::NoMemory;
use pfs_check_contents::RowChange;
use std::alloc::Global;

/// A change, to be sorted along its row.
#[derive(Clone, Copy, Debug, PartialEq, Eq, PartialOrd, Ord)]
pub(crate) struct Step {
    pub row: u64,
    pub version: u64,
    pub action: u64,
    /// Its place among the changes.
    pub place: usize,
}

/// A change with its turn: that of the last change of its row, up to it, by the order of actions and places.
#[derive(Clone, Copy, Debug, PartialEq, Eq, PartialOrd, Ord)]
pub(crate) struct Turn {
    pub action: u64,
    /// The place of that change.
    pub at: usize,
    pub row: u64,
    pub version: u64,
    /// Its own place among the changes.
    pub place: usize,
}

fn step_of(place: usize, one: &RowChange) -> Step
    ensures { result ≡ step_of place one.now }
{
    Step {
        row: one.row,
        version: one.version,
        action: one.action,
        place,
    }
}

fn steps_of(alloc: Global, changes: &[RowChange]) -> Result<Vec<Step>, NoMemory>
    ensures { IfOk result (λ steps. AreListed changes.now steps.items) }
{
    let mut steps = Vec::new(alloc);
    for place in 0..changes.len() {
        steps.push(step_of(place, &changes[place]))?;
    }
    Ok(steps)
}

// Whether the last turn is later than a change's own place.
fn is_later(last: Turn, step: Step) -> bool
    ensures { result ≡ later_test last step }
{
    step.action < last.action || (step.action == last.action && step.place < last.at)
}

// The turn of a change, where that of the last one was this.
fn next_turn(last: Turn, step: Step) -> Turn
    ensures { result ≡ next_turn last step }
{
    let stays = last.row == step.row && is_later(last, step);
    let action = if stays { last.action } else { step.action };
    let at = if stays { last.at } else { step.place };
    Turn {
        action,
        at,
        row: step.row,
        version: step.version,
        place: step.place,
    }
}

// The turns of changes that are sorted along their rows.
fn turns_along(alloc: Global, steps: &[Step]) -> Result<Vec<Turn>, NoMemory>
    requires { AreInOrder steps.now }
    ensures { IfOk result (λ turns. AreAlong steps.now turns.items) }
{
    let mut turns = Vec::new(alloc);
    let mut last = Turn {
        action: 0,
        at: 0,
        row: 0,
        version: 0,
        place: 0,
    };
    for step in steps {
        last = next_turn(last, *step);
        turns.push(last)?;
    }
    Ok(turns)
}

fn places_of(alloc: Global, turns: &[Turn]) -> Result<Vec<usize>, NoMemory>
    ensures { IfOk result (λ places. places.items ≡ map place_of turns.now) }
{
    let mut places = Vec::new(alloc);
    for turn in turns {
        places.push(turn.place)?;
    }
    Ok(places)
}

/// The places of changes in the order in which they are replayed: that of the actions, and each action's in that of
/// their places; what no action made stands behind the change before it in its row. Err where memory runs out.
pub(crate) fn order_of(alloc: Global, changes: &[RowChange]) -> Result<Vec<usize>, NoMemory>
    ensures { IfOk result (λ order. IsOrderOf changes.now order.items) }
{
    let mut steps = steps_of(alloc, changes)?;
    steps.sort()?;
    let mut turns = turns_along(alloc, steps.as_slice())?;
    turns.sort()?;
    let order = places_of(alloc, turns.as_slice())?;
    Ok(order)
}
