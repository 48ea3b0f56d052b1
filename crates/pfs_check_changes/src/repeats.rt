//! The administration lines of a block, each repeat written out.

ghost use Rattle.std.specs.Prelude.{◌≡◌, ◌++◌, ◌∷◌, List, OnOk, IfOk, take, drop};
ghost use Rattle.std.specs.List.{flat_map};
ghost use Rattle.pfs_admin.specs.declared.changes.Change.{Change};
ghost use Rattle.pfs_script.specs.declared.blocks.BlockLine.{BlockLine};
ghost use Rattle.pfs_script.specs.Marks.{copies, is_done, repeats_of, written_out};
ghost use Rattle.pfs_runs.specs.ScriptLines.{changes_on};
ghost use Rattle.pfs_check_changes.specs.ActionNumbers.{Grows, StandFor};
ghost use Rattle.pfs_check_changes.specs.WrittenActions.{IsWrittenBy};

use crate::NoMemory;
use crate::actions::put_action;
use crate::changes::change_of;
use pfs_admin::Change;
use pfs_script::BlockLine;
use std::alloc::Global;

/// A repeat that isn't done: how often its lines run, and where its administration lines begin.
#[derive(Clone, Copy, Debug, PartialEq, Eq)]
pub(crate) struct Repeat {
    pub times: u64,
    pub start: usize,
}

// How often the lines run that begin behind this one, where it begins a repeat.
fn times_of(said: &BlockLine) -> Option<u64>
    ensures { result ≡ repeats_of said.now }
{
    match said {
        BlockLine::Repeat(times) => Some(*times),
        _ => None,
    }
}

fn is_done(said: &BlockLine) -> bool
    ensures { result ≡ is_done said.now }
{
    matches!(said, BlockLine::Done)
}

// A line, where it is an action.
fn put_line(
    alloc: Global,
    changes: &mut Vec<Change>,
    numbers: &mut Vec<usize>,
    said: &BlockLine,
) -> Result<(), NoMemory>
    ensures own { OnOk result ((made : List Change) → StandFor changes.old.items numbers.old.items made
        → StandFor changes.new.items numbers.new.items (made ++ changes_on said.now)) }
    ensures grows { OnOk result (Grows changes.old.items changes.new.items) }
{
    let change = change_of(alloc, said)?;
    put_action(changes, numbers, change)
}

// The numbers from a place on, so many times in place of once.
fn put_copies(
    alloc: Global,
    numbers: &mut Vec<usize>,
    start: usize,
    times: u64,
) -> Result<(), NoMemory>
    ensures { OnOk result (numbers.new.items
        ≡ take start numbers.old.items ++ copies times (drop start numbers.old.items)) }
{
    let all = numbers.as_slice();
    // Empty rounds change nothing, and there may be up to 2^64 - 1 of them.
    if start >= all.len() {
        return Ok(());
    }
    let body = Vec::from_slice(alloc, &all[start..])?;
    numbers.truncate(start);
    let again = body.as_slice();
    for round in 0..times {
        let _ = round;
        numbers.extend_from_slice(again)?;
    }
    Ok(())
}

// A line outside of repeats.
fn put_outside(
    alloc: Global,
    changes: &mut Vec<Change>,
    numbers: &mut Vec<usize>,
    said: &BlockLine,
) -> Result<Option<Repeat>, NoMemory>
    ensures own { (whole : List Change) → (rest : List BlockLine)
        → IsWrittenBy whole None changes.old.items numbers.old.items (said.now ∷ rest)
        → IfOk result (λ repeat. IsWrittenBy whole repeat changes.new.items numbers.new.items rest) }
    ensures grows { IfOk result (λ repeat. Grows changes.old.items changes.new.items) }
{
    match times_of(said) {
        Some(times) => Ok(Some(Repeat {
            times,
            start: numbers.as_slice().len(),
        })),
        None => {
            put_line(alloc, changes, numbers, said)?;
            Ok(None)
        }
    }
}

// A line inside a repeat.
fn put_inside(
    alloc: Global,
    changes: &mut Vec<Change>,
    numbers: &mut Vec<usize>,
    repeat: Repeat,
    said: &BlockLine,
) -> Result<Option<Repeat>, NoMemory>
    ensures own { (whole : List Change) → (rest : List BlockLine)
        → IsWrittenBy whole (Some repeat) changes.old.items numbers.old.items (said.now ∷ rest)
        → IfOk result (λ repeat. IsWrittenBy whole repeat changes.new.items numbers.new.items rest) }
    ensures grows { IfOk result (λ repeat. Grows changes.old.items changes.new.items) }
{
    if is_done(said) {
        put_copies(alloc, numbers, repeat.start, repeat.times)?;
        return Ok(None);
    }
    put_line(alloc, changes, numbers, said)?;
    Ok(Some(repeat))
}

fn put_next(
    alloc: Global,
    changes: &mut Vec<Change>,
    numbers: &mut Vec<usize>,
    repeat: Option<Repeat>,
    said: &BlockLine,
) -> Result<Option<Repeat>, NoMemory>
    ensures own { (whole : List Change) → (rest : List BlockLine)
        → IsWrittenBy whole repeat changes.old.items numbers.old.items (said.now ∷ rest)
        → IfOk result (λ repeat. IsWrittenBy whole repeat changes.new.items numbers.new.items rest) }
    ensures grows { IfOk result (λ repeat. Grows changes.old.items changes.new.items) }
{
    match repeat {
        None => put_outside(alloc, changes, numbers, said),
        Some(repeat) => put_inside(alloc, changes, numbers, repeat, said),
    }
}

/// The administration lines of a block behind others, each repeat written out; those of a repeat that isn't done stand
/// once. Err is NoMemory alone.
pub(crate) fn put_written(
    alloc: Global,
    changes: &mut Vec<Change>,
    numbers: &mut Vec<usize>,
    said: &[BlockLine],
) -> Result<(), NoMemory>
    ensures own { OnOk result ((made : List Change) → StandFor changes.old.items numbers.old.items made
        → StandFor changes.new.items numbers.new.items (made ++ flat_map changes_on (written_out said.now))) }
    ensures grows { OnOk result (Grows changes.old.items changes.new.items) }
{
    let mut repeat = None;
    for line in said {
        repeat = put_next(alloc, changes, numbers, repeat, line)?;
    }
    Ok(())
}
