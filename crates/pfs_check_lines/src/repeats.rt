//! Lines of a block with each repeat written out.

ghost use Rattle.std.specs.Prelude.{◌≡◌, ◌++◌, ◌∷◌, [], List, OnOk, IfOk, map, take, drop};
ghost use Rattle.pfs_model.specs.declared.lines.Line.{Line};
ghost use Rattle.pfs_script.specs.declared.blocks.BlockLine.{BlockLine};
ghost use Rattle.pfs_script.specs.Marks.{copies, is_done, repeats_of, written_out};
ghost use Rattle.pfs_runs.specs.ScriptLines.{line_in};
ghost use Rattle.pfs_check_lines.specs.WrittenLines.{IsWritten};

use crate::NoMemory;
use crate::block_lines::line_in;
use pfs_model::Line;
use pfs_script::BlockLine;
use std::alloc::Global;

/// A repeat that isn't done: how often its lines run, and where they begin among those that are written out.
#[derive(Clone, Copy, Debug, PartialEq, Eq)]
pub(crate) struct Repeat {
    pub times: u64,
    pub start: usize,
}

// How often the lines run that begin behind this one, where it begins a repeat.
fn times_of(said: &BlockLine) -> Option<u64>
    ensures { result ≡ repeats_of said.now }
{
    match said {
        BlockLine::Repeat(times) => Some(*times),
        _ => None,
    }
}

fn is_done(said: &BlockLine) -> bool
    ensures { result ≡ is_done said.now }
{
    matches!(said, BlockLine::Done)
}

fn put_line(alloc: Global, lines: &mut Vec<Line>, said: &BlockLine) -> Result<(), NoMemory>
    ensures { OnOk result (lines.new.items ≡ lines.old.items ++ line_in said.now ∷ []) }
{
    let line = line_in(alloc, said)?;
    lines.push(line)?;
    Ok(())
}

// The lines from a place on, so many times in place of once.
fn put_copies(
    alloc: Global,
    lines: &mut Vec<Line>,
    start: usize,
    times: u64,
) -> Result<(), NoMemory>
    ensures { OnOk result (lines.new.items ≡ take start lines.old.items ++ copies times (drop start lines.old.items)) }
{
    let all = lines.as_slice();
    // Empty rounds change nothing, and there may be up to 2^64 - 1 of them.
    if start >= all.len() {
        return Ok(());
    }
    let body = Vec::from_slice(alloc, &all[start..])?;
    lines.truncate(start);
    let again = body.as_slice();
    for round in 0..times {
        let _ = round;
        lines.extend_from_slice(again)?;
    }
    Ok(())
}

// A line outside of repeats.
fn put_outside(
    alloc: Global,
    lines: &mut Vec<Line>,
    said: &BlockLine,
) -> Result<Option<Repeat>, NoMemory>
    ensures { (whole : List Line) → (rest : List BlockLine) → IsWritten whole None lines.old.items (said.now ∷ rest)
        → IfOk result (λ repeat. IsWritten whole repeat lines.new.items rest) }
{
    match times_of(said) {
        Some(times) => Ok(Some(Repeat {
            times,
            start: lines.as_slice().len(),
        })),
        None => {
            put_line(alloc, lines, said)?;
            Ok(None)
        }
    }
}

// A line inside a repeat.
fn put_inside(
    alloc: Global,
    lines: &mut Vec<Line>,
    repeat: Repeat,
    said: &BlockLine,
) -> Result<Option<Repeat>, NoMemory>
    ensures { (whole : List Line) → (rest : List BlockLine) → IsWritten whole (Some repeat) lines.old.items (said.now ∷ rest)
        → IfOk result (λ repeat. IsWritten whole repeat lines.new.items rest) }
{
    if is_done(said) {
        put_copies(alloc, lines, repeat.start, repeat.times)?;
        return Ok(None);
    }
    put_line(alloc, lines, said)?;
    Ok(Some(repeat))
}

fn put_next(
    alloc: Global,
    lines: &mut Vec<Line>,
    repeat: Option<Repeat>,
    said: &BlockLine,
) -> Result<Option<Repeat>, NoMemory>
    ensures { (whole : List Line) → (rest : List BlockLine) → IsWritten whole repeat lines.old.items (said.now ∷ rest)
        → IfOk result (λ repeat. IsWritten whole repeat lines.new.items rest) }
{
    match repeat {
        None => put_outside(alloc, lines, said),
        Some(repeat) => put_inside(alloc, lines, repeat, said),
    }
}

/// The lines behind others, each repeat written out; those of a repeat that isn't done stand once.
pub(crate) fn put_written(
    alloc: Global,
    lines: &mut Vec<Line>,
    said: &[BlockLine],
) -> Result<(), NoMemory>
    ensures { OnOk result (lines.new.items ≡ lines.old.items ++ map line_in (written_out said.now)) }
{
    let mut repeat = None;
    for line in said {
        repeat = put_next(alloc, lines, repeat, line)?;
    }
    Ok(())
}
