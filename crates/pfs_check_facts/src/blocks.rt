//! The lines of a block as a session follows them, each repeat written out.

ghost use Rattle.std.specs.Prelude.{◌≡◌, ◌+◌, ◌<◌, ◌++◌, List, length, OnOk, IfOk};
ghost use Rattle.pfs_script.specs.Marks.{copies, is_done, repeats_of, written_out};
ghost use Rattle.pfs_script.specs.declared.blocks.BlockLine.{BlockLine};
ghost use Rattle.pfs_check_facts.specs.Moments.{IsCourseOf};
ghost use Rattle.pfs_check_facts.specs.FollowedLines.{IsUpTo};

use crate::NoMemory;
use crate::moments::Course;
use pfs_script::BlockLine;

/// A repeat that isn't done: how often its lines run, and the place of the first of them.
#[derive(Clone, Copy, Debug, PartialEq, Eq)]
pub(crate) struct Repeat {
    pub times: u64,
    pub start: usize,
}

// How often the lines run that begin behind this one, where it begins a repeat.
fn times_of(said: &BlockLine) -> Option<u64>
    ensures { result ≡ repeats_of said.now }
{
    match said {
        BlockLine::Repeat(times) => Some(*times),
        _ => None,
    }
}

fn is_done(said: &BlockLine) -> bool
    ensures { result ≡ is_done said.now }
{
    matches!(said, BlockLine::Done)
}

// These lines, as they stand.
fn follow_all(course: &mut Course, said: &[BlockLine]) -> Result<(), NoMemory>
    ensures { (lines : List BlockLine) → IsCourseOf lines course.old
        → OnOk result (IsCourseOf (lines ++ said.now) course.new) }
{
    for line in said {
        course.follow(line)?;
    }
    Ok(())
}

// These lines so many times.
fn follow_times(course: &mut Course, said: &[BlockLine], times: u64) -> Result<(), NoMemory>
    ensures { (lines : List BlockLine) → IsCourseOf lines course.old
        → OnOk result (IsCourseOf (lines ++ copies times said.now) course.new) }
{
    // Empty rounds change nothing, and there may be up to 2^64 - 1 of them.
    if said.is_empty() {
        return Ok(());
    }
    for round in 0..times {
        let _ = round;
        follow_all(course, said)?;
    }
    Ok(())
}

// The line at a place, in a repeat or outside of one.
fn follow_next(
    course: &mut Course,
    said: &[BlockLine],
    place: usize,
    repeat: Option<Repeat>,
) -> Result<Option<Repeat>, NoMemory>
    requires { place < length said.now }
    ensures { (whole : List BlockLine) → IsUpTo said.now whole course.old place repeat
        → IfOk result (λ repeat. IsUpTo said.now whole course.new (place + 1) repeat) }
{
    let line = &said[place];
    match repeat {
        None => match times_of(line) {
            Some(times) => Ok(Some(Repeat {
                times,
                start: place + 1,
            })),
            None => {
                course.follow(line)?;
                Ok(None)
            }
        },
        Some(repeat) => {
            if is_done(line) {
                if repeat.start <= place {
                    follow_times(course, &said[repeat.start..place], repeat.times)?;
                }
                return Ok(None);
            }
            Ok(Some(repeat))
        }
    }
}

// Behind the last line of a block: those of a repeat that isn't done, once.
fn follow_rest(
    course: &mut Course,
    said: &[BlockLine],
    repeat: Option<Repeat>,
) -> Result<(), NoMemory>
    ensures { (whole : List BlockLine) → IsUpTo said.now whole course.old (length said.now) repeat
        → OnOk result (IsCourseOf whole course.new) }
{
    match repeat {
        Some(repeat) => {
            if repeat.start <= said.len() {
                follow_all(course, &said[repeat.start..])?;
            }
            Ok(())
        }
        None => Ok(()),
    }
}

/// All lines of a block, each repeat written out; those of a repeat that isn't done stand once.
pub(crate) fn follow_block(course: &mut Course, said: &[BlockLine]) -> Result<(), NoMemory>
    ensures { (lines : List BlockLine) → IsCourseOf lines course.old
        → OnOk result (IsCourseOf (lines ++ written_out said.now) course.new) }
{
    let mut repeat = None;
    for place in 0..said.len() {
        repeat = follow_next(course, said, place, repeat)?;
    }
    follow_rest(course, said, repeat)
}
