//! The lines at which events open or close.

ghost use Rattle.std.specs.Prelude.{◌≡◌, ◌++◌, ◌∷◌, [], List, OnOk};
ghost use Rattle.pfs_script.specs.Events.{numbers_on, time_of};
ghost use Rattle.pfs_script.specs.declared.blocks.BlockLine.{BlockLine};
ghost use Rattle.pfs_check_facts.specs.Moments.{IsCourseOf, moment_with, turn_on};

use crate::NoMemory;
use pfs_event::EventKind;
use pfs_script::{BlockLine, StatementNumbers};
use std::alloc::Global;

/// What a line does to events.
#[derive(Clone, Copy, Debug, PartialEq, Eq)]
pub(crate) enum Turn {
    /// It opens one; a stage ends the stage that is open.
    Opens(EventKind),
    /// It ends the innermost, and its statement too where that is a stage.
    Ends,
    /// It ends the open stage.
    EndsStage,
}

/// A line that opens or ends events: the session's clock there, and the numbers that stand on it.
#[derive(Clone, Copy, Debug, PartialEq, Eq)]
pub(crate) struct Moment {
    pub turn: Turn,
    pub clock: u64,
    pub numbers: StatementNumbers,
}

fn turn_on(said: &BlockLine) -> Option<Turn>
    ensures { result ≡ turn_on said.now }
{
    match said {
        BlockLine::Wait(_) | BlockLine::TableWait { .. } => Some(Turn::Opens(EventKind::Wait)),
        BlockLine::Statement { .. } => Some(Turn::Opens(EventKind::Statement)),
        BlockLine::Transaction(_) => Some(Turn::Opens(EventKind::Transaction)),
        BlockLine::Stage(_) => Some(Turn::Opens(EventKind::Stage)),
        BlockLine::StageEnd => Some(Turn::EndsStage),
        BlockLine::End | BlockLine::EndStatement(_) => Some(Turn::Ends),
        BlockLine::Spend(_)
        | BlockLine::Sql(_)
        | BlockLine::Quit
        | BlockLine::Repeat(_)
        | BlockLine::Done => None,
    }
}

fn numbers_on(said: &BlockLine) -> StatementNumbers
    ensures { result ≡ numbers_on said.now }
{
    match said {
        BlockLine::EndStatement(numbers) => *numbers,
        _ => StatementNumbers {
            lock: 0,
            errors: 0,
            warnings: 0,
            affected: 0,
            sent: 0,
            examined: 0,
        },
    }
}

fn time_of(said: &BlockLine) -> u64
    ensures { result ≡ time_of said.now }
{
    match said {
        BlockLine::Spend(time) => *time,
        _ => 0,
    }
}

// The line, where it opens or ends events, behind the others.
fn put_moment(moments: &mut Vec<Moment>, clock: u64, said: &BlockLine) -> Result<(), NoMemory>
    ensures { OnOk result (moments.new.items ≡ moments.old.items ++ moment_with clock said.now (turn_on said.now)) }
{
    match turn_on(said) {
        Some(turn) => {
            moments.push(Moment {
                turn,
                clock,
                numbers: numbers_on(said),
            })?;
            Ok(())
        }
        None => Ok(()),
    }
}

/// How far a session has come: its clock, and the lines so far at which events open or end.
#[derive(Drop)]
pub(crate) struct Course {
    pub clock: u64,
    pub moments: Vec<Moment>,
}

impl Course {
    /// Of a session that has done nothing. It takes no memory.
    pub(crate) fn new(alloc: Global) -> Course
        ensures { IsCourseOf [] result }
    {
        Course {
            clock: 0,
            moments: Vec::new(alloc),
        }
    }

    /// One line more.
    pub(crate) fn follow(&mut self, said: &BlockLine) -> Result<(), NoMemory>
        ensures { (lines : List BlockLine) → IsCourseOf lines self.old
            → OnOk result (IsCourseOf (lines ++ said.now ∷ []) self.new) }
    {
        put_moment(&mut self.moments, self.clock, said)?;
        self.clock = self.clock.wrapping_add(time_of(said));
        Ok(())
    }
}
