//! The sessions of a run between their blocks.

ghost use Rattle.std.specs.Prelude.{◌≡◌, ◌<◌, ◌≤◌, ◌-◌, ◌^◌, ◌==◌, filter, IfOk, OnOk, None, Some, length, replicate, slice_set};
ghost use Rattle.pfs_law_script.specs.PlayableBlocks.{lines_among};
ghost use Rattle.pfs_script.specs.declared.blocks.Block.{Block as Said};
ghost use Rattle.pfs_seats.specs.Seats.{GoesOn, depth_of, seat_of};

use crate::NoMemory;
use pfs_classes::Setting;
use pfs_script::{Block, Phase};
use pfs_session::{Paused, Session};
use std::alloc::Global;

/// How many sessions a script may have.
const SESSIONS: usize = 64;

/// The seats before the first block: none is taken.
pub fn empty_seats(alloc: Global) -> Result<Vec<Option<Paused>>, NoMemory>
    ensures { IfOk result (λ seats. seats.items ≡ replicate 64 None) }
{
    let mut seats = Vec::with_capacity(alloc, SESSIONS)?;
    for _ in 0..SESSIONS {
        seats.push(None)?;
    }
    Ok(seats)
}

/// Takes the session of this number from its seat, to go on with it; one that has no seat yet begins, with room for as
/// many open events as its blocks have lines.
pub fn take_seat(
    alloc: Global,
    setting: &Setting,
    phases: &[Phase],
    seats: &mut Vec<Option<Paused>>,
    number: u64,
) -> Result<Session, NoMemory>
    requires low { 1 ≤ number }
    requires high { number ≤ 64 }
    requires wide { length seats.old.items ≡ 64 }
    requires few { depth_of phases.now number < 2 ^ 32 }
    ensures session { IfOk result (λ session. GoesOn (seat_of seats.old.items number) number
        setting.now.limits.statement_stack (depth_of phases.now number) session) }
    ensures seats { OnOk result (seats.new.items ≡ slice_set seats.old.items (number - 1) None) }
{
    match seats[number as usize - 1].take() {
        Some(paused) => Ok(paused.resume()),
        None => Session::open(
            alloc,
            number,
            setting.limits.statement_stack,
            lines_of(phases, number),
        ),
    }
}

/// Keeps the session of this number in its seat until its next block.
pub fn keep_seat(seats: &mut Vec<Option<Paused>>, number: u64, paused: Paused)
    requires low { 1 ≤ number }
    requires high { number ≤ 64 }
    requires wide { length seats.old.items ≡ 64 }
    ensures { seats.new.items ≡ slice_set seats.old.items (number - 1) (Some paused) }
{
    seats[number as usize - 1] = Some(paused);
}

// How many lines the blocks of a session have.
fn lines_of(phases: &[Phase], number: u64) -> u64
    requires few { depth_of phases.now number < 2 ^ 32 }
    ensures { result ≡ depth_of phases.now number }
{
    let mut lines = 0;
    for phase in phases {
        lines += lines_in(phase.blocks.as_slice(), number);
    }
    lines
}

// The same of these blocks.
fn lines_in(blocks: &[Block], number: u64) -> u64
    requires few { lines_among (filter (λ (block : Said). block.session == number) blocks.now) < 2 ^ 32 }
    ensures { result ≡ lines_among (filter (λ (block : Said). block.session == number) blocks.now) }
{
    let mut lines = 0;
    for block in blocks {
        if block.session == number {
            lines += block.lines.as_slice().len() as u64;
        }
    }
    lines
}
