//! The sessions of a phase, from their seats.

ghost use Rattle.std.specs.Prelude.{◌≡◌, ◌<◌, ◌^◌, ℕ, All, IfOk, OnOk, length};
ghost use Rattle.pfs_seats.specs.Seats.{depth_of};
ghost use Rattle.pfs_board_phase.specs.PhaseResults.{HasSeat};
ghost use Rattle.pfs_board_phase.specs.TakenSeats.{AreTaken, emptied};

use crate::NoMemory;
use pfs_classes::Setting;
use pfs_script::{Block, Phase};
use pfs_seats::take_seat;
use pfs_session::{Paused, Session};
use std::alloc::Global;

// The sessions of these blocks, each taken from its seat, in the blocks' order.
pub(crate) fn take_sessions(
    alloc: Global,
    setting: &Setting,
    phases: &[Phase],
    seats: &mut Vec<Option<Paused>>,
    blocks: &[Block],
) -> Result<Vec<Session>, NoMemory>
    requires wide { length seats.old.items ≡ 64 }
    requires seats { All HasSeat blocks.now }
    requires few { (session : ℕ) → depth_of phases.now session < 2 ^ 32 }
    ensures sessions { IfOk result (λ sessions. AreTaken setting.now.limits.statement_stack phases.now seats.old.items
        blocks.now sessions.items) }
    ensures seats { OnOk result (seats.new.items ≡ emptied seats.old.items blocks.now) }
{
    let mut sessions = Vec::new(alloc);
    for block in blocks {
        let session = take_seat(alloc, setting, phases, seats, block.session)?;
        sessions.push(session)?;
    }
    Ok(sessions)
}
