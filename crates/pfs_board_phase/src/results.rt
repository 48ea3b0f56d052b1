//! What the sessions of a phase left.

ghost use Rattle.std.specs.Prelude.{◌≡◌, ◌-◌, [], ◌∷◌, Some, IfOk, OnOk, length, map, slice_set};
ghost use Rattle.pfs_model.specs.Chains.{Each};
ghost use Rattle.pfs_script.specs.KnownClasses.{AreDistinct};
ghost use Rattle.pfs_script.specs.declared.blocks.Block.{Block as Said};
ghost use Rattle.pfs_board_phase.specs.PhaseResults.{AreCounted, AreFew, AreKept, AreReported, HasSeat, handed_out, report_of};

use crate::NoMemory;
use pfs_board_run::Ran;
use pfs_journal::{AnswerList, BlockReport, EntryList};
use pfs_law_report::{LostEvents, count_lost};
use pfs_script::Block;
use pfs_seats::keep_seat;
use pfs_session::Paused;
use std::alloc::Global;

/// What is told of a phase's blocks, and what was lost of all events so far.
pub(crate) struct Told {
    pub(crate) blocks: Vec<BlockReport>,
    pub(crate) lost: LostEvents,
}

/// Reports the blocks, each with what its session left, keeps the sessions in their seats, and counts what was lost of
/// their events.
pub(crate) fn keep_results(
    alloc: Global,
    blocks: &[Block],
    rans: Vec<Ran>,
    seats: &mut Vec<Option<Paused>>,
    lost: LostEvents,
) -> Result<Told, NoMemory>
    requires wide { length seats.old.items ≡ 64 }
    requires seats { Each HasSeat blocks.now }
    requires apart { AreDistinct (map (λ (block : Said). block.session) blocks.now) }
    requires each { length rans.items ≡ length blocks.now }
    requires few { AreFew rans.items lost }
    ensures told { IfOk result (λ told. AreReported blocks.now rans.items told.blocks.items) }
    ensures counted { IfOk result (λ told. AreCounted rans.items lost told.lost) }
    ensures kept { OnOk result (AreKept blocks.now rans.items seats.old.items seats.new.items) }
{
    let mut told = Vec::with_capacity(alloc, blocks.len())?;
    let mut lost = lost;
    let mut rans = rans.into_iter();
    for block in blocks {
        match rans.next() {
            Some(ran) => {
                let report = keep_result(block, ran, seats, &mut lost);
                told.push_reserved(report);
            }
            None => unreachable!(),
        }
    }
    Ok(Told { blocks: told, lost })
}

// The same of one block.
fn keep_result(
    block: &Block,
    ran: Ran,
    seats: &mut Vec<Option<Paused>>,
    lost: &mut LostEvents,
) -> BlockReport
    requires wide { length seats.old.items ≡ 64 }
    requires seat { HasSeat block.now }
    requires few { AreFew (ran ∷ []) lost.old }
    ensures told { result ≡ report_of block.now ran }
    ensures counted { AreCounted (ran ∷ []) lost.old lost.new }
    ensures kept { seats.new.items ≡ slice_set seats.old.items (block.now.session - 1) (Some (handed_out ran.paused)) }
{
    let Ran { paused, answers } = ran;
    let mut paused = paused;
    let log = paused.take_log();
    keep_seat(seats, block.session, paused);
    *lost = count_lost(&log, *lost);
    BlockReport {
        session: block.session,
        entries: EntryList::new(log),
        answers: AnswerList::new(answers),
    }
}
