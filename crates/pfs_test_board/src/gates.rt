//! A gate of a session's lines, on one thread.

ghost use Rattle.std.specs.Prelude.{◌≡◌, ◌≤◌, ◌==◌, IfOk, if◌then◌else◌, length};
ghost use Rattle.pfs_admin.specs.declared.changes.Change.TheVariants.{Connect as Connects, Quit};
ghost use Rattle.pfs_board_opening.specs.Opened.{AreFresh};
ghost use Rattle.pfs_session.specs.SessionStates.{fresh};
ghost use Rattle.pfs_test_board.specs.TestBlocks.{quiet_block};

use crate::asserts::same;
use crate::tables::{session, setting};
use pfs_blocks::play_block;
use pfs_board::NoMemory;
use pfs_board_opening::{Picked, Run, RunWords, Tables, open_tables, open_words};
use pfs_board_session::Gate;
use pfs_board_store::Seats;
use pfs_classes::Setting;
use pfs_names::NameId;
use pfs_script::{Block, BlockLine, BlockLineList, Connect};
use pfs_session::Session;
use std::alloc::Global;
use std::marker::Brand;
use std::sync::Wait;
use std::sync::atomic::{AtomicU64, Ordering};
use std::test::Fail;

const SESSION: u64 = 7;

// How often it was asked, and how often with another session, or with another number than that of this asking.
#[derive(Drop)]
struct Counting {
    asked: AtomicU64,
    wrong: AtomicU64,
}

impl Gate for Counting {
    fn pass<R: Wait>(&self, rt: &R, session: u64, line: u64) {
        let _ = rt;
        let before = self.asked.fetch_add(1, Ordering::SeqCst);
        if session != SESSION || line != before.wrapping_add(1) {
            self.wrong.fetch_add(1, Ordering::SeqCst);
        }
    }
}

// The session connects, lets one picosecond pass three times, and quits.
fn block(alloc: Global) -> Result<Block, NoMemory>
    ensures { IfOk result (λ block. block ≡ quiet_block) }
{
    let lines = vec![in alloc;
        BlockLine::Repeat(3),
        BlockLine::Spend(1),
        BlockLine::Done,
        BlockLine::Quit,
    ]?;
    Ok(Block {
        session: SESSION,
        connect: Some(Connect {
            user: NameId(0),
            host: NameId(1),
        }),
        lines: BlockLineList::new(lines),
    })
}

// It does so over an actor of a new board, whose lines stand before this gate.
fn play_before_a_gate<P: Picked, R: Wait, G: Gate>(
    rt: &R,
    gate: &G,
    alloc: Global,
    setting: &Setting,
    words: RunWords,
    session: Session,
) -> Result<(), NoMemory>
    requires run { (P.setting ≡ setting.now) × (words.switches.id ≡ P.switches) }
    requires fresh { AreFresh setting.now words.switches words.seat words.writer }
    requires changes { P.change ≡ (λ label. if label.line == 1 then Connects 0 1 else Quit) }
    requires names { 2 ≤ length setting.now.names }
    requires state { session.state ≡ fresh 7 10 1 }
    requires room { 1000 ≤ session.journal.room }
{
    let block = block(alloc)?;
    let mut answers = Vec::new(alloc);
    let (tables, seats): (Tables<Run<P>>, Seats) = open_tables(alloc, setting, words)?;
    let mut root = tables.begin(seats);
    let mut actor = root.split(rt, gate, 1_000, 50);
    play_block(alloc, setting, session, &mut actor, &mut answers, &block)?;
    Ok(())
}

// The block's `session` line is the first, the repeated line the second to the fourth, and the quit the fifth. No other
// line is asked for, and none twice.
#[test]
fn a_gate_is_asked_before_each_line(rt: HostRuntime) -> Result<(), Fail> {
    let alloc = rt.alloc();
    let setting = setting(alloc, b"phase\nsession 7 u h\n")?;
    let words = open_words(alloc, &setting)?;
    let session = session(alloc, SESSION, 1_000)?;
    let gate = Counting {
        asked: AtomicU64::new(0),
        wrong: AtomicU64::new(0),
    };
    play_before_a_gate::<Brand, HostRuntime, Counting>(
        &rt, &gate, alloc, &setting, words, session,
    )?;
    let asked = gate.asked.load(Ordering::SeqCst);
    let wrong = gate.wrong.load(Ordering::SeqCst);
    same(&rt, "asked, and wrong", (asked, wrong), (5, 0));
    Ok(())
}
