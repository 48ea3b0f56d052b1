//! A session over an actor of a board, from its connect to its quit.

ghost use Rattle.std.specs.Prelude.{◌≡◌, ◌≤◌, ◌+◌, ◌<◌, ◌^◌, ◌==◌, [], ℕ, None, if◌then◌else◌, length};
ghost use Rattle.pfs_admin.specs.declared.changes.Change.TheVariants.{Connect, Quit, Truncate};
ghost use Rattle.pfs_board_opening.specs.Opened.{AreFresh};
ghost use Rattle.pfs_rows.specs.declared.table.SummaryTable.TheVariants.{ByThread};
ghost use Rattle.pfs_rows.specs.declared.table.TableKind.TheVariants.{Waits};
ghost use Rattle.pfs_rows.specs.declared.truncations.Truncation.TheVariants.{Summary};
ghost use Rattle.pfs_session.specs.SessionStates.{fresh};
ghost use Rattle.pfs_session.specs.Settlements.{owed_by_state};
ghost use Rattle.pfs_test_board.specs.TestActors.{IsBegun, Leads};

use crate::asserts::same;
use crate::tables::{session, setting, wait};
use pfs_actor::Actor;
use pfs_admin::{Lost, Truncation};
use pfs_board::NoMemory;
use pfs_board_opening::{Picked, Run, RunWords, Tables, open_tables, open_words};
use pfs_board_session::OpenGate;
use pfs_board_store::Seats;
use pfs_classes::Setting;
use pfs_event::EventKind;
use pfs_levels::Rows;
use pfs_model::Subject;
use pfs_names::NameId;
use pfs_rows::{Seen, SummaryTable, TableKind};
use pfs_session::{LastAction, Numbers, Session};
use pfs_stat::{Stat, zero};
use std::alloc::Global;
use std::marker::Brand;
use std::sync::Wait;
use std::test::Fail;

const SCRIPT: &[u8] = b"phase\nsession 1 u h\n";

const NONE: Lost = Lost {
    threads: 0,
    accounts: 0,
    users: 0,
    hosts: 0,
};

// Class 6 of the first thread.
const CELL: u64 = 135;

// The info row of the first thread, whose word is the first behind the consumers.
const THREAD: u64 = 1;

// What is seen of the session: its thread's word behind the connect, the row of its wait behind that, and behind the
// truncation; its thread's word and info row behind the quit; and its last action.
#[derive(Drop)]
struct Recorded {
    connected: (u64, u16),
    counted: Seen,
    emptied: Seen,
    gone: (u64, u16),
    thread: Seen,
    last: Option<LastAction>,
}

// A wait of class 6 of five picoseconds, of a session with nothing open.
fn record_wait<A: Rows>(actor: &mut A, session: &mut Session)
    requires closed { session.old.state.opened ≡ record { depth = 1; events = [] } }
    requires early { session.old.state.drawn + 1 < 2 ^ 64 }
    requires idle { (row : ℕ) → (A.seen actor.old).hand row ≡ None }
    requires left { 6 ≤ (A.seen actor.old).left }
    requires draws { 1 ≤ (A.seen actor.old).draws }
    requires room { 8 ≤ session.old.journal.room }
    ensures led { Leads (A.seen actor.old).reached (A.seen actor.new).reached }
    ensures rest { session.new.state ≡ record session.old.state {
      clock = session.new.state.clock;
      drawn = session.new.state.drawn;
      opened = session.new.state.opened;
      held = session.new.state.held;
      nexts = session.new.state.nexts;
    } }
    ensures closed { session.new.state.opened.events ≡ [] }
    ensures owed { length (owed_by_state session.new.state) ≤ length (owed_by_state session.old.state) + 2 }
    ensures left { (A.seen actor.old).left ≤ (A.seen actor.new).left + 6 }
    ensures room { session.old.journal.room ≤ session.new.journal.room + 8 }
{
    let binlog = Subject {
        kind: EventKind::Wait,
        class: Some(6),
        cell: 6,
        table: None,
        digest: None,
    };
    session.start(actor, &binlog);
    session.spend(5);
    session.end(actor, &Numbers::NONE);
}

// A session connects, waits for five picoseconds, truncates the threads' waits, quits and pauses.
fn record<A: Actor>(actor: &mut A, session: Session) -> Recorded
    requires connects { A.change (record { session = 1; line = 1 }) ≡ Connect 0 1 }
    requires truncates { A.change (record { session = 1; line = 2 }) ≡ Truncate (Summary Waits ByThread) }
    requires quits { A.change (record { session = 1; line = 3 }) ≡ Quit }
    requires names { 2 ≤ length A.setting.names }
    requires state { session.state ≡ fresh 1 10 1 }
    requires room { 20000 ≤ session.journal.room }
    requires begun { IsBegun (A.seen actor.old).reached }
    requires enough { (20000 ≤ (A.seen actor.old).left) × (2 ≤ (A.seen actor.old).draws) }
    ensures led { Leads (A.seen actor.old).reached (A.seen actor.new).reached }
{
    let mut session = session;
    actor.connect(&mut session, NameId(0), NameId(1));
    let connected = actor.load(THREAD);
    record_wait(actor, &mut session);
    let counted = actor.read(CELL);
    let what = Truncation::Summary(TableKind::Waits, SummaryTable::ByThread);
    actor.truncate(&mut session, what);
    let emptied = actor.read(CELL);
    actor.quit(&mut session);
    let gone = actor.load(THREAD);
    let thread = actor.read(THREAD);
    let last = actor.pause(session).last_action();
    Recorded {
        connected,
        counted,
        emptied,
        gone,
        thread,
        last,
    }
}

// The same over an actor of a new board, which the root takes in and settles.
fn record_on_a_board<P: Picked, R: Wait>(
    rt: &R,
    alloc: Global,
    setting: &Setting,
    words: RunWords,
    session: Session,
) -> Result<(Recorded, Lost), NoMemory>
    requires run { (P.setting ≡ setting.now) × (words.switches.id ≡ P.switches) }
    requires fresh { AreFresh setting.now words.switches words.seat words.writer }
    requires changes { P.change ≡ (λ label. if label.line == 1 then Connect 0 1 else if label.line == 2 then Truncate
        (Summary Waits ByThread) else Quit) }
    requires names { 2 ≤ length setting.now.names }
    requires state { session.state ≡ fresh 1 10 1 }
    requires room { 20000 ≤ session.journal.room }
{
    let gate = OpenGate;
    let (tables, seats): (Tables<Run<P>>, Seats) = open_tables(alloc, setting, words)?;
    let mut root = tables.begin(seats);
    let mut actor = root.split(rt, &gate, 20_000, 50);
    let recorded = record(&mut actor, session);
    root.take_in(actor);
    Ok((recorded, root.settle()))
}

// A cell at this version, in which so much is counted.
fn whole(version: u64, amount: Stat) -> Seen {
    Seen::Whole {
        version,
        content: amount.to_words(),
    }
}

// The session gets the place 0 everywhere: its thread's flags become 3 at version 1, and 0 at version 2. Its wait is
// counted at version 1 of the row, which the truncation empties at version 2. The thread's info row is written at
// version 1 and released there. The quit is the third action, and nothing was lost.
#[test]
fn a_session_records_is_truncated_and_quits(rt: HostRuntime) -> Result<(), Fail> {
    let alloc = rt.alloc();
    let setting = setting(alloc, SCRIPT)?;
    let words = open_words(alloc, &setting)?;
    let session = session(alloc, 1, 20_000)?;
    let (recorded, lost) = record_on_a_board::<Brand, HostRuntime>(
        &rt, alloc, &setting, words, session,
    )?;
    let flags = (recorded.connected, recorded.gone);
    same(&rt, "words", flags, ((1, 3), (2, 0)));
    same(&rt, "counted", recorded.counted, whole(1, wait()));
    same(&rt, "emptied", recorded.emptied, whole(2, zero()));
    same(&rt, "thread", recorded.thread, Seen::Free { word: 4 });
    let last = LastAction {
        number: 3,
        lost: NONE,
    };
    same(&rt, "last", recorded.last, Some(last));
    same(&rt, "lost", lost, NONE);
    Ok(())
}
