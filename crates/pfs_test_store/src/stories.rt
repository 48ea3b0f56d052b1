//! What a session does over a board's seats from its connect on, and what is seen of it.

ghost use Rattle.std.specs.Prelude.{◌≡◌, ◌≤◌, [], Some, length};
ghost use Rattle.pfs_board_store.specs.WriterWords.{words_of};
ghost use Rattle.pfs_session.specs.SessionStates.{no_place};
ghost use Rattle.pfs_test_store.specs.ActorStores.{IsBegun, IsIdle};

use crate::actions::{connect, flags, look, pause, quit, truncate, wait};
use crate::actors::Anything;
use pfs_admin::{Admin, Reply, Truncation};
use pfs_board_store::{BoardHold, BoardRows};
use pfs_levels::{Added, Hold, Log, Readable};
use pfs_rows::{Seen, SummaryTable, TableKind};
use pfs_session::Session;
use pfs_switches::Writer;
use std::sync::Wait;
use std::test::Fail;

// What is seen of a connect and a quit: the thread's word behind each, how many threads found no place, and the info
// rows of the thread and of its account.
pub(crate) struct Gone {
    pub connected: (u64, u16),
    pub gone: (u64, u16),
    pub lost: u64,
    pub thread: Seen,
    pub account: Seen,
}

// A session connects and quits.
pub(crate) fn come_and_go<'b, R: Wait>(
    rt: &R,
    rows: BoardRows<'b, Anything>,
    writer: Writer,
    admin: Admin,
    session: Session,
) -> Gone
    requires begun { IsBegun (⟦<BoardRows<'b, Anything> as Readable>⟧.seen rows).reached writer.switches }
    requires wide { 160 ≤ length writer.view.seen }
    requires idle { IsIdle (⟦<BoardRows<'b, Anything> as Readable>⟧.seen rows).hand }
    requires lent { Some (words_of writer.view) ≡ Some admin.words }
    requires few { admin.actions ≡ 0 }
    requires names { 2 ≤ length admin.names }
    requires first { (session.state.actions ≡ 0) × (session.state.place ≡ no_place) }
    requires closed { session.state.opened ≡ record { depth = 1; events = [] } }
    requires spare { 258 ≤ (⟦<BoardRows<'b, Anything> as Readable>⟧.seen rows).left }
    requires room { 261 ≤ session.journal.room }
{
    let mut admin = admin;
    let mut session = session;
    let (mut rows, writer) = connect(rt, rows, writer, &mut session, &mut admin);
    let connected = flags(&mut rows, &writer, 1);
    let (mut rows, writer) = quit(rt, rows, writer, &mut session, &mut admin);
    let gone = flags(&mut rows, &writer, 1);
    Gone {
        connected,
        gone,
        lost: admin.lost().threads,
        thread: look(&mut rows, 1),
        account: look(&mut rows, 33),
    }
}

// What is seen of an addition that is held back: what became of it as its event ended, the version that the other actor
// put, the session's journal, and what the row has in the end.
pub(crate) struct Settled {
    pub summary: Option<Added>,
    pub put: u64,
    pub log: Log,
    pub cell: Seen,
}

// A session connects, and its wait is held back by an actor that has the row in hand, and puts it back before the
// session pauses.
pub(crate) fn settle_behind<'b, R: Wait>(
    rt: &R,
    rows: BoardRows<'b, Anything>,
    other: BoardRows<'b, Anything>,
    writer: Writer,
    admin: Admin,
    session: Session,
) -> Settled
    requires begun { IsBegun (⟦<BoardRows<'b, Anything> as Readable>⟧.seen rows).reached writer.switches }
    requires wide { 160 ≤ length writer.view.seen }
    requires idle { IsIdle (⟦<BoardRows<'b, Anything> as Readable>⟧.seen rows).hand }
    requires other_idle { IsIdle (⟦<BoardRows<'b, Anything> as Readable>⟧.seen other).hand }
    requires other_spare { 1 ≤ (⟦<BoardRows<'b, Anything> as Readable>⟧.seen other).left }
    requires lent { Some (words_of writer.view) ≡ Some admin.words }
    requires few { admin.actions ≡ 0 }
    requires names { 2 ≤ length admin.names }
    requires first { (session.state.actions ≡ 0) × (session.state.place ≡ no_place) }
    requires drawn { session.state.drawn ≡ 0 }
    requires closed { session.state.opened ≡ record { depth = 1; events = [] } }
    requires spare { 13 ≤ (⟦<BoardRows<'b, Anything> as Readable>⟧.seen rows).left }
    requires tickets { 1 ≤ (⟦<BoardRows<'b, Anything> as Readable>⟧.seen rows).draws }
    requires room { 17 ≤ session.journal.room }
{
    let mut admin = admin;
    let mut session = session;
    let (mut rows, writer) = connect(rt, rows, writer, &mut session, &mut admin);
    let mut holding = BoardHold::new(rt, other, None);
    let (_version, content) = holding.take(135);
    let summary = wait(&mut rows, &writer, &mut session);
    let put = holding.put(135, &content);
    let (mut rows, log) = pause(rt, rows, session);
    let cell = look(&mut rows, 135);
    Settled {
        summary,
        put,
        log,
        cell,
    }
}

// What is seen of a truncation: what became of a wait before it, its answer, and what the rows of a thread and of its
// account then have.
pub(crate) struct Truncated {
    pub summary: Option<Added>,
    pub reply: Reply,
    pub thread: Seen,
    pub account: Seen,
}

// A session connects, waits and truncates the threads' waits.
pub(crate) fn truncate_waits<'b, R: Wait>(
    rt: &R,
    rows: BoardRows<'b, Anything>,
    writer: Writer,
    admin: Admin,
    session: Session,
) -> Result<Truncated, Fail>
    requires begun { IsBegun (⟦<BoardRows<'b, Anything> as Readable>⟧.seen rows).reached writer.switches }
    requires wide { 160 ≤ length writer.view.seen }
    requires idle { IsIdle (⟦<BoardRows<'b, Anything> as Readable>⟧.seen rows).hand }
    requires lent { Some (words_of writer.view) ≡ Some admin.words }
    requires few { admin.actions ≡ 0 }
    requires names { 2 ≤ length admin.names }
    requires first { (session.state.actions ≡ 0) × (session.state.place ≡ no_place) }
    requires drawn { session.state.drawn ≡ 0 }
    requires closed { session.state.opened ≡ record { depth = 1; events = [] } }
    requires spare { 214 ≤ (⟦<BoardRows<'b, Anything> as Readable>⟧.seen rows).left }
    requires tickets { 1 ≤ (⟦<BoardRows<'b, Anything> as Readable>⟧.seen rows).draws }
    requires room { 219 ≤ session.journal.room }
{
    let mut admin = admin;
    let mut session = session;
    let (mut rows, writer) = connect(rt, rows, writer, &mut session, &mut admin);
    let summary = wait(&mut rows, &writer, &mut session);
    let what = Truncation::Summary(TableKind::Waits, SummaryTable::ByThread);
    if admin.truncation_cost(what) > 200 {
        return Err(Fail::from("more moves than there is room for"));
    }
    let (mut rows, _writer, reply) = truncate(rt, rows, writer, &mut session, &mut admin, what);
    Ok(Truncated {
        summary,
        reply,
        thread: look(&mut rows, 135),
        account: look(&mut rows, 2183),
    })
}
