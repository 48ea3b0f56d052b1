//! Actions of a session over a board, each from its beginning to its end, and its calls between them.

ghost use Rattle.std.specs.Prelude.{◌≡◌, ◌≤◌, ◌<◌, ◌+◌, ◌^◌, ℕ, List, [], Some, None, IfOk, IsSome, length};
ghost use Rattle.pfs_admin.specs.Truncations.{truncation_cost};
ghost use Rattle.pfs_levels.specs.Calls.{Call, IsRow, Opening};
ghost use Rattle.pfs_levels.specs.Views.{Affords};
ghost use Rattle.pfs_board_store.specs.WriterWords.{words_of};
ghost use Rattle.pfs_session.specs.Settlements.{owed_by_state};
ghost use Rattle.pfs_session.specs.SessionStates.{no_place};
ghost use Rattle.pfs_test_store.specs.ActorStores.{IsBegun, IsBetween, IsIdle};

use crate::actors::Anything;
use pfs_admin::{Admin, Reply, Truncation};
use pfs_board::Label;
use pfs_board_store::{BoardHold, BoardRows};
use pfs_event::EventKind;
use pfs_levels::{Added, Log, Readable};
use pfs_model::Subject;
use pfs_names::NameId;
use pfs_rows::Seen;
use pfs_session::{End, NoMemory, Numbers, Session};
use pfs_switches::Writer;
use std::alloc::Global;
use std::sync::Wait;

// A session that is connected nowhere, with room for so many entries.
pub(crate) fn opened(alloc: Global, entries: u64) -> Result<Session, NoMemory>
    ensures first { IfOk result (λ s. (s.state.actions ≡ 0) × (s.state.place ≡ no_place) × (s.state.drawn ≡ 0)) }
    ensures closed { IfOk result (λ s. s.state.opened ≡ record { depth = 1; events = [] }) }
    ensures room { IfOk result (λ s. s.journal.room ≡ entries) }
{
    let mut session = Session::open(alloc, 1, 10, 1)?;
    session.reserve(entries)?;
    Ok(session)
}

// Begins an action, and goes into a hold that is lent the writer.
fn begin<'a, 'b, R: Wait>(
    rt: &'a R,
    rows: BoardRows<'b, Anything>,
    writer: Writer,
) -> BoardHold<'a, 'b, R, Anything>
    requires begun { IsBegun (⟦<BoardRows<'b, Anything> as Readable>⟧.seen rows).reached writer.switches }
    requires wide { 160 ≤ length writer.view.seen }
    requires idle { IsIdle (⟦<BoardRows<'b, Anything> as Readable>⟧.seen rows).hand }
    requires spare { 1 ≤ (⟦<BoardRows<'b, Anything> as Readable>⟧.seen rows).left }
    ensures begun { (start : Opening) × (calls : List Call)
        × ((⟦<BoardHold<'a, 'b, R, Anything> as Readable>⟧.seen result).reached start calls) }
    ensures inside { IsSome ((⟦<BoardHold<'a, 'b, R, Anything> as Readable>⟧.seen result).hand 0) }
    ensures alone { (r : ℕ) → 0 < r → (⟦<BoardHold<'a, 'b, R, Anything> as Readable>⟧.seen result).hand r ≡ None }
    ensures lent { (⟦<BoardHold<'a, 'b, R, Anything> as Readable>⟧.seen result).words ≡ Some (words_of writer.view) }
    ensures left { (⟦<BoardRows<'b, Anything> as Readable>⟧.seen rows.entry).left
        ≤ (⟦<BoardHold<'a, 'b, R, Anything> as Readable>⟧.seen result).left + 1 }
    ensures draws { (⟦<BoardHold<'a, 'b, R, Anything> as Readable>⟧.seen result).draws
        ≡ (⟦<BoardRows<'b, Anything> as Readable>⟧.seen rows.entry).draws }
{
    let mut rows = rows;
    let label = Label {
        session: 1,
        line: 1,
    };
    rows.enter(rt, label);
    BoardHold::new(rt, rows, Some(writer))
}

// Ends the action of a hold that was lent the writer, and gives the store and the writer back.
fn finish<'a, 'b, R: Wait>(
    hold: BoardHold<'a, 'b, R, Anything>,
) -> (BoardRows<'b, Anything>, Writer)
    requires begun { (start : Opening) × (calls : List Call)
        × ((⟦<BoardHold<'a, 'b, R, Anything> as Readable>⟧.seen hold).reached start calls) }
    requires inside { IsSome ((⟦<BoardHold<'a, 'b, R, Anything> as Readable>⟧.seen hold).hand 0) }
    requires alone { (r : ℕ) → 0 < r → (⟦<BoardHold<'a, 'b, R, Anything> as Readable>⟧.seen hold).hand r ≡ None }
    requires lent { IsSome (⟦<BoardHold<'a, 'b, R, Anything> as Readable>⟧.seen hold).words }
    ensures begun { IsBegun (⟦<BoardRows<'b, Anything> as Readable>⟧.seen result.0).reached result.1.switches }
    ensures wide { 160 ≤ length result.1.view.seen }
    ensures idle { IsIdle (⟦<BoardRows<'b, Anything> as Readable>⟧.seen result.0).hand }
    ensures lent { Some (words_of result.1.view) ≡ (⟦<BoardHold<'a, 'b, R, Anything> as Readable>⟧.seen hold.entry).words }
    ensures left { (⟦<BoardRows<'b, Anything> as Readable>⟧.seen result.0).left
        ≡ (⟦<BoardHold<'a, 'b, R, Anything> as Readable>⟧.seen hold.entry).left }
    ensures draws { (⟦<BoardRows<'b, Anything> as Readable>⟧.seen result.0).draws
        ≡ (⟦<BoardHold<'a, 'b, R, Anything> as Readable>⟧.seen hold.entry).draws }
{
    let (mut rows, lent) = hold.into_parts();
    rows.leave(Anything {});
    match lent {
        Some(writer) => (rows, writer),
        None => unreachable!(),
    }
}

// A session connects with the first two names, an action, which is the first of all.
pub(crate) fn connect<'b, R: Wait>(
    rt: &R,
    rows: BoardRows<'b, Anything>,
    writer: Writer,
    session: &mut Session,
    admin: &mut Admin,
) -> (BoardRows<'b, Anything>, Writer)
    requires between { IsBetween (⟦<BoardRows<'b, Anything> as Readable>⟧.seen rows) writer admin.old }
    requires few { admin.old.actions ≡ 0 }
    requires names { 2 ≤ length admin.old.names }
    requires first { (session.old.state.actions ≡ 0) × (session.old.state.place ≡ no_place) }
    requires closed { session.old.state.opened ≡ record { depth = 1; events = [] } }
    requires affords { Affords 5 0 6 (⟦<BoardRows<'b, Anything> as Readable>⟧.seen rows) session.old.journal }
    ensures between { IsBetween (⟦<BoardRows<'b, Anything> as Readable>⟧.seen result.0) result.1 admin.new }
    ensures actions { (admin.new.actions ≡ 1) × (session.new.state.actions ≡ 1) }
    ensures drawn { session.new.state.drawn ≡ session.old.state.drawn }
    ensures closed { session.new.state.opened ≡ record { depth = 1; events = [] } }
    ensures owed { length (owed_by_state session.new.state) ≡ 0 }
    ensures left { (⟦<BoardRows<'b, Anything> as Readable>⟧.seen rows.entry).left
        ≤ (⟦<BoardRows<'b, Anything> as Readable>⟧.seen result.0).left + 5 }
    ensures draws { (⟦<BoardRows<'b, Anything> as Readable>⟧.seen result.0).draws
        ≡ (⟦<BoardRows<'b, Anything> as Readable>⟧.seen rows.entry).draws }
    ensures room { session.old.journal.room ≤ session.new.journal.room + 6 }
{
    let mut hold = begin(rt, rows, writer);
    session.connect(&mut hold, admin, NameId(0), NameId(1));
    finish(hold)
}

// Its second action ends its connection.
pub(crate) fn quit<'b, R: Wait>(
    rt: &R,
    rows: BoardRows<'b, Anything>,
    writer: Writer,
    session: &mut Session,
    admin: &mut Admin,
) -> (BoardRows<'b, Anything>, Writer)
    requires begun { IsBegun (⟦<BoardRows<'b, Anything> as Readable>⟧.seen rows).reached writer.switches }
    requires wide { 160 ≤ length writer.view.seen }
    requires idle { IsIdle (⟦<BoardRows<'b, Anything> as Readable>⟧.seen rows).hand }
    requires lent { Some (words_of writer.view) ≡ Some admin.old.words }
    requires actions { (admin.old.actions ≡ 1) × (session.old.state.actions ≡ 1) }
    requires closed { session.old.state.opened ≡ record { depth = 1; events = [] } }
    requires owed { length (owed_by_state session.old.state) ≡ 0 }
    requires spare { 253 ≤ (⟦<BoardRows<'b, Anything> as Readable>⟧.seen rows).left }
    requires room { 255 ≤ session.old.journal.room }
    ensures begun { IsBegun (⟦<BoardRows<'b, Anything> as Readable>⟧.seen result.0).reached result.1.switches }
    ensures wide { 160 ≤ length result.1.view.seen }
    ensures idle { IsIdle (⟦<BoardRows<'b, Anything> as Readable>⟧.seen result.0).hand }
    ensures lent { Some (words_of result.1.view) ≡ Some admin.new.words }
{
    let mut hold = begin(rt, rows, writer);
    session.quit(&mut hold, admin);
    finish(hold)
}

// Its second action truncates a table.
pub(crate) fn truncate<'b, R: Wait>(
    rt: &R,
    rows: BoardRows<'b, Anything>,
    writer: Writer,
    session: &mut Session,
    admin: &mut Admin,
    what: Truncation,
) -> (BoardRows<'b, Anything>, Writer, Reply)
    requires begun { IsBegun (⟦<BoardRows<'b, Anything> as Readable>⟧.seen rows).reached writer.switches }
    requires wide { 160 ≤ length writer.view.seen }
    requires idle { IsIdle (⟦<BoardRows<'b, Anything> as Readable>⟧.seen rows).hand }
    requires lent { Some (words_of writer.view) ≡ Some admin.old.words }
    requires actions { (admin.old.actions ≡ 1) × (session.old.state.actions ≡ 1) }
    requires owed { length (owed_by_state session.old.state) ≤ 2 }
    requires cost { truncation_cost admin.old what ≤ 200 }
    requires spare { 203 ≤ (⟦<BoardRows<'b, Anything> as Readable>⟧.seen rows).left }
    requires room { 205 ≤ session.old.journal.room }
    ensures begun { IsBegun (⟦<BoardRows<'b, Anything> as Readable>⟧.seen result.0).reached result.1.switches }
    ensures wide { 160 ≤ length result.1.view.seen }
    ensures idle { IsIdle (⟦<BoardRows<'b, Anything> as Readable>⟧.seen result.0).hand }
    ensures lent { Some (words_of result.1.view) ≡ Some admin.new.words }
{
    let mut hold = begin(rt, rows, writer);
    let reply = session.truncate(&mut hold, admin, what);
    let (rows, writer) = finish(hold);
    (rows, writer, reply)
}

// What became of an event's addition to the row of its cell, where it was let through.
fn summary_of(ended: &End) -> Option<Added> {
    match ended {
        End::Through(ended) => Some(ended.summary),
        End::Silent(_) => None,
    }
}

// A wait of class 6 of five picoseconds, of a session with nothing open: what became of its addition.
pub(crate) fn wait<'b>(
    rows: &mut BoardRows<'b, Anything>,
    writer: &Writer,
    session: &mut Session,
) -> Option<Added>
    requires begun { IsBegun (⟦<BoardRows<'b, Anything> as Readable>⟧.seen rows.old).reached writer.now.switches }
    requires idle { IsIdle (⟦<BoardRows<'b, Anything> as Readable>⟧.seen rows.old).hand }
    requires closed { session.old.state.opened ≡ record { depth = 1; events = [] } }
    requires early { session.old.state.drawn ≡ 0 }
    requires owed { length (owed_by_state session.old.state) ≡ 0 }
    requires spare { 6 ≤ (⟦<BoardRows<'b, Anything> as Readable>⟧.seen rows.old).left }
    requires tickets { 1 ≤ (⟦<BoardRows<'b, Anything> as Readable>⟧.seen rows.old).draws }
    requires room { 8 ≤ session.old.journal.room }
    ensures begun { IsBegun (⟦<BoardRows<'b, Anything> as Readable>⟧.seen rows.new).reached writer.now.switches }
    ensures idle { IsIdle (⟦<BoardRows<'b, Anything> as Readable>⟧.seen rows.new).hand }
    ensures actions { session.new.state.actions ≡ session.old.state.actions }
    ensures owed { length (owed_by_state session.new.state) ≤ 2 }
    ensures left { (⟦<BoardRows<'b, Anything> as Readable>⟧.seen rows.old).left
        ≤ (⟦<BoardRows<'b, Anything> as Readable>⟧.seen rows.new).left + 6 }
    ensures room { session.old.journal.room ≤ session.new.journal.room + 8 }
{
    let binlog = Subject {
        kind: EventKind::Wait,
        class: Some(6),
        cell: 6,
        table: None,
        digest: None,
    };
    session.start(rows, &binlog);
    session.spend(5);
    let ended = session.end(rows, &Numbers::NONE);
    summary_of(&ended)
}

// A session pauses: what it holds is settled over a hold without a writer. The store again, and the journal.
pub(crate) fn pause<'b, R: Wait>(
    rt: &R,
    rows: BoardRows<'b, Anything>,
    session: Session,
) -> (BoardRows<'b, Anything>, Log)
    requires idle { IsIdle (⟦<BoardRows<'b, Anything> as Readable>⟧.seen rows).hand }
    requires owed { length (owed_by_state session.state) ≤ 2 }
    requires spare { 2 ≤ (⟦<BoardRows<'b, Anything> as Readable>⟧.seen rows).left }
    requires room { 3 ≤ session.journal.room }
    ensures idle { IsIdle (⟦<BoardRows<'b, Anything> as Readable>⟧.seen result.0).hand }
{
    let mut hold = BoardHold::new(rt, rows, None);
    let log = session.pause(&mut hold).take_log();
    let (rows, _) = hold.into_parts();
    (rows, log)
}

// A switch word: its version and its flags.
pub(crate) fn flags<'b>(
    rows: &mut BoardRows<'b, Anything>,
    writer: &Writer,
    word: u64,
) -> (u64, u16)
    requires known { word < 160 }
    requires begun { IsBegun (⟦<BoardRows<'b, Anything> as Readable>⟧.seen rows.old).reached writer.now.switches }
    requires idle { IsIdle (⟦<BoardRows<'b, Anything> as Readable>⟧.seen rows.old).hand }
    ensures begun { IsBegun (⟦<BoardRows<'b, Anything> as Readable>⟧.seen rows.new).reached writer.now.switches }
    ensures idle { IsIdle (⟦<BoardRows<'b, Anything> as Readable>⟧.seen rows.new).hand }
    ensures left { (⟦<BoardRows<'b, Anything> as Readable>⟧.seen rows.new).left
        ≡ (⟦<BoardRows<'b, Anything> as Readable>⟧.seen rows.old).left }
{
    rows.load(word)
}

// What stands in a row.
pub(crate) fn look<'b>(rows: &mut BoardRows<'b, Anything>, row: u64) -> Seen
    requires known { IsRow row }
    requires idle { IsIdle (⟦<BoardRows<'b, Anything> as Readable>⟧.seen rows.old).hand }
    ensures idle { IsIdle (⟦<BoardRows<'b, Anything> as Readable>⟧.seen rows.new).hand }
{
    rows.read(row)
}
