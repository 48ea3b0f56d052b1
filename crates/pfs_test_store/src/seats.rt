//! Several actors on one thread: one holds a row that another would add to, and an event that comes late.

ghost use Rattle.std.specs.Prelude.{◌≡◌, ◌<◌, ◌≤◌, ◌+◌, ℕ, List, None, length, slice_index, IfOk};
ghost use Rattle.pfs_levels.specs.Calls.{IsRing};
ghost use Rattle.pfs_switches.specs.OpeningWords.{opening_words};

use crate::actors::{Anything, actor, fresh, fresh_tickets};
use crate::asserts::same;
use pfs_board::{Content, NoMemory};
use pfs_board_store::{BoardHold, BoardRows};
use pfs_levels::{Added, Hold, Readable, RingPut, Rows};
use pfs_rows::Seen;
use pfs_stat::{Measure, Stat, of_event};
use pfs_switches::{SwitchSeat, Switches, Writer};
use std::alloc::Global;

// The long place of the tickets 0, 1000 and so on of kind 0.
const LONG: u64 = 10_242;

// Class 6 of the first thread.
const CELL: u64 = 135;

// The words of a run with these flags.
fn fresh_words(alloc: Global, flags: &[u16]) -> Result<(Switches, SwitchSeat, Writer), NoMemory>
    requires { length flags.now ≡ 160 }
    ensures seat { IfOk result (λ b. (b.1.switches ≡ b.0.id) × (b.1.view.number ≡ 0)) }
    ensures sizes { IfOk result (λ b. (161 ≤ length b.0.start) × (160 ≤ length b.1.view.seen)) }
    ensures words { IfOk result (λ b. (flags : List ℕ) × (b.1.view.start ≡ opening_words flags)) }
{
    let (words, reader, writer) = Switches::open(alloc, flags)?;
    Ok((words, reader, writer))
}

// A content whose word 15 is one more than this ticket.
fn event_of(ticket: u64) -> Content
    requires { (ticket < 1000000) }
    ensures { (slice_index result 15 ≡ ticket + 1) × (length result ≡ 16) }
{
    let mut content = [0; 16];
    content[15] = ticket + 1;
    content
}

// Offers the event of a ticket to the place of ticket 0.
fn offer<'a>(rows: &mut BoardRows<'a, Anything>, content: &Content) -> RingPut
    requires ring { IsRing 10242 content.now }
    requires idle { (r : ℕ) → (⟦<BoardRows<'a, Anything> as Readable>⟧.seen rows.old).hand r ≡ None }
    requires room { 0 < (⟦<BoardRows<'a, Anything> as Readable>⟧.seen rows.old).left }
    ensures idle { (r : ℕ) → (⟦<BoardRows<'a, Anything> as Readable>⟧.seen rows.new).hand r ≡ None }
    ensures left { (⟦<BoardRows<'a, Anything> as Readable>⟧.seen rows.old).left
        ≤ (⟦<BoardRows<'a, Anything> as Readable>⟧.seen rows.new).left + 1 }
{
    rows.ring_try(LONG, content)
}

// Reads a row that it hasn't in hand.
fn look<'a>(rows: &mut BoardRows<'a, Anything>, row: u64) -> Seen
    requires row { (0 < row) × (row < 14242) }
    requires idle { (r : ℕ) → (⟦<BoardRows<'a, Anything> as Readable>⟧.seen rows.old).hand r ≡ None }
    ensures idle { (r : ℕ) → (⟦<BoardRows<'a, Anything> as Readable>⟧.seen rows.new).hand r ≡ None }
    ensures left { (⟦<BoardRows<'a, Anything> as Readable>⟧.seen rows.new).left
        ≡ (⟦<BoardRows<'a, Anything> as Readable>⟧.seen rows.old).left }
{
    rows.read(row)
}

fn wait_of(time: u64) -> Stat {
    of_event(&Measure {
        timed: true,
        wait: time,
        lock: 0,
        errors: 0,
        warnings: 0,
        affected: 0,
        sent: 0,
        examined: 0,
    })
}

// What is seen of a row that is whole.
fn whole(version: u64, content: Content) -> Seen {
    Seen::Whole { version, content }
}

// Ends a wait of that cell.
fn count<'a>(rows: &mut BoardRows<'a, Anything>, amount: &Stat) -> Added
    requires idle { (r : ℕ) → (⟦<BoardRows<'a, Anything> as Readable>⟧.seen rows.old).hand r ≡ None }
    requires room { 0 < (⟦<BoardRows<'a, Anything> as Readable>⟧.seen rows.old).left }
    ensures idle { (r : ℕ) → (⟦<BoardRows<'a, Anything> as Readable>⟧.seen rows.new).hand r ≡ None }
    ensures left { (⟦<BoardRows<'a, Anything> as Readable>⟧.seen rows.old).left
        ≤ (⟦<BoardRows<'a, Anything> as Readable>⟧.seen rows.new).left + 1 }
{
    rows.add_try(CELL, amount)
}

// Ticket 1000 of kind 0 stands in row 10242. Ticket 0 comes late there, and the version stays 1.
#[test]
fn a_late_event_is_told_the_greater_ticket(rt: HostRuntime) -> Result<(), NoMemory> {
    let alloc = rt.alloc();
    let (board, mut root) = fresh(alloc)?;
    let (switches, mut reader, _writer) = fresh_words(alloc, &[0; 160])?;
    let (tickets, mut drawer) = fresh_tickets(alloc)?;
    let mut first = actor(
        &board,
        &switches,
        &tickets,
        &mut root,
        &mut reader,
        &mut drawer,
    );
    let mut second = actor(
        &board,
        &switches,
        &tickets,
        &mut root,
        &mut reader,
        &mut drawer,
    );
    let seen = look(&mut first, LONG);
    same(&rt, "opening", seen, Seen::Free { word: 0 });
    let early = event_of(1_000);
    let answer = offer(&mut first, &early);
    same(&rt, "early", answer, RingPut::Done { version: 1 });
    let answer = offer(&mut second, &event_of(0));
    let late = RingPut::Late {
        ticket: 1_000,
        version: 1,
    };
    same(&rt, "late", answer, late);
    let seen = look(&mut second, LONG);
    same(&rt, "seen", seen, whole(1, early));
    Ok(())
}

// Another actor has row 135 in hand as an event of class 6 ends: that is held, by the words 1 and 1. Behind the put,
// which is version 1, it is counted at version 2.
#[test]
fn a_row_in_another_hand_holds_an_addition_back(rt: HostRuntime) -> Result<(), NoMemory> {
    let alloc = rt.alloc();
    let (board, mut root) = fresh(alloc)?;
    let (switches, mut reader, _writer) = fresh_words(alloc, &[0; 160])?;
    let (tickets, mut drawer) = fresh_tickets(alloc)?;
    let mut rows = actor(
        &board,
        &switches,
        &tickets,
        &mut root,
        &mut reader,
        &mut drawer,
    );
    let other = actor(
        &board,
        &switches,
        &tickets,
        &mut root,
        &mut reader,
        &mut drawer,
    );
    let mut hold = BoardHold::new(&rt, other, None);
    let (version, content) = hold.take(CELL);
    let back = count(&mut rows, &wait_of(5));
    let held = Added::Held {
        row: CELL,
        first: 1,
        second: 1,
    };
    same(&rt, "held", (version, back), (0, held));
    let version = hold.put(CELL, &content);
    let counted = count(&mut rows, &wait_of(5));
    let due = Added::Counted {
        row: CELL,
        version: 2,
    };
    same(&rt, "counted", (version, counted), (1, due));
    let seen = hold.read(CELL);
    same(&rt, "seen", seen, whole(2, wait_of(5).to_words()));
    Ok(())
}
