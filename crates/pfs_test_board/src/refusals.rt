//! Several actors of a board on one thread: what each refusal answers, and what a free row does.

ghost use Rattle.std.specs.Prelude.{◌≡◌, ◌<◌, ◌≤◌, ◌+◌, ℕ, None, length, slice_index};
ghost use Rattle.pfs_board_opening.specs.Opened.{AreFresh};

use crate::asserts::same;
use crate::tables::{setting, wait};
use pfs_board::{Content, NoMemory};
use pfs_board_opening::{Picked, Run, RunWords, Tables, open_tables, open_words};
use pfs_board_session::OpenGate;
use pfs_board_store::{BoardHold, Seats};
use pfs_classes::Setting;
use pfs_levels::{Added, Hold, Readable, RingPut, Rows};
use pfs_rows::Seen;
use std::alloc::Global;
use std::marker::Brand;
use std::sync::Wait;
use std::test::Fail;

// Class 6 of the first thread.
const CELL: u64 = 135;

// The current wait of the first thread.
const CURRENT: u64 = 8_450;

// The long place of the tickets 0, 1000 and so on of waits.
const LONG: u64 = 10_242;

// What an actor is answered while another has these rows in hand, and behind that.
#[derive(Drop)]
struct Refused {
    seen: Seen,
    added: Added,
    put: RingPut,
    free: Seen,
    counted: Added,
    written: RingPut,
}

// A content whose word 15 is one more than this ticket.
fn event_of(ticket: u64) -> Content
    requires { (ticket < 1000000) }
    ensures { (slice_index result 15 ≡ ticket + 1) × (length result ≡ 16) }
{
    let mut content = [0; 16];
    content[15] = ticket + 1;
    content
}

// An actor reads, adds and writes while another holds the cell and the ring place, and again once that has put the cell
// back as it was and released the ring place.
fn refuse<A: Rows, H: Hold>(actor: &mut A, holder: &mut H) -> Refused
    requires idle { (row : ℕ) → (A.seen actor.old).hand row ≡ None }
    requires holder { (row : ℕ) → (H.seen holder.old).hand row ≡ None }
    requires left { (10 ≤ (A.seen actor.old).left) × (10 ≤ (H.seen holder.old).left) }
    ensures left { (A.seen actor.old).left ≤ (A.seen actor.new).left + 4 }
{
    let (_, content) = holder.take(CELL);
    holder.take(CURRENT);
    let seen = actor.read(CELL);
    let added = actor.add_try(CELL, &wait());
    let put = actor.ring_try(CURRENT, &event_of(0));
    holder.put(CELL, &content);
    holder.free(CURRENT);
    Refused {
        seen,
        added,
        put,
        free: actor.read(CURRENT),
        counted: actor.add_try(CELL, &wait()),
        written: actor.ring_try(CURRENT, &event_of(0)),
    }
}

// Ticket 1000 is written to the long place of ticket 0, and then another actor's ticket 0.
fn come_late<A: Rows, B: Rows>(early: &mut A, late: &mut B) -> (RingPut, RingPut)
    requires early { (row : ℕ) → (A.seen early.old).hand row ≡ None }
    requires late { (row : ℕ) → (B.seen late.old).hand row ≡ None }
    requires left { (1 ≤ (A.seen early.old).left) × (1 ≤ (B.seen late.old).left) }
{
    (
        early.ring_try(LONG, &event_of(1_000)),
        late.ring_try(LONG, &event_of(0)),
    )
}

// All of that over three actors of a new board.
fn refuse_on_a_board<P: Picked, R: Wait>(
    rt: &R,
    alloc: Global,
    setting: &Setting,
    words: RunWords,
) -> Result<(Refused, (RingPut, RingPut)), NoMemory>
    requires run { (P.setting ≡ setting.now) × (words.switches.id ≡ P.switches) }
    requires fresh { AreFresh setting.now words.switches words.seat words.writer }
{
    let gate = OpenGate;
    let (tables, seats): (Tables<Run<P>>, Seats) = open_tables(alloc, setting, words)?;
    let mut root = tables.begin(seats);
    let mut first = root.split(rt, &gate, 100, 10);
    let mut second = root.split(rt, &gate, 100, 10);
    let third = root.split(rt, &gate, 100, 10);
    let mut holder = BoardHold::new(rt, third.into_rows(), None);
    let refused = refuse(&mut first, &mut holder);
    Ok((refused, come_late(&mut first, &mut second)))
}

// A row in another actor's hand is told by the words 1 and 1, to a reading, an addition and an event of a ring. The
// place that was released is free at version 0. The cell is put back at version 1 and counts at version 2.
#[test]
fn a_row_in_another_hand_is_refused_and_a_late_event(rt: HostRuntime) -> Result<(), Fail> {
    let alloc = rt.alloc();
    let setting = setting(alloc, b"phase\nsession 1 u h\n")?;
    let words = open_words(alloc, &setting)?;
    let (refused, offers) = refuse_on_a_board::<Brand, HostRuntime>(&rt, alloc, &setting, words)?;
    let busy = Seen::Busy {
        first: 1,
        second: 1,
    };
    same(&rt, "seen", refused.seen, busy);
    let held = Added::Held {
        row: CELL,
        first: 1,
        second: 1,
    };
    same(&rt, "added", refused.added, held);
    let put = RingPut::Busy {
        first: 1,
        second: 1,
    };
    same(&rt, "put", refused.put, put);
    same(&rt, "free", refused.free, Seen::Free { word: 0 });
    let counted = Added::Counted {
        row: CELL,
        version: 2,
    };
    same(&rt, "counted", refused.counted, counted);
    let written = RingPut::Done { version: 1 };
    same(&rt, "written", refused.written, written);
    let late = RingPut::Late {
        ticket: 1_000,
        version: 1,
    };
    same(&rt, "late", offers, (written, late));
    Ok(())
}
