//! Putting an event to its place.

ghost use Rattle.std.specs.Prelude.{◌≡◌, ◌<◌, ◌≤◌, [], ℕ, None};
ghost use Rattle.pfs_event.specs.EventWords.{words_of};
ghost use Rattle.pfs_levels.specs.Views.{Kept};
ghost use Rattle.pfs_model.specs.Rings.{ring_number};
ghost use Rattle.pfs_rings.specs.Offers.{IsOffered, IsOfferedLong, Offers, put_entry};
ghost use Rattle.pfs_rings.specs.RingPlaces.{IsRing, tickets_for};

use crate::rings::{Ring, current_row, history_row, ring_number};
use pfs_event::{Entry, Event, EventKind};
use pfs_levels::{Content, RingPut, Rows};
use pfs_rows::{LONG_HISTORY, LONG_PLACES};

/// What became of an event that was put to a ring. Words are lock words: four times the version and the state.
#[derive(Clone, Copy, Debug, PartialEq, Eq)]
pub enum Put {
    /// It was written, at this version of the row, in the long history with this ticket.
    Done {
        row: u64,
        version: u64,
        ticket: Option<u64>,
    },
    /// Another actor had the row in hand, as these two lock words show: the event is dropped.
    Busy {
        row: u64,
        first: u64,
        second: u64,
    },
    /// The place of the long history holds a greater ticket: the event is dropped.
    Late {
        row: u64,
        ticket: u64,
        greater: u64,
    },
}

impl Put {
    /// The entry of the put in its session's journal.
    pub fn entry(&self) -> Entry
        ensures { result ≡ put_entry self.now }
    {
        match *self {
            Put::Done {
                row,
                version,
                ticket: None,
            } => Entry::Ring { row, version },
            Put::Done {
                row,
                version,
                ticket: Some(ticket),
            } => Entry::Long {
                row,
                version,
                ticket,
            },
            Put::Busy { row, first, second } => Entry::Busy { row, first, second },
            Put::Late {
                row,
                ticket,
                greater,
            } => Entry::Late {
                row,
                ticket,
                greater,
            },
        }
    }
}

/// Puts an event to its place by one call of the store; in the long history to the place of the kind's next ticket,
/// which is drawn first. Busy and Late are the store's answers: the row is in another actor's hands, or the place of
/// the long history holds the greater ticket given. Then nothing was written, and the event is dropped: that a put never
/// waits is our own rule, as the tickets are. The event's own ticket is no matter.
#[inline(always)]
pub fn put_event<R: Rows>(rows: &mut R, ring: Ring, event: &Event) -> Put
    requires ring { IsRing ring }
    requires alone { (r : ℕ) → 0 < r → (R.seen rows.old).hand r ≡ None }
    requires spare { 1 ≤ (R.seen rows.old).left }
    requires tickets { tickets_for ring ≤ (R.seen rows.old).draws }
    ensures offers { Offers ring event.now result (R.seen rows.old).reached (R.seen rows.new).reached }
    ensures kept { Kept 1 (tickets_for ring) (R.seen rows.old) (R.seen rows.new) }
{
    match ring {
        Ring::Current {
            thread,
            kind,
            depth,
        } => offer(rows, current_row(thread, kind, depth), event),
        Ring::History {
            thread,
            kind,
            place,
        } => offer(rows, history_row(thread, kind, place), event),
        Ring::Long { kind } => offer_long(rows, kind, event),
    }
}

// The words of an event with this ticket word.
fn words_with(event: &Event, ticket: u64) -> Content
    ensures { result ≡ words_of (record event.now { ticket = ticket }) }
{
    let mut stamped = *event;
    stamped.ticket = ticket;
    stamped.to_words()
}

// Offers an event to a place of a thread.
#[inline(always)]
fn offer<R: Rows>(rows: &mut R, row: u64, event: &Event) -> Put
    requires low { 8450 ≤ row }
    requires high { row < 10242 }
    requires alone { (r : ℕ) → 0 < r → (R.seen rows.old).hand r ≡ None }
    requires spare { 1 ≤ (R.seen rows.old).left }
    ensures offered { IsOffered row None [] event.now result (R.seen rows.old).reached (R.seen rows.new).reached }
    ensures kept { Kept 1 0 (R.seen rows.old) (R.seen rows.new) }
{
    let content = words_with(event, 0);
    match rows.ring_try(row, &content) {
        RingPut::Done { version } => Put::Done {
            row,
            version,
            ticket: None,
        },
        RingPut::Busy { first, second } => Put::Busy { row, first, second },
        RingPut::Late { .. } => unreachable!(),
    }
}

// Offers an event to the place of the next ticket of its kind.
fn offer_long<R: Rows>(rows: &mut R, kind: EventKind, event: &Event) -> Put
    requires alone { (r : ℕ) → 0 < r → (R.seen rows.old).hand r ≡ None }
    requires spare { 1 ≤ (R.seen rows.old).left }
    requires tickets { 1 ≤ (R.seen rows.old).draws }
    ensures offered { IsOfferedLong (ring_number kind) event.now result (R.seen rows.old).reached
        (R.seen rows.new).reached }
    ensures kept { Kept 1 1 (R.seen rows.old) (R.seen rows.new) }
{
    let number = ring_number(kind);
    let ticket = rows.ticket(number);
    let row = LONG_HISTORY + LONG_PLACES * number + ticket % LONG_PLACES;
    let content = words_with(event, ticket + 1);
    match rows.ring_try(row, &content) {
        RingPut::Done { version } => Put::Done {
            row,
            version,
            ticket: Some(ticket),
        },
        RingPut::Busy { first, second } => Put::Busy { row, first, second },
        RingPut::Late {
            ticket: greater,
            ..
        } => Put::Late {
            row,
            ticket,
            greater,
        },
    }
}
