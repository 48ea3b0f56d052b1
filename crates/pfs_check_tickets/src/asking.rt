//! The tickets of the long histories, asked of one entry after another.

ghost use Rattle.std.specs.Prelude.{◌≡◌, ◌+◌, ◌<◌, ◌^◌, ◌∷◌, ◌&&◌, nat_lt, List, OnOk};
ghost use Rattle.pfs_check_faults.specs.RingFaults.{IsTicketed, TicketsAt};
ghost use Rattle.pfs_check_walk.specs.NumberTests.{Tells};
ghost use Rattle.pfs_model.specs.Causes.{kind_of_row};
ghost use Rattle.pfs_model.specs.EntryPlaces.{Placed};
ghost use Rattle.pfs_model.specs.Rings.{tickets_of_row};
ghost use Rattle.pfs_check_tickets.specs.PrintedPuts.{long_of_put, put_of};
ghost use Rattle.pfs_check_tickets.specs.PutCounts.{AreCounted, HasPuts, kind_at};
ghost use Rattle.pfs_check_tickets.specs.ShownPuts.{AreShown, due_test, row_count, ticket_test, tickets_below};

use crate::NoMemory;
use crate::counting::{KindCounts, LongCounts, PhaseKind};
use crate::puts::{Put, is_place_of, kind_of, put_in};
use crate::rising::{LongTickets, either};
use crate::showing::{PhaseTicket, SessionKind, ShownPuts, is_above};
use pfs_check_walk::{Spot, Track, Visit};
use pfs_event::Entry;
use pfs_model::Line;

/// Asks of each put whether its ticket is its place's and is due, and replaces no greater one.
#[derive(Drop)]
pub(crate) struct Asking {
    pub counts: LongCounts,
    pub tickets: LongTickets,
    pub shown: ShownPuts,
}

// How many of the tickets below a number belong to a place of a history.
fn tickets_below(place: u64, number: u128) -> u128
    requires place { place < 1000 }
    requires room { number < 2 ^ 64 + 2 ^ 64 }
    ensures { result ≡ tickets_below place number }
{
    (number + 999 - place as u128) / 1000
}

// How many of so many tickets behind so many belong to a row.
fn tickets_of(row: u64, counts: KindCounts) -> u128
    ensures { result ≡ tickets_of_row (kind_of_row row) row counts.before counts.puts }
{
    if row < 10242 {
        return 0;
    }
    let place = (row - 10242) % 1000;
    let before = counts.before as u128;
    let puts = counts.puts as u128;
    let all = tickets_below(place, before + puts);
    let earlier = tickets_below(place, before);
    all - earlier
}

// Whether a row has fewer puts in a phase so far than tickets, of so many.
fn has_room(shown: &ShownPuts, phase: u64, row: u64, counts: KindCounts) -> bool
    ensures { result ≡ nat_lt (row_count shown.now.rows (record { phase = phase; row = row }))
        (tickets_of_row (kind_of_row row) row counts.before counts.puts) }
{
    let puts = shown.of_row(phase, row);
    let tickets = tickets_of(row, counts);
    (puts as u128) < tickets
}

// Whether a ticket is one of so many behind so many, wasn't shown, and is above those of its session.
fn is_ticket(counts: KindCounts, shown: bool, greatest: Option<u64>, ticket: u64) -> bool
    ensures { result ≡ ticket_test counts.before counts.puts shown greatest ticket }
{
    let behind = counts.before as u128 + counts.puts as u128;
    let above = is_above(greatest, ticket);
    counts.before <= ticket && ((ticket as u128) < behind && (!shown && above))
}

// Whether the ticket that a put shows belongs to its row and is due.
fn is_due(shown: &ShownPuts, spot: Spot, counts: KindCounts, row: u64, ticket: u64) -> bool
    ensures { result ≡ due_test shown.now spot.phase spot.session counts row ticket }
{
    let kind = kind_of(row);
    let seen = shown.has_ticket(PhaseTicket {
        phase: spot.phase,
        kind,
        ticket,
    });
    let greatest = shown.of_session(SessionKind {
        phase: spot.phase,
        session: spot.session,
        kind,
    });
    let own = is_place_of(row, ticket);
    let due = is_ticket(counts, seen, greatest, ticket);
    own && due
}

fn both(one: bool, other: bool) -> bool
    ensures { result ≡ (one && other) }
{
    one && other
}

// Whether a put is as the ninth rule asks, of so many of its kind.
fn is_ticketed(shown: &ShownPuts, spot: Spot, counts: KindCounts, put: Put) -> bool
    ensures { (all : List Placed) → (earlier : List Placed) → (place : Placed) → place.phase ≡ spot.phase
        → place.session ≡ spot.session → HasPuts all (kind_at spot.phase (kind_of_row put.row)) counts
        → AreShown earlier shown.now → Tells (IsTicketed all earlier place (long_of_put put)) result }
{
    let room = has_room(shown, spot.phase, put.row, counts);
    match put.ticket {
        Some(ticket) => {
            let due = is_due(shown, spot, counts, put.row, ticket);
            both(due, room)
        }
        None => room,
    }
}

// So of all that are counted.
fn is_counted(shown: &ShownPuts, spot: Spot, counts: &LongCounts, put: Put) -> bool
    ensures { (all : List Placed) → (earlier : List Placed) → (place : Placed) → place.phase ≡ spot.phase
        → place.session ≡ spot.session → AreCounted all counts.now → AreShown earlier shown.now
        → Tells (IsTicketed all earlier place (long_of_put put)) result }
{
    let key = PhaseKind {
        phase: spot.phase,
        kind: kind_of(put.row),
    };
    match counts.of_phase(key) {
        Some(counts) => is_ticketed(shown, spot, counts, put),
        None => false,
    }
}

// And of the entry that is a put or isn't.
fn are_tickets(shown: &ShownPuts, spot: Spot, counts: &LongCounts, put: Option<Put>) -> bool
    ensures { (all : List Placed) → (earlier : List Placed) → (place : Placed) → place.phase ≡ spot.phase
        → place.session ≡ spot.session → put_of place.line place.entry ≡ put → AreCounted all counts.now
        → AreShown earlier shown.now → Tells (TicketsAt all earlier place) result }
{
    match put {
        Some(put) => {
            let due = is_counted(shown, spot, counts, put);
            let kind = kind_of(put.row);
            either(due, kind > 3)
        }
        None => true,
    }
}

impl Asking {
    // One entry more, the put that it is.
    fn note(&mut self, spot: Spot, put: Option<Put>) -> Result<(), NoMemory>
        ensures counts { self.new.counts ≡ self.old.counts }
        ensures tickets { self.new.tickets ≡ self.old.tickets }
        ensures shown { OnOk result ((earlier : List Placed) → (place : Placed) → place.phase ≡ spot.phase
            → place.session ≡ spot.session → put_of place.line place.entry ≡ put → AreShown earlier self.old.shown
            → AreShown (place ∷ earlier) self.new.shown) }
    {
        match put {
            Some(put) => self.shown.note(spot.phase, spot.session, put),
            None => Ok(()),
        }
    }
}

impl Visit for Asking {
    ghost use Rattle.pfs_check_faults.specs.ReportCases.{entries_of};
    ghost use Rattle.pfs_check_tickets.specs.PutCounts.{AreCounted};
    ghost use Rattle.pfs_check_tickets.specs.RisingPuts.{AreTicketsOf};
    ghost use Rattle.pfs_check_tickets.specs.ShownPuts.{AreShown};
    ghost use Rattle.pfs_check_tickets.specs.TicketRules.{LongsAt};

    ghost rule = { λ case found earlier place. LongsAt (entries_of found) earlier place };

    ghost knows = { λ visitor case found earlier. AreCounted (entries_of found) visitor.counts
        × AreTicketsOf (entries_of found) visitor.tickets × AreShown earlier visitor.shown };

    fn visit<T: Track>(
        &mut self,
        spot: Spot,
        line: &Line,
        _track: &T,
        entry: &Entry,
    ) -> Result<bool, NoMemory> {
        let put = put_in(line, entry);
        let due = are_tickets(&self.shown, spot, &self.counts, put);
        let rises = self.tickets.rises_at(entry);
        let kept = both(due, rises);
        if !kept {
            return Ok(false);
        }
        self.note(spot, put)?;
        Ok(true)
    }
}
