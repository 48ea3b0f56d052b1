//! The puts of tickets to long histories: which of them another session made.

ghost use Rattle.std.specs.Prelude.{◌≡◌, ◌≤◌, ◌++◌, ◌∷◌, ◌==◌, ◌&&◌, [], List, cond, length, nat_lt, false, None, OnOk};
ghost use Rattle.pfs_model.specs.Causes.{IsLate, SomePuts, by_others, kind_of_row, long_row};
ghost use Rattle.pfs_model.specs.EntryPlaces.{Placed, up_to_phase};
ghost use Rattle.pfs_check_floors.specs.KnownFloors.{IsSeatOf, Tells};
ghost use Rattle.pfs_check_floors.specs.RowNames.{AreRowsOf};
ghost use Rattle.pfs_check_causes.specs.TicketPuts.{ArePhased, ArePuts, NeverFallFrom, Parts, greater_of, is_same_ticket, last_top, next_top, others_of, pick, put_of, tops_at};

use crate::NoMemory;
use crate::vacant::reaches;
use pfs_check_floors::{RowFloors, Seat};
use pfs_event::Entry;
use std::alloc::Global;
use std::collections::BTreeMap;

/// A row, and a ticket that was put there.
#[derive(Clone, Copy, Debug, PartialEq, Eq, PartialOrd, Ord)]
pub struct RowTicket {
    pub row: u64,
    pub ticket: u64,
}

/// A ticket is put to a row.
#[derive(Clone, Copy, Debug, PartialEq, Eq)]
pub struct TicketPut {
    pub key: RowTicket,
    pub version: u64,
}

/// The greatest version at which a ticket was put to a row so far.
#[derive(Clone, Copy, Debug, PartialEq, Eq)]
pub struct TopPut {
    pub version: u64,
    /// The session that put it.
    pub session: u64,
    /// The greatest version at which another session put it.
    pub other: Option<u64>,
}

/// That of the puts up to one, with its phase.
#[derive(Clone, Copy, Debug, PartialEq, Eq)]
pub struct PhasedTop {
    pub phase: u64,
    pub top: TopPut,
}

// The put of a ticket that an entry is.
fn put_in(entry: &Entry) -> Option<TicketPut>
    ensures { result ≡ put_of entry.now }
{
    match *entry {
        Entry::Long {
            row,
            version,
            ticket,
        } => Some(TicketPut {
            key: RowTicket { row, ticket },
            version,
        }),
        _ => None,
    }
}

fn greater_of(version: u64, other: Option<u64>) -> u64
    ensures { result ≡ greater_of version other }
{
    match other {
        Some(other) => version.max(other),
        None => version,
    }
}

// One put more.
fn next_top(before: Option<TopPut>, session: u64, version: u64) -> TopPut
    ensures { result ≡ next_top before session version }
{
    let Some(top) = before else {
        return TopPut {
            version,
            session,
            other: None,
        };
    };
    if top.session == session {
        return TopPut {
            version: version.max(top.version),
            session,
            other: top.other,
        };
    }
    if top.version < version {
        return TopPut {
            version,
            session,
            other: Some(top.version),
        };
    }
    TopPut {
        version: top.version,
        session: top.session,
        other: Some(greater_of(version, top.other)),
    }
}

fn last_top(tops: &[PhasedTop]) -> Option<TopPut>
    ensures { result ≡ last_top None tops.now }
{
    if tops.is_empty() {
        None
    } else {
        Some(tops[tops.len() - 1].top)
    }
}

// The tops of a ticket, taken out.
fn take_tops(
    puts: &mut BTreeMap<RowTicket, Vec<PhasedTop>>,
    alloc: Global,
    key: RowTicket,
) -> Vec<PhasedTop>
    ensures items { result.items ≡ tops_at puts.old key }
    ensures others { (other : RowTicket) → is_same_ticket key other ≡ false
        → tops_at puts.new other ≡ tops_at puts.old other }
{
    match puts.remove(&key) {
        Some(tops) => tops,
        None => Vec::new(alloc),
    }
}

fn put_back(
    puts: &mut BTreeMap<RowTicket, Vec<PhasedTop>>,
    key: RowTicket,
    tops: Vec<PhasedTop>,
) -> Result<(), NoMemory>
    ensures { OnOk result ((other : RowTicket)
        → tops_at puts.new other ≡ cond (is_same_ticket key other) tops.items (tops_at puts.old other)) }
{
    puts.insert(key, tops)?;
    Ok(())
}

// A ticket's puts, one more.
fn push_top(
    puts: &mut BTreeMap<RowTicket, Vec<PhasedTop>>,
    alloc: Global,
    phase: u64,
    session: u64,
    put: TicketPut,
) -> Result<(), NoMemory>
    ensures { OnOk result ((key : RowTicket) → tops_at puts.new key
        ≡ cond (is_same_ticket put.key key) (tops_at puts.old put.key
        ++ record { phase = phase; top = next_top (last_top None (tops_at puts.old put.key)) session put.version } ∷ [])
        (tops_at puts.old key)) }
{
    let mut tops = take_tops(puts, alloc, put.key);
    let top = next_top(last_top(tops.as_slice()), session, put.version);
    tops.push(PhasedTop { phase, top })?;
    put_back(puts, put.key, tops)
}

/// Of no entries. It takes no memory.
#[tactic(auto, unfolding(crate::specs::TicketPuts::tops_from))]
pub(crate) fn none_put(alloc: Global) -> BTreeMap<RowTicket, Vec<PhasedTop>>
    ensures { ArePuts [] result }
{
    BTreeMap::new(alloc)
}

/// One entry more, in this phase and in the journal of this session. Err where memory runs out.
pub(crate) fn note_put(
    puts: &mut BTreeMap<RowTicket, Vec<PhasedTop>>,
    alloc: Global,
    phase: u64,
    session: u64,
    entry: &Entry,
) -> Result<(), NoMemory>
    ensures { OnOk result ((places : List Placed) → (place : Placed) → place.phase ≡ phase
        → place.session ≡ session → place.entry ≡ entry.now → ArePuts places puts.old
        → ArePuts (places ++ place ∷ []) puts.new) }
{
    match put_in(entry) {
        Some(put) => push_top(puts, alloc, phase, session, put),
        None => Ok(()),
    }
}

// The place behind the puts up to a phase, by a search by halves.
fn behind(tops: &[PhasedTop], phase: u64) -> usize
    ensures within { result ≤ length tops.now }
    ensures parts { ArePhased tops.now → Parts tops.now phase result result }
{
    let mut low = 0;
    let mut high = tops.len();
    while low < high {
        let middle = low + (high - low) / 2;
        if tops[middle].phase <= phase {
            low = middle + 1;
        } else {
            high = middle;
        }
    }
    low
}

// The top up to a phase.
fn top_up_to(tops: &[PhasedTop], phase: u64) -> Option<TopPut>
    ensures { ArePhased tops.now → result ≡ pick None phase tops.now }
{
    let place = behind(tops, phase);
    if place == 0 {
        return None;
    }
    Some(tops[place - 1].top)
}

fn top_of(puts: &BTreeMap<RowTicket, Vec<PhasedTop>>, key: RowTicket, phase: u64) -> Option<TopPut>
    ensures { ArePhased (tops_at puts.now key) → result ≡ pick None phase (tops_at puts.now key) }
{
    match puts.get(&key) {
        Some(tops) => top_up_to(tops.as_slice(), phase),
        None => None,
    }
}

// The greatest version by the sessions but one.
fn others_of(session: u64, top: Option<TopPut>) -> Option<u64>
    ensures { result ≡ others_of session top }
{
    match top {
        Some(top) => {
            if top.session == session {
                top.other
            } else {
                Some(top.version)
            }
        }
        None => None,
    }
}

// Whether another session put a ticket to a row at a version or above, up to a phase's end.
fn is_put(
    puts: &BTreeMap<RowTicket, Vec<PhasedTop>>,
    seat: Seat,
    key: RowTicket,
    floor: u64,
) -> bool
    ensures { (all : List Placed) → ArePuts all puts.now → NeverFallFrom 0 all
        → Tells (SomePuts key.row key.ticket floor (by_others seat.session (up_to_phase seat.phase all))) result }
{
    let top = top_of(puts, key, seat.phase);
    let others = others_of(seat.session, top);
    reaches(others, floor)
}

// Whether a ticket belongs to a place of a long history.
fn is_place_of(row: u64, ticket: u64) -> bool
    ensures { result ≡ (row == long_row (kind_of_row row) ticket) }
{
    let kind = row.saturating_sub(10242) / 1000;
    row as u128 == 10242 + 1000 * (kind as u128) + (ticket % 1000) as u128
}

fn is_above(ticket: u64, greater: u64, own: bool, same: bool, put: bool) -> bool
    ensures { result ≡ (nat_lt ticket greater && (own && (same && put))) }
{
    ticket < greater && (own && (same && put))
}

/// Whether a `late` line of a row, with its ticket and the greater one that was there, shows that another session had
/// put that one.
pub(crate) fn is_late(
    puts: &BTreeMap<RowTicket, Vec<PhasedTop>>,
    rows: &RowFloors,
    seat: Seat,
    put: RowTicket,
    greater: u64,
) -> bool
    ensures { (all : List Placed) → (earlier : List Placed) → (place : Placed) → AreRowsOf all earlier rows.now
        → ArePuts all puts.now → NeverFallFrom 0 all → IsSeatOf seat place
        → Tells (IsLate all earlier place put.row put.ticket greater) result }
{
    let floor = rows.floors.floor(seat, put.row as u128);
    let there = RowTicket {
        row: put.row,
        ticket: greater,
    };
    let found = is_put(puts, seat, there, floor);
    let own = is_place_of(put.row, put.ticket);
    let same = is_place_of(put.row, greater);
    is_above(put.ticket, greater, own, same, found)
}
