//! The tickets of rows by their versions: no greater one is replaced, unless its row was released.

ghost use Rattle.std.specs.Prelude.{◌≡◌, ◌<◌, ◌∷◌, ◌||◌, [], List, cond, true, OnOk};
ghost use Rattle.std.specs.BTreeSet.{contains};
ghost use Rattle.pfs_check_faults.specs.RingFaults.{LongRisesAt};
ghost use Rattle.pfs_check_walk.specs.NumberTests.{Tells};
ghost use Rattle.pfs_model.specs.declared.changes.Change.{Change};
ghost use Rattle.pfs_model.specs.Chains.{is_that};
ghost use Rattle.pfs_model.specs.EntryPlaces.{Placed};
ghost use Rattle.pfs_check_tickets.specs.declared.rising.RowPut.{RowPut};
ghost use Rattle.pfs_check_tickets.specs.RisingPuts.{AreFreedOf, ArePutsOf, AreTicketsOf, HasRelease, IsLastBelow, change_cmp, is_same_put, put_cmp, put_in, RisesAfter};

use crate::NoMemory;
use pfs_check_floors::release_in;
use pfs_event::Entry;
use pfs_model::Change;
use std::alloc::Global;
use std::collections::BTreeSet;
use std::ops::Bound;

/// A ticket that was put to a row, at a version.
#[derive(Clone, Copy, Debug, PartialEq, Eq, PartialOrd, Ord)]
pub struct RowPut {
    pub row: u64,
    pub version: u64,
    pub ticket: u64,
}

/// The tickets of a report by rows and versions, and the releases of its rows.
#[derive(Debug, Drop)]
pub struct LongTickets {
    pub puts: BTreeSet<RowPut>,
    pub releases: BTreeSet<Change>,
}

// The ticket that an entry puts.
fn put_in(entry: &Entry) -> Option<RowPut>
    ensures { result ≡ put_in entry.now }
{
    match *entry {
        Entry::Long {
            row,
            version,
            ticket,
        } => Some(RowPut {
            row,
            version,
            ticket,
        }),
        _ => None,
    }
}

fn add_put(puts: &mut BTreeSet<RowPut>, put: RowPut) -> Result<(), NoMemory>
    ensures { OnOk result ((other : RowPut) → contains put_cmp puts.new other
        ≡ cond (is_same_put put other) true (contains put_cmp puts.old other)) }
{
    puts.insert(put)?;
    Ok(())
}

fn add_release(releases: &mut BTreeSet<Change>, release: Change) -> Result<(), NoMemory>
    ensures { OnOk result ((other : Change) → contains change_cmp releases.new other
        ≡ cond (is_that other release) true (contains change_cmp releases.old other)) }
{
    releases.insert(release)?;
    Ok(())
}

fn note_put(puts: &mut BTreeSet<RowPut>, entry: &Entry) -> Result<(), NoMemory>
    ensures { OnOk result ((earlier : List Placed) → (place : Placed) → place.entry ≡ entry.now
        → ArePutsOf earlier puts.old → ArePutsOf (place ∷ earlier) puts.new) }
{
    match put_in(entry) {
        Some(put) => add_put(puts, put),
        None => Ok(()),
    }
}

fn note_release(releases: &mut BTreeSet<Change>, entry: &Entry) -> Result<(), NoMemory>
    ensures { OnOk result ((earlier : List Placed) → (place : Placed) → place.entry ≡ entry.now
        → AreFreedOf earlier releases.old → AreFreedOf (place ∷ earlier) releases.new) }
{
    match release_in(entry) {
        Some(release) => add_release(releases, release),
        None => Ok(()),
    }
}

// Whether a row was released from one version on, below another.
fn has_release(releases: &BTreeSet<Change>, row: u64, low: u64, high: u64) -> bool
    requires { low < high }
    ensures { Tells (HasRelease releases.now row low high) result }
{
    let first = Change { row, version: low };
    let last = Change { row, version: high };
    let mut between = releases.range((Bound::Included(first), Bound::Excluded(last)));
    between.next().is_some()
}

// The last ticket that was put to a row below a version.
fn last_below(puts: &BTreeSet<RowPut>, row: u64, version: u64) -> Option<RowPut>
    ensures { IsLastBelow puts.now row version result }
{
    if version == 0 {
        return None;
    }
    let first = RowPut {
        row,
        version: 0,
        ticket: 0,
    };
    let last = RowPut {
        row,
        version,
        ticket: 0,
    };
    let mut below = puts.range((Bound::Included(first), Bound::Excluded(last)));
    match below.next_back() {
        Some(put) => Some(*put),
        None => None,
    }
}

/// Whether one of two facts holds.
pub(crate) fn either(one: bool, other: bool) -> bool
    ensures { result ≡ (one || other) }
{
    one || other
}

impl LongTickets {
    /// Of no entries. It takes no memory.
    pub(crate) fn new(alloc: Global) -> LongTickets
        ensures { AreTicketsOf [] result }
    {
        LongTickets {
            puts: BTreeSet::new(alloc),
            releases: BTreeSet::new(alloc),
        }
    }

    /// One entry more. Err where memory runs out.
    pub(crate) fn note(&mut self, entry: &Entry) -> Result<(), NoMemory>
        ensures { OnOk result ((earlier : List Placed) → (place : Placed) → place.entry ≡ entry.now
            → AreTicketsOf earlier self.old → AreTicketsOf (place ∷ earlier) self.new) }
    {
        note_put(&mut self.puts, entry)?;
        note_release(&mut self.releases, entry)?;
        Ok(())
    }

    // Whether a ticket is above the one before it at its row, unless that was released.
    fn is_above_last(&self, put: RowPut) -> bool
        ensures { Tells (RisesAfter self.now put) result }
    {
        match last_below(&self.puts, put.row, put.version) {
            Some(last) => {
                let freed = has_release(&self.releases, put.row, last.version, put.version);
                either(last.ticket < put.ticket, freed)
            }
            None => true,
        }
    }

    /// Whether an entry replaces no greater ticket.
    pub(crate) fn rises_at(&self, entry: &Entry) -> bool
        ensures { (all : List Placed) → (earlier : List Placed) → (place : Placed) → AreTicketsOf all self.now
            → place.entry ≡ entry.now → Tells (LongRisesAt all earlier place) result }
    {
        match put_in(entry) {
            Some(put) => self.is_above_last(put),
            None => true,
        }
    }
}
