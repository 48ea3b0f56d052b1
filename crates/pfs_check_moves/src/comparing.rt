//! The first change of an action that isn't as it is due.

ghost use Rattle.std.specs.Prelude.{◌≡◌};
ghost use Rattle.pfs_model.specs.ActionAsks.{did};
ghost use Rattle.pfs_check_walk.specs.NumberTests.{Tells};
ghost use Rattle.pfs_check_moves.specs.DueMoves.{IsDueAt, IsFirstMiss};
ghost use Rattle.pfs_check_moves.specs.EntryDeeds.{done_by};
ghost use Rattle.pfs_check_moves.specs.FoundTakes.{FindsAs, counted_in};

use crate::finds::{counted_in, counts_before};
use pfs_check_contents::Shelf;
use pfs_event::Entry;
use std::collections::BTreeMap;

/// What an entry does, whatever its version.
#[derive(Clone, Copy, Debug, PartialEq, Eq)]
pub(crate) enum Deed {
    Take { row: u64 },
    Give { row: u64, from: u64 },
    Free { row: u64 },
    Tag { row: u64 },
    Set { word: u64, flags: u64 },
    Nothing,
}

fn deed_of(entry: &Entry) -> Deed
    ensures { done_by result ≡ did entry.now }
{
    match *entry {
        Entry::Take { row, .. } => Deed::Take { row },
        Entry::Give { row, source, .. } => Deed::Give { row, from: source },
        Entry::Free { row, .. } => Deed::Free { row },
        Entry::Tag { row, .. } => Deed::Tag { row },
        Entry::Set { word, flags, .. } => Deed::Set { word, flags },
        _ => Deed::Nothing,
    }
}

fn does_same(one: &Entry, other: &Entry) -> bool
    ensures { Tells (did one.now ≡ did other.now) result }
{
    deed_of(one) == deed_of(other)
}

// Whether a take finds what is said of its row.
fn finds_as(shelf: &Shelf, found: &BTreeMap<u64, bool>, entry: &Entry) -> bool
    ensures { Tells (FindsAs shelf.now (counted_in found.now) entry.now) result }
{
    match *entry {
        Entry::Take { row, version } => {
            counted_in(found, row) == counts_before(shelf, row, version)
        }
        _ => true,
    }
}

// Whether an entry is as it is due at a place.
fn is_due_at(
    shelf: &Shelf,
    found: &BTreeMap<u64, bool>,
    due: &[Entry],
    at: usize,
    entry: &Entry,
) -> bool
    ensures { Tells (IsDueAt shelf.now (counted_in found.now) due.now at entry.now) result }
{
    match due.get(at) {
        Some(one) => does_same(one, entry) && finds_as(shelf, found, entry),
        None => false,
    }
}

/// The first place at which the entries that are printed aren't as they are due; None where all are.
pub(crate) fn first_miss(
    shelf: &Shelf,
    found: &BTreeMap<u64, bool>,
    due: &[Entry],
    printed: &[Entry],
) -> Option<usize>
    ensures { IsFirstMiss shelf.now (counted_in found.now) due.now printed.now result }
{
    for at in 0..printed.len() {
        let entry = &printed[at];
        if !is_due_at(shelf, found, due, at, entry) {
            return Some(at);
        }
    }
    let is_short = printed.len() < due.len();
    if is_short {
        return Some(printed.len());
    }
    None
}
