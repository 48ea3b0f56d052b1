//! Whether an entry pays what is due.

ghost use Rattle.std.specs.Prelude.{◌≡◌, ◌&&◌, cond};
ghost use Rattle.pfs_model.specs.EntryAsks.{is_head};
ghost use Rattle.pfs_model.specs.Puts.{Adds, Puts, PutsLong, is_paid};
ghost use Rattle.pfs_check_dues.specs.OwedPuts.{IsSettled, Nothing, Pays, paid_one};
ghost use Rattle.pfs_check_walk.specs.NumberTests.{Tells};
ghost use Rattle.pfs_check_brought.specs.KeptDues.{due_of, owed_of};

use crate::dues::{KeptDue, KeptDues};
use crate::rows::long_row;
use pfs_event::Entry;

/// Whether an entry is one with which a line's or an event's begin.
pub(crate) fn is_head(entry: &Entry) -> bool
    ensures { result ≡ is_head entry.now }
{
    matches!(
        *entry,
        Entry::Connect { .. }
            | Entry::Start { .. }
            | Entry::End { .. }
            | Entry::Settle
            | Entry::Act { .. }
            | Entry::Query
            | Entry::Error { .. }
    )
}

fn adds_to(row: u128, entry: &Entry) -> bool
    ensures { result ≡ is_paid (Adds row) entry.now }
{
    match *entry {
        Entry::Add { row: at, .. } => at as u128 == row,
        Entry::Held { row: at, .. } => at as u128 == row,
        _ => false,
    }
}

fn puts_to(row: u128, entry: &Entry) -> bool
    ensures { result ≡ is_paid (Puts row) entry.now }
{
    match *entry {
        Entry::Ring { row: at, .. } => at as u128 == row,
        Entry::Busy { row: at, .. } => at as u128 == row,
        _ => false,
    }
}

fn puts_long(kind: u64, entry: &Entry) -> bool
    ensures { result ≡ is_paid (PutsLong kind) entry.now }
{
    match *entry {
        Entry::Long { row, ticket, .. } => row as u128 == long_row(kind, ticket),
        Entry::Late { row, ticket, .. } => row as u128 == long_row(kind, ticket),
        Entry::Busy { row, .. } => {
            let first = long_row(kind, 0);
            row as u128 >= first && (row as u128) < first + 1000
        }
        _ => false,
    }
}

fn is_paid(due: KeptDue, entry: &Entry) -> bool
    ensures { result ≡ is_paid (due_of due) entry.now }
{
    match due {
        KeptDue::Adds(row) => adds_to(row, entry),
        KeptDue::Puts(row) => puts_to(row, entry),
        KeptDue::PutsLong(kind) => puts_long(kind, entry),
    }
}

fn both(follows: bool, paid: bool) -> bool
    ensures { result ≡ (follows && paid) }
{
    follows && paid
}

/// Whether an entry pays what is due next, or begins something where nothing is due.
pub(crate) fn pays(owed: Option<KeptDues>, entry: &Entry) -> bool
    ensures { Tells (Pays (owed_of owed) entry.now) result }
{
    let Some(dues) = owed else {
        return true;
    };
    let head = is_head(entry);
    match dues.split() {
        Some(first) => {
            let paid = is_paid(first.due, entry);
            both(!head, paid)
        }
        None => head,
    }
}

/// What is left behind an entry that pays; nothing where it begins something else than an event.
pub(crate) fn left_behind(owed: Option<KeptDues>, entry: &Entry) -> Option<KeptDues>
    ensures { owed_of result ≡ cond (is_head entry.now) Nothing (paid_one (owed_of owed)) }
{
    let head = is_head(entry);
    if head {
        return None;
    }
    let Some(dues) = owed else {
        return None;
    };
    match dues.split() {
        Some(first) => Some(first.rest),
        None => owed,
    }
}

/// Whether nothing is left.
pub(crate) fn is_settled(owed: Option<KeptDues>) -> bool
    ensures { Tells (IsSettled (owed_of owed)) result }
{
    match owed {
        Some(dues) => dues.split().is_none(),
        None => true,
    }
}
