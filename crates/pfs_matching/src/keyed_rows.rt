//! The rows of a table in the order of their keys, with room for 100.
ghost use Rattle.std.specs.Prelude.{◌≡◌, ℕ, ◌<◌, ◌≤◌, ◌↔◌, [], List, length, map, All, Contains, IsTrue, OnOk, OnErr, Some, slice_get, vec_capacity};
ghost use Rattle.std.specs.List.{list_any, prefix_len};
ghost use Rattle.std.specs.List.Sorted.{IsStrictlyIncreasing};
ghost use Rattle.std.specs.Ordering.{is_eq};
ghost use Rattle.pfs_matching.specs.declared.faults.FlagChange.{FlagChange};
ghost use Rattle.pfs_matching.specs.KeyedRows.{AreRows, comes_before, key_cmp, with_named_changed, with_row, without_named};

use crate::places::remove_places;
use crate::{FlagChange, MatchFault};
use std::cmp::Ordering;
use std::marker::Model;

/// The most rows of a table. The limit is our own.
pub(crate) const MOST_ROWS: usize = 100;

/// A row with a key of texts and two flags.
pub(crate) trait KeyedRow {
    ghost key: { Self → List (List ℕ) };

    ghost changed: { FlagChange → Self → Self };

    /// How the keys of the rows stand to each other.
    fn order(&self, other: &Self) -> Ordering
        ensures { result ≡ key_cmp (key self.now) (key other.now) };

    /// Gives the flags that the change names their new values.
    fn change(&mut self, change: &FlagChange)
        ensures { self.new ≡ changed change.now self.old };

    // A flag is no part of the key.
    ghost keeps: { (change : FlagChange) (row : Self) → key (changed change row) ≡ key row };
}

/// The rows of a table. Contracts see them as a list.
#[derive(Drop)]
pub(crate) struct KeyedRows<R: KeyedRow + Drop> {
    rows: Vec<R>,
}

impl<R: KeyedRow + Drop> Model for KeyedRows<R> {
    ghost use Rattle.std.specs.Prelude.{List, ◌≤◌, vec_capacity};
    ghost use Rattle.pfs_matching.specs.KeyedRows.{AreRows};

    ghost Value = { List R };

    ghost view = { λ a. a.rows.items };

    ghost invariant = { λ a. AreRows R.key a.rows.items × (100 ≤ vec_capacity a.rows) };
}

impl<R: KeyedRow + Drop> KeyedRows<R> {
    /// These rows, which stand in key order and have room for 100.
    pub(crate) fn new(rows: Vec<R>) -> KeyedRows<R>
        requires rows { AreRows R.key rows.items }
        requires room { 100 ≤ vec_capacity rows }
        ensures { result ≡ rows.items }
    {
        KeyedRows { rows }
    }

    /// The rows in key order.
    pub(crate) fn rows(&self) -> &[R]
        ensures value { result.now ≡ self.now }
        ensures rows { AreRows R.key self.now }
    {
        self.rows.as_slice()
    }

    /// Adds a row at its place in key order. It takes no memory. Duplicate is tested before Full, and a refusal
    /// changes nothing.
    pub(crate) fn insert(&mut self, row: R) -> Result<(), MatchFault>
        ensures ok { OnOk result (self.new ≡ with_row R.key row self.old) }
        ensures duplicate { (result ≡ Err MatchFault.Duplicate) ↔ Contains (map R.key self.old) (R.key row) }
        ensures full { (result ≡ Err MatchFault.Full)
            ↔ ((¬ Contains (map R.key self.old) (R.key row)) × (length self.old ≡ 100)) }
        ensures err { OnErr result (self.new ≡ self.old) }
    {
        if has_key(&self.rows, &row) {
            return Err(MatchFault::Duplicate);
        }
        if self.rows.len() == MOST_ROWS {
            return Err(MatchFault::Full);
        }
        let place = place_for(&self.rows, &row);
        match self.rows.insert(place, row) {
            Ok(()) => Ok(()),
            Err(_) => unreachable!(),
        }
    }

    /// Removes the rows at these places, which ascend.
    pub(crate) fn delete(&mut self, keys: &[usize])
        requires inside { All (λ place. place < length self.old) keys.now }
        requires ascending { IsStrictlyIncreasing keys.now }
        ensures { self.new ≡ without_named keys.now self.old }
    {
        remove_places(&mut self.rows, keys);
    }

    /// Changes the flags of the rows at these places, which ascend.
    pub(crate) fn update(&mut self, keys: &[usize], change: &FlagChange)
        requires inside { All (λ place. place < length self.old) keys.now }
        requires ascending { IsStrictlyIncreasing keys.now }
        ensures { self.new ≡ with_named_changed (R.changed change.now) keys.now self.old }
    {
        change_places(&mut self.rows, keys, change);
    }

    /// Removes all rows.
    pub(crate) fn truncate(&mut self)
        ensures { self.new ≡ [] }
    {
        self.rows.clear();
    }
}

fn change_places<R: KeyedRow>(rows: &mut Vec<R>, places: &[usize], change: &FlagChange)
    requires inside { All (λ place. place < length rows.old.items) places.now }
    requires ascending { IsStrictlyIncreasing places.now }
    ensures rows { rows.new.items ≡ with_named_changed (R.changed change.now) places.now rows.old.items }
    ensures room { vec_capacity rows.new ≡ vec_capacity rows.old }
{
    for place in places {
        rows[*place].change(change);
    }
}

// Whether a row with this row's key is there.
fn has_key<R: KeyedRow>(rows: &[R], row: &R) -> bool
    ensures { IsTrue result ↔ Contains (map R.key rows.now) (R.key row.now) }
{
    any_equal(rows, row)
}

fn any_equal<R: KeyedRow>(rows: &[R], row: &R) -> bool
    ensures { result ≡ list_any (λ other. is_eq (key_cmp (R.key other) (R.key row.now))) rows.now }
{
    rows.iter().any(|other| other.order(row).is_eq())
}

// How many rows come before this one.
fn place_for<R: KeyedRow>(rows: &[R], row: &R) -> usize
    ensures { result ≡ prefix_len (λ other. comes_before R.key other row.now) rows.now }
{
    rows.iter()
        .take_while(|other| other.order(row).is_lt())
        .count()
}
