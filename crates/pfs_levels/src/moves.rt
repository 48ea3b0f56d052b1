//! Moves of numbers from row to row, over any store that can be held.

ghost use Rattle.std.specs.Prelude.{◌≡◌, ◌<◌, ◌≤◌, ◌+◌, ◌∷◌, [], Option, length};
ghost use Rattle.pfs_rows.specs.Rows.{IsPlace, row_number};
ghost use Rattle.pfs_levels.specs.Moves.{ask, targets_of, some_list, Moved, Emptied, Given, Purged, AskIsAway, IsAway, AreAway, Stays};

use crate::places::Targets;
use crate::store::Hold;
use pfs_event::{Entry, Log};
use pfs_rows::{Place, row_of};
use pfs_stat::{Stat, zero};

/// Takes a row, publishes zero there, and gives what it found to each target in their order, where its count isn't 0.
/// The log gets the take and then each gift.
pub fn move_up<H: Hold>(rows: &mut H, from: u64, to: &Targets, log: &mut Log)
    requires away { AskIsAway (H.seen rows.old).hand (ask from (targets_of to.now)) }
    requires spare { 1 + length (targets_of to.now) ≤ (H.seen rows.old).left }
    requires room { 1 + length (targets_of to.now) ≤ log.old.room }
    ensures moved { Moved (ask from (targets_of to.now) ∷ []) log.old log.new (H.seen rows.old).reached
        (H.seen rows.new).reached }
    ensures stays { Stays (1 + length (targets_of to.now)) (H.seen rows.old) (H.seen rows.new) log.old log.new }
{
    let found = empty(rows, from, log);
    if found.count == 0 {
        return;
    }
    give_all(rows, from, to, &found, log);
}

/// Takes a row and publishes zero there. The log gets the take.
pub fn clear<H: Hold>(rows: &mut H, row: u64, log: &mut Log)
    requires away { IsAway (H.seen rows.old).hand row }
    requires spare { 1 ≤ (H.seen rows.old).left }
    requires room { 1 ≤ log.old.room }
    ensures moved { Moved (ask row [] ∷ []) log.old log.new (H.seen rows.old).reached (H.seen rows.new).reached }
    ensures stays { Stays 1 (H.seen rows.old) (H.seen rows.new) log.old log.new }
{
    let _ = empty(rows, row, log);
}

/// Takes the row of a place and releases it as free. The log gets the release.
pub fn purge<H: Hold>(rows: &mut H, place: Place, log: &mut Log)
    requires place { IsPlace place }
    requires away { IsAway (H.seen rows.old).hand (row_number place) }
    requires spare { 1 ≤ (H.seen rows.old).left }
    requires room { 1 ≤ log.old.room }
    ensures purged { Purged (row_number place) log.old log.new (H.seen rows.old).reached (H.seen rows.new).reached }
    ensures stays { Stays 1 (H.seen rows.old) (H.seen rows.new) log.old log.new }
{
    let row = row_of(place);
    let (version, _) = rows.take(row);
    rows.free(row);
    log.push(Entry::Free { row, version });
}

// Takes a row and leaves it as zero: the numbers that it held.
fn empty<H: Hold>(rows: &mut H, from: u64, log: &mut Log) -> Stat
    requires away { IsAway (H.seen rows.old).hand from }
    requires spare { 1 ≤ (H.seen rows.old).left }
    requires room { 1 ≤ log.old.room }
    ensures emptied { Emptied from result log.old log.new (H.seen rows.old).reached (H.seen rows.new).reached }
    ensures stays { Stays 1 (H.seen rows.old) (H.seen rows.new) log.old log.new }
{
    let (_, content) = rows.take(from);
    let version = rows.put(from, &zero().to_words());
    log.push(Entry::Take { row: from, version });
    Stat::of_words(&content)
}

// Gives an amount to each target, as what was found in a row.
fn give_all<H: Hold>(rows: &mut H, from: u64, to: &Targets, amount: &Stat, log: &mut Log)
    requires away { AreAway (H.seen rows.old).hand (targets_of to.now) }
    requires spare { length (targets_of to.now) ≤ (H.seen rows.old).left }
    requires room { length (targets_of to.now) ≤ log.old.room }
    ensures given { Given from (targets_of to.now) amount.now log.old log.new (H.seen rows.old).reached
        (H.seen rows.new).reached }
    ensures stays { Stays (length (targets_of to.now)) (H.seen rows.old) (H.seen rows.new) log.old log.new }
{
    give_to(rows, from, to.first, amount, log);
    give_to(rows, from, to.second, amount, log);
}

// Gives an amount to the target, if there is one.
fn give_to<H: Hold>(rows: &mut H, from: u64, to: Option<u64>, amount: &Stat, log: &mut Log)
    requires away { AreAway (H.seen rows.old).hand (some_list to) }
    requires spare { length (some_list to) ≤ (H.seen rows.old).left }
    requires room { length (some_list to) ≤ log.old.room }
    ensures given { Given from (some_list to) amount.now log.old log.new (H.seen rows.old).reached
        (H.seen rows.new).reached }
    ensures stays { Stays (length (some_list to)) (H.seen rows.old) (H.seen rows.new) log.old log.new }
{
    match to {
        Some(row) => give(rows, from, row, amount, log),
        None => {}
    }
}

// Gives an amount to a row.
fn give<H: Hold>(rows: &mut H, from: u64, to: u64, amount: &Stat, log: &mut Log)
    requires away { IsAway (H.seen rows.old).hand to }
    requires spare { 1 ≤ (H.seen rows.old).left }
    requires room { 1 ≤ log.old.room }
    ensures given { Given from (to ∷ []) amount.now log.old log.new (H.seen rows.old).reached
        (H.seen rows.new).reached }
    ensures stays { Stays 1 (H.seen rows.old) (H.seen rows.new) log.old log.new }
{
    let (_, there) = rows.take(to);
    let sum = Stat::of_words(&there).merge(*amount);
    let content = sum.to_words();
    let version = rows.put(to, &content);
    log.push(Entry::Give {
        row: to,
        version,
        source: from,
    });
}
