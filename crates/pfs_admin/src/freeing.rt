//! Places of rings that are released.

ghost use Rattle.std.specs.Prelude.{◌≡◌, ◌<◌, ◌≤◌, ◌+◌, ◌*◌, cond, [], ℕ, Option, None};
ghost use Rattle.pfs_levels.specs.declared.places.Level.TheVariants as levels;
ghost use Rattle.pfs_levels.specs.Moves.{Stays};
ghost use Rattle.pfs_admin.specs.Works.{Signed};
ghost use Rattle.pfs_admin.specs.Truncations.{current_first, current_count, event_most, event_signs, free_ring, free_rows, free_threads, is_there};

use crate::emptying::source_at;
use crate::signs::release;
use pfs_containers::Containers;
use pfs_levels::{Hold, Level, Log};
use pfs_rows::{
    CURRENT_PLACES, EventTable, HISTORY_PLACES, LONG_HISTORY, LONG_PLACES, RING_PLACES, RINGS,
    TableKind,
};

/// Releases all places of a thread's ring, ascending, also those that are free. The log gets the releases.
pub(crate) fn release_ring<H: Hold>(rows: &mut H, slot: u64, log: &mut Log)
    requires alone { (r : ℕ) → 0 < r → (H.seen rows.old).hand r ≡ None }
    requires slot { slot < 32 }
    requires spare { 56 ≤ (H.seen rows.old).left }
    requires room { 56 ≤ log.old.room }
    ensures signed { Signed (free_ring slot) log.old log.new (H.seen rows.old).reached (H.seen rows.new).reached }
    ensures stays { Stays 56 (H.seen rows.old) (H.seen rows.new) log.old log.new }
{
    release_rows(rows, RINGS + RING_PLACES * slot, RING_PLACES, log);
}

/// Releases the places of an event table: those of each live thread, or all places of a long history. The log gets the
/// releases.
pub(crate) fn release_events<H: Hold>(
    rows: &mut H,
    containers: &Containers,
    kind: TableKind,
    table: EventTable,
    log: &mut Log,
)
    requires alone { (r : ℕ) → 0 < r → (H.seen rows.old).hand r ≡ None }
    requires spare { event_most table ≤ (H.seen rows.old).left }
    requires room { event_most table ≤ log.old.room }
    ensures signed { Signed (event_signs (is_there containers.now.now.places levels.Thread) kind table) log.old log.new
        (H.seen rows.old).reached (H.seen rows.new).reached }
    ensures stays { Stays (event_most table) (H.seen rows.old) (H.seen rows.new) log.old log.new }
{
    match table {
        EventTable::Current => {
            release_threads(
                rows,
                containers,
                current_first(kind),
                current_count(kind),
                log,
            );
        }
        EventTable::History => {
            let first = CURRENT_PLACES + HISTORY_PLACES * kind.number();
            release_threads(rows, containers, first, HISTORY_PLACES, log);
        }
        EventTable::HistoryLong => {
            let first = LONG_HISTORY + LONG_PLACES * kind.number();
            release_rows(rows, first, LONG_PLACES, log);
        }
    }
}

// Where a kind's current places begin in a thread's ring.
fn current_first(kind: TableKind) -> u64
    ensures first { result ≡ current_first kind }
    ensures few { result ≤ 15 }
{
    match kind {
        TableKind::Waits => 0,
        TableKind::Stages => 4,
        TableKind::Statements => 5,
        TableKind::Transactions => 15,
    }
}

// How many current places a kind has.
fn current_count(kind: TableKind) -> u64
    ensures count { result ≡ current_count kind }
    ensures few { result ≤ 10 }
{
    match kind {
        TableKind::Waits => 4,
        TableKind::Stages | TableKind::Transactions => 1,
        TableKind::Statements => 10,
    }
}

// Releases so many places from this one on of the ring of each live thread.
fn release_threads<H: Hold>(
    rows: &mut H,
    containers: &Containers,
    first: u64,
    count: u64,
    log: &mut Log,
)
    requires alone { (r : ℕ) → 0 < r → (H.seen rows.old).hand r ≡ None }
    requires first { first ≤ 46 }
    requires count { count ≤ 10 }
    requires spare { 320 ≤ (H.seen rows.old).left }
    requires room { 320 ≤ log.old.room }
    ensures signed { Signed (free_threads (is_there containers.now.now.places levels.Thread) first count) log.old
        log.new (H.seen rows.old).reached (H.seen rows.new).reached }
    ensures stays { Stays 320 (H.seen rows.old) (H.seen rows.new) log.old log.new }
{
    for slot in 0..32 {
        let there = source_at(containers, Level::Thread, slot).is_some();
        release_slot(rows, there, slot, first, count, log);
    }
}

// Releases so many places of a thread's ring, where one is there.
#[tactic(auto, using(crate::proofs::LevelMoves::stays_nothing, crate::proofs::SignLists::signed_none))]
fn release_slot<H: Hold>(
    rows: &mut H,
    there: bool,
    slot: u64,
    first: u64,
    count: u64,
    log: &mut Log,
)
    requires alone { (r : ℕ) → 0 < r → (H.seen rows.old).hand r ≡ None }
    requires slot { slot < 32 }
    requires first { first ≤ 46 }
    requires count { count ≤ 10 }
    requires spare { 10 ≤ (H.seen rows.old).left }
    requires room { 10 ≤ log.old.room }
    ensures signed { Signed (cond there (free_rows (8450 + 56 * slot + first) count) []) log.old log.new
        (H.seen rows.old).reached (H.seen rows.new).reached }
    ensures stays { Stays 10 (H.seen rows.old) (H.seen rows.new) log.old log.new }
{
    if there {
        release_rows(rows, RINGS + RING_PLACES * slot + first, count, log);
    }
}

// Releases so many rows from this one on.
fn release_rows<H: Hold>(rows: &mut H, first: u64, count: u64, log: &mut Log)
    requires alone { (r : ℕ) → 0 < r → (H.seen rows.old).hand r ≡ None }
    requires low { 0 < first }
    requires high { first + count ≤ 14242 }
    requires spare { count ≤ (H.seen rows.old).left }
    requires room { count ≤ log.old.room }
    ensures signed { Signed (free_rows first count) log.old log.new (H.seen rows.old).reached
        (H.seen rows.new).reached }
    ensures stays { Stays count (H.seen rows.old) (H.seen rows.new) log.old log.new }
{
    for place in 0..count {
        release(rows, first + place, log);
    }
}
