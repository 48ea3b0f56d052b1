//! Adding all that a session holds back.

ghost use Rattle.std.specs.Prelude.{◌≡◌, ◌<◌, ◌≤◌, ◌∷◌, [], ℕ, None, IfSome, IsTrue, false, length};
ghost use Rattle.pfs_levels.specs.Views.{Used};
ghost use Rattle.pfs_levels.specs.Moves.{IsAway, Stays};
ghost use Rattle.pfs_session.specs.SessionStates.{nothing_held, owed_of};
ghost use Rattle.pfs_session.specs.Settlements.{Pays, PaysAll, owed_from, owed_in, settle_cost};

use crate::adding::held_row;
use pfs_event::Entry;
use pfs_levels::{Hold, Log};
use pfs_stat::Stat;

/// Adds all that a session in this slot holds back, in the order of the rows. The log gets `settle`, where there is
/// something, and the additions.
pub(crate) fn settle_all<H: Hold>(
    rows: &mut H,
    slot: Option<u64>,
    held: &[Option<Stat>],
    log: &mut Log,
)
    requires slot { IfSome slot (λ n. n < 32) }
    requires wide { length held.now ≡ 193 }
    requires alone { (r : ℕ) → 0 < r → (H.seen rows.old).hand r ≡ None }
    requires spare { length (owed_in slot held.now) ≤ (H.seen rows.old).left }
    requires room { settle_cost (owed_in slot held.now) ≤ log.old.room }
    ensures pays { PaysAll (owed_in slot held.now) log.old log.new (H.seen rows.old).reached
        (H.seen rows.new).reached }
    ensures used { Used (length (owed_in slot held.now)) 0 (settle_cost (owed_in slot held.now)) (H.seen rows.old)
        (H.seen rows.new) log.old log.new }
{
    let Some(slot) = slot else {
        return;
    };
    if is_empty(slot, held) {
        return;
    }
    log.push(Entry::Settle);
    pay_all(rows, slot, held, log);
}

// Adds each amount that is held to its row. The log gets the additions.
fn pay_all<H: Hold>(rows: &mut H, slot: u64, held: &[Option<Stat>], log: &mut Log)
    requires slot { slot < 32 }
    requires wide { length held.now ≡ 193 }
    requires alone { (r : ℕ) → 0 < r → (H.seen rows.old).hand r ≡ None }
    requires spare { length (owed_from slot 0 held.now) ≤ (H.seen rows.old).left }
    requires room { length (owed_from slot 0 held.now) ≤ log.old.room }
    ensures pays { Pays (owed_from slot 0 held.now) log.old log.new (H.seen rows.old).reached
        (H.seen rows.new).reached }
    ensures stays { Stays (length (owed_from slot 0 held.now)) (H.seen rows.old) (H.seen rows.new) log.old log.new }
{
    for (cell, amount) in held.iter().enumerate() {
        pay_some(rows, slot, cell as u64, amount, log);
    }
}

// Adds what is held for a cell, if something is.
fn pay_some<H: Hold>(rows: &mut H, slot: u64, cell: u64, held: &Option<Stat>, log: &mut Log)
    requires slot { slot < 32 }
    requires cell { cell < 193 }
    requires alone { (r : ℕ) → 0 < r → (H.seen rows.old).hand r ≡ None }
    requires spare { length (owed_of slot cell held.now) ≤ (H.seen rows.old).left }
    requires room { length (owed_of slot cell held.now) ≤ log.old.room }
    ensures pays { Pays (owed_of slot cell held.now) log.old log.new (H.seen rows.old).reached
        (H.seen rows.new).reached }
    ensures stays { Stays (length (owed_of slot cell held.now)) (H.seen rows.old) (H.seen rows.new) log.old log.new }
{
    if let Some(amount) = held {
        pay(rows, held_row(slot, cell), amount, log);
    }
}

// Adds an amount to a row.
fn pay<H: Hold>(rows: &mut H, row: u64, amount: &Stat, log: &mut Log)
    requires away { IsAway (H.seen rows.old).hand row }
    requires spare { 1 ≤ (H.seen rows.old).left }
    requires room { 1 ≤ log.old.room }
    ensures pays { Pays (record { row = row; amount = amount.now } ∷ []) log.old log.new (H.seen rows.old).reached
        (H.seen rows.new).reached }
    ensures stays { Stays 1 (H.seen rows.old) (H.seen rows.new) log.old log.new }
{
    let (_, found) = rows.take(row);
    let sum = Stat::of_words(&found).merge(*amount);
    let version = rows.put(row, &sum.to_words());
    log.push(Entry::Add { row, version });
}

/// Holds nothing any more.
pub(crate) fn clear(held: &mut [Option<Stat>])
    requires { length held.old ≡ 193 }
    ensures { held.new ≡ nothing_held }
{
    for one in held.iter_mut() {
        *one = None;
    }
}

// Whether nothing is held.
fn is_empty(slot: u64, held: &[Option<Stat>]) -> bool
    ensures empty { IsTrue result → owed_from slot 0 held.now ≡ [] }
    ensures some { result ≡ false → 0 < length (owed_from slot 0 held.now) }
{
    for one in held {
        if one.is_some() {
            return false;
        }
    }
    true
}
