//! Adding an amount with what is held for its row, or holding both.

ghost use Rattle.std.specs.Prelude.{◌≡◌, ◌<◌, ◌≤◌, ◌+◌, ◌-◌, ◌++◌, ◌∷◌, [], ℕ, Option, None, length, slice_set};
ghost use Rattle.pfs_levels.specs.Calls.{Goes, Adds};
ghost use Rattle.pfs_levels.specs.Views.{Kept};
ghost use Rattle.pfs_session.specs.SessionStates.{held_row, held_at};
ghost use Rattle.pfs_session.specs.Ends.{with_held};
ghost use Rattle.pfs_session.specs.RowAmounts.{Brings};

use pfs_event::Entry;
use pfs_levels::{Added, Log, Rows};
use pfs_rows::CELLS;
use pfs_stat::Stat;

/// The row of a cell's number: of the thread in this slot, a global one, or a digest's.
pub(crate) fn held_row(slot: u64, cell: u64) -> u64
    requires slot { slot < 32 }
    requires cell { cell < 193 }
    ensures row { result ≡ held_row slot cell }
    ensures low { 129 ≤ result }
    ensures high { result < 8450 }
{
    if cell < CELLS {
        129 + CELLS * slot + cell
    } else {
        8_257 + cell
    }
}

fn with_held(held: Option<Stat>, amount: Stat) -> Stat
    ensures { result ≡ with_held held amount }
{
    match held {
        Some(held) => held.merge(amount),
        None => amount,
    }
}

/// Adds an amount, with what is held for its row, or holds both where another actor has the row in hand.
#[inline(always)]
pub(crate) fn bring<R: Rows>(
    rows: &mut R,
    slot: u64,
    cell: u64,
    amount: Stat,
    held: &mut [Option<Stat>],
    log: &mut Log,
) -> Added
    requires slot { slot < 32 }
    requires cell { cell < 193 }
    requires wide { length held.old ≡ 193 }
    requires alone { (r : ℕ) → 0 < r → (R.seen rows.old).hand r ≡ None }
    requires spare { 1 ≤ (R.seen rows.old).left }
    requires room { 1 ≤ log.old.room }
    ensures brings { Brings slot cell amount held.old held.new result log.old log.new (R.seen rows.old).reached
        (R.seen rows.new).reached }
    ensures kept { Kept 1 0 (R.seen rows.old) (R.seen rows.new) }
    ensures room { log.new.room ≡ log.old.room - 1 }
{
    let amount = with_held(held[cell as usize], amount);
    let answer = rows.add_try(held_row(slot, cell), &amount);
    match answer {
        Added::Counted { row, version } => {
            held[cell as usize] = None;
            log.push(Entry::Add { row, version });
        }
        Added::Held { row, first, second } => {
            held[cell as usize] = Some(amount);
            log.push(Entry::Held { row, first, second });
        }
    }
    answer
}
