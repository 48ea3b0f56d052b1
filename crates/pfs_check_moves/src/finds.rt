//! What the takes of an action find, by the contents that are kept.

ghost use Rattle.std.specs.Prelude.{ℕ, ◌≡◌, ◌-◌, ◌==◌, cond, Some, None, IfOk, OnOk};
ghost use Rattle.std.specs.BTreeMap.{get};
ghost use Rattle.std.specs.Ordering.{nat_cmp};
ghost use Rattle.pfs_law_made.specs.MadeContents.{counts_at};
ghost use Rattle.pfs_check_moves.specs.FoundTakes.{counted_in, found_at, found_in, first_of};

use crate::NoMemory;
use pfs_check_contents::Shelf;
use pfs_event::Entry;
use pfs_stat::Stat;
use std::alloc::Global;
use std::collections::BTreeMap;

/// Whether what is kept of a row before this version has counted something.
pub(crate) fn counts_before(shelf: &Shelf, row: u64, version: u64) -> bool
    ensures { result ≡ counts_at shelf.now row (version - 1) }
{
    let words = shelf.content(row, version.saturating_sub(1));
    Stat::of_words(&words).count != 0
}

// Keeps what a take of a row finds, where none took it before.
fn keep_first(found: &mut BTreeMap<u64, bool>, row: u64, counted: bool) -> Result<(), NoMemory>
    ensures { OnOk result ((other : ℕ) → get nat_cmp found.new other
        ≡ first_of (get nat_cmp found.old other) (cond (row == other) (Some counted) None)) }
{
    if found.contains_key(&row) {
        return Ok(());
    }
    found.insert(row, counted)?;
    Ok(())
}

fn note_take(found: &mut BTreeMap<u64, bool>, shelf: &Shelf, entry: &Entry) -> Result<(), NoMemory>
    ensures { OnOk result ((row : ℕ) → get nat_cmp found.new row
        ≡ first_of (get nat_cmp found.old row) (found_at shelf.now entry.now row)) }
{
    match *entry {
        Entry::Take { row, version } => {
            keep_first(found, row, counts_before(shelf, row, version))
        }
        _ => Ok(()),
    }
}

fn none_found(alloc: Global) -> BTreeMap<u64, bool>
    ensures { (row : ℕ) → get nat_cmp result row ≡ None }
{
    BTreeMap::new(alloc)
}

/// What the first take of each row among these entries finds. Err where memory runs out.
pub(crate) fn find_takes(
    alloc: Global,
    shelf: &Shelf,
    entries: &[Entry],
) -> Result<BTreeMap<u64, bool>, NoMemory>
    ensures { IfOk result (λ found. (row : ℕ) → get nat_cmp found row ≡ found_in shelf.now entries.now row) }
{
    let mut found = none_found(alloc);
    for entry in entries {
        note_take(&mut found, shelf, entry)?;
    }
    Ok(found)
}

/// Whether something was found in a row.
pub(crate) fn counted_in(found: &BTreeMap<u64, bool>, row: u64) -> bool
    ensures { result ≡ counted_in found.now row }
{
    found.get(&row).copied().unwrap_or(false)
}
