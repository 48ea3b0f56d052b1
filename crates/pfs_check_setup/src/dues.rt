//! The sets that are due of an action, by what it asks for.

ghost use Rattle.std.specs.Prelude.{ℕ, ◌≡◌, ◌+◌, ◌≤◌, ◌++◌, length, cond, IfOk, OnOk};
ghost use Rattle.pfs_model.specs.Chains.{times};
ghost use Rattle.pfs_check_orders.specs.ActionOrders.{entries_in};
ghost use Rattle.pfs_check_setup.specs.DueSets.{due_at, dues_by, is_set_of};
ghost use Rattle.pfs_check_setup.specs.PrintedActions.{count_in};

use crate::NoMemory;
use crate::printed::{count_in, count_one, one_more};
use crate::sets::WordSet;
use pfs_check_orders::Order;
use pfs_event::{Entry, Log};
use std::alloc::Global;
use std::collections::BTreeMap;

// Puts the set that an entry asks for, if it does, at the version behind those that were asked for.
fn push_due(
    due: &mut Vec<WordSet>,
    counts: &BTreeMap<u64, u64>,
    entry: &Entry,
) -> Result<(), NoMemory>
    ensures { OnOk result (due.new.items ≡ due.old.items ++ due_at counts.now entry.now) }
{
    match *entry {
        Entry::Set { word, flags, .. } => {
            let version = one_more(count_in(counts, word))?;
            due.push(WordSet {
                word,
                version,
                flags,
            })?;
            Ok(())
        }
        _ => Ok(()),
    }
}

/// The sets that are due of an action, where its words were asked for so often before. Err where memory runs out.
pub(crate) fn due_sets(
    alloc: Global,
    counts: &BTreeMap<u64, u64>,
    entries: &Log,
    order: Order,
) -> Result<Vec<WordSet>, NoMemory>
    ensures { order.end ≤ length entries.now.entries
        → IfOk result (λ due. due.items ≡ dues_by counts.now (entries_in entries.now.entries order)) }
{
    let end = order.end.min(entries.count());
    let mut due = Vec::new(alloc);
    for place in order.start..end {
        push_due(&mut due, counts, &entries.entry(place))?;
    }
    Ok(due)
}

fn count_set(counts: &mut BTreeMap<u64, u64>, entry: &Entry) -> Result<(), NoMemory>
    ensures { OnOk result ((word : ℕ) → count_in counts.new word
        ≡ cond (is_set_of word entry.now) 1 0 + count_in counts.old word) }
{
    match *entry {
        Entry::Set { word, .. } => count_one(counts, word),
        _ => Ok(()),
    }
}

/// Counts the words that an action asks to set. Err where memory runs out.
pub(crate) fn count_sets(
    counts: &mut BTreeMap<u64, u64>,
    entries: &Log,
    order: Order,
) -> Result<(), NoMemory>
    ensures { order.end ≤ length entries.now.entries
        → OnOk result ((word : ℕ) → count_in counts.new word
        ≡ times (is_set_of word) (entries_in entries.now.entries order) + count_in counts.old word) }
{
    let end = order.end.min(entries.count());
    for place in order.start..end {
        count_set(counts, &entries.entry(place))?;
    }
    Ok(())
}
