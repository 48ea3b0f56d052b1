//! What a report prints of each action, kept by the numbers of the actions.

ghost use Rattle.std.specs.Prelude.{ℕ, ◌≡◌, ◌+◌, ◌++◌, ◌∷◌, [], ◌==◌, cond, false, IfOk, OnOk};
ghost use Rattle.pfs_check_setup.specs.PrintedActions.{ArePrinted, IsPrintedMore, count_in, is_moving, sets_in, word_sets};

use crate::NoMemory;
use crate::sets::{WordSet, is_moving, set_in};
use pfs_event::Entry;
use std::alloc::{AllocError, Global};
use std::collections::BTreeMap;

/// The sets of each action, and how many other changes it has.
#[derive(Drop)]
pub struct PrintedActions {
    pub sets: BTreeMap<u64, Vec<WordSet>>,
    pub changes: BTreeMap<u64, u64>,
}

// Takes out the sets of an action.
fn take_sets(alloc: Global, sets: &mut BTreeMap<u64, Vec<WordSet>>, number: u64) -> Vec<WordSet>
    ensures own { result.items ≡ sets_in sets.old number }
    ensures others { (other : ℕ) → (number == other) ≡ false → sets_in sets.new other ≡ sets_in sets.old other }
{
    match sets.remove(&number) {
        Some(own) => own,
        None => Vec::new(alloc),
    }
}

fn keep_sets(
    sets: &mut BTreeMap<u64, Vec<WordSet>>,
    number: u64,
    own: Vec<WordSet>,
) -> Result<(), NoMemory>
    ensures { OnOk result ((other : ℕ) → sets_in sets.new other
        ≡ cond (number == other) own.items (sets_in sets.old other)) }
{
    sets.insert(number, own)?;
    Ok(())
}

fn push_set(
    alloc: Global,
    sets: &mut BTreeMap<u64, Vec<WordSet>>,
    number: u64,
    set: WordSet,
) -> Result<(), NoMemory>
    ensures { OnOk result ((other : ℕ) → sets_in sets.new other
        ≡ cond (number == other) (sets_in sets.old number ++ set ∷ []) (sets_in sets.old other)) }
{
    let mut own = take_sets(alloc, sets, number);
    own.push(set)?;
    keep_sets(sets, number, own)
}

// How often a key was counted.
pub(crate) fn count_in(counts: &BTreeMap<u64, u64>, key: u64) -> u64
    ensures { result ≡ count_in counts.now key }
{
    counts.get(&key).copied().unwrap_or(0)
}

/// One more. NoMemory stands too for more than can be counted, which no memory holds.
pub(crate) fn one_more(count: u64) -> Result<u64, NoMemory>
    ensures { IfOk result (λ all. all ≡ count + 1) }
{
    match count.checked_add(1) {
        Some(all) => Ok(all),
        None => Err(AllocError),
    }
}

/// Counts a key once more. NoMemory stands too for more than can be counted, which no memory holds.
pub(crate) fn count_one(counts: &mut BTreeMap<u64, u64>, key: u64) -> Result<(), NoMemory>
    ensures { OnOk result ((other : ℕ) → count_in counts.new other
        ≡ cond (key == other) (count_in counts.old key + 1) (count_in counts.old other)) }
{
    let count = one_more(count_in(counts, key))?;
    counts.insert(key, count)?;
    Ok(())
}

fn no_sets(alloc: Global) -> BTreeMap<u64, Vec<WordSet>>
    ensures { (number : ℕ) → sets_in result number ≡ [] }
{
    BTreeMap::new(alloc)
}

/// Nothing counted yet. It takes no memory.
pub(crate) fn no_counts(alloc: Global) -> BTreeMap<u64, u64>
    ensures { (key : ℕ) → count_in result key ≡ 0 }
{
    BTreeMap::new(alloc)
}

// The set that an entry is, if it is one.
fn note_set(
    alloc: Global,
    sets: &mut BTreeMap<u64, Vec<WordSet>>,
    action: u64,
    entry: &Entry,
) -> Result<(), NoMemory>
    ensures { OnOk result ((number : ℕ) → sets_in sets.new number
        ≡ sets_in sets.old number ++ cond (action == number) (word_sets entry.now) []) }
{
    match set_in(entry) {
        Some(set) => push_set(alloc, sets, action, set),
        None => Ok(()),
    }
}

// The other change that it is.
fn note_change(changes: &mut BTreeMap<u64, u64>, action: u64, entry: &Entry) -> Result<(), NoMemory>
    ensures { OnOk result ((number : ℕ) → count_in changes.new number
        ≡ count_in changes.old number + cond (action == number) (cond (is_moving entry.now) 1 0) 0) }
{
    if is_moving(entry) {
        return count_one(changes, action);
    }
    Ok(())
}

impl PrintedActions {
    /// Of no entries. It takes no memory.
    pub(crate) fn new(alloc: Global) -> PrintedActions
        ensures { ArePrinted [] result }
    {
        PrintedActions {
            sets: no_sets(alloc),
            changes: no_counts(alloc),
        }
    }

    /// One entry more of an action; 0 is none. Err where memory runs out.
    pub(crate) fn note(&mut self, alloc: Global, action: u64, entry: &Entry) -> Result<(), NoMemory>
        ensures { OnOk result (IsPrintedMore self.old self.new action entry.now) }
    {
        note_set(alloc, &mut self.sets, action, entry)?;
        note_change(&mut self.changes, action, entry)?;
        Ok(())
    }
}
