//! How many puts to its histories each session has written.

ghost use Rattle.std.specs.Prelude.{ℕ, ◌≡◌, ◌+◌, ◌∷◌, [], List, cond, Some, OnOk};
ghost use Rattle.pfs_model.specs.EntryPlaces.{Placed};
ghost use Rattle.pfs_check_brought.specs.declared.histories.HistoryKey.{HistoryKey};
ghost use Rattle.pfs_check_brought.specs.HistoryCounts.{AreHistories, IsHistoryKind, history_count, is_same_history};

use crate::NoMemory;
use crate::rows::history_row;
use pfs_event::Entry;
use std::alloc::{AllocError, Global};
use std::collections::BTreeMap;

/// The history of a kind, of a session in a slot.
#[derive(Clone, Copy, Debug, PartialEq, Eq, PartialOrd, Ord)]
pub struct HistoryKey {
    pub session: u64,
    pub slot: u64,
    pub kind: u64,
}

/// How many puts each has so far.
#[derive(Debug, Drop)]
pub struct HistoryCounts {
    pub counts: BTreeMap<HistoryKey, u64>,
}

// The kind in whose history a row stands, in a slot.
fn kind_in(slot: u64, row: u64) -> Option<u64>
    ensures { IsHistoryKind slot row result }
{
    let first = history_row(slot, 0, 0);
    let place = row as u128;
    if place < first {
        return None;
    }
    let kind = (place - first) / 10;
    Some(kind as u64)
}

fn add_one(counts: &mut BTreeMap<HistoryKey, u64>, key: HistoryKey) -> Result<(), NoMemory>
    ensures { OnOk result ((other : HistoryKey) → history_count counts.new other
        ≡ cond (is_same_history key other) (history_count counts.old other + 1) (history_count counts.old other)) }
{
    let count = counts.get(&key).copied().unwrap_or(0);
    match count.checked_add(1) {
        Some(more) => {
            counts.insert(key, more)?;
            Ok(())
        }
        None => Err(AllocError),
    }
}

impl HistoryCounts {
    /// Of no entries. It takes no memory.
    pub(crate) fn new(alloc: Global) -> HistoryCounts
        ensures { AreHistories [] result }
    {
        HistoryCounts {
            counts: BTreeMap::new(alloc),
        }
    }

    /// How many puts one has.
    pub(crate) fn of(&self, key: HistoryKey) -> u64
        ensures { result ≡ history_count self.now.counts key }
    {
        self.counts.get(&key).copied().unwrap_or(0)
    }

    // A put of a session in a slot, to a row.
    fn put(&mut self, session: u64, slot: u64, row: u64) -> Result<(), NoMemory>
        ensures { OnOk result ((version : ℕ) → (earlier : List Placed) → (place : Placed) → place.session ≡ session
            → place.context.slot ≡ Some slot → place.entry ≡ Entry.Ring row version → AreHistories earlier self.old
            → AreHistories (place ∷ earlier) self.new) }
    {
        match kind_in(slot, row) {
            Some(kind) => add_one(
                &mut self.counts,
                HistoryKey {
                    session,
                    slot,
                    kind,
                },
            ),
            None => Ok(()),
        }
    }

    /// One entry more, in the journal of a session in a slot. Err where memory runs out.
    pub(crate) fn note(
        &mut self,
        session: u64,
        slot: Option<u64>,
        entry: &Entry,
    ) -> Result<(), NoMemory>
        ensures { OnOk result ((earlier : List Placed) → (place : Placed) → place.session ≡ session
            → place.context.slot ≡ slot → place.entry ≡ entry.now → AreHistories earlier self.old
            → AreHistories (place ∷ earlier) self.new) }
    {
        let Some(slot) = slot else {
            return Ok(());
        };
        match *entry {
            Entry::Ring { row, .. } => self.put(session, slot, row),
            _ => Ok(()),
        }
    }
}
