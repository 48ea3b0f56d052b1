//! The changes that wait for what isn't made yet.

ghost use Rattle.std.specs.Prelude.{ℕ, ◌≡◌, ◌++◌, ◌∷◌, [], cond, false, List, OnOk};
ghost use Rattle.pfs_model.specs.declared.changes.Change.{Change};
ghost use Rattle.pfs_model.specs.Chains.{is_that};
ghost use Rattle.pfs_check_reached.specs.ReachedChanges.{waits_in};

use crate::NoMemory;
use pfs_model::Change;
use std::alloc::Global;
use std::collections::BTreeMap;

/// Their places, by what they wait for.
#[derive(Drop)]
pub(crate) struct Waiting {
    pub kept: BTreeMap<Change, Vec<usize>>,
}

fn keep(
    waiting: &mut BTreeMap<Change, Vec<usize>>,
    key: Change,
    places: Vec<usize>,
) -> Result<(), NoMemory>
    ensures { OnOk result ((other : Change) → waits_in waiting.new other
        ≡ cond (is_that other key) places.items (waits_in waiting.old other)) }
{
    waiting.insert(key, places)?;
    Ok(())
}

impl Waiting {
    pub(crate) fn new(alloc: Global) -> Waiting {
        Waiting {
            kept: BTreeMap::new(alloc),
        }
    }

    /// Takes out those that wait for this.
    pub(crate) fn take(&mut self, alloc: Global, key: Change) -> Vec<usize>
        ensures own { result.items ≡ waits_in self.old.kept key }
        ensures others { (other : Change) → is_that other key ≡ false
            → waits_in self.new.kept other ≡ waits_in self.old.kept other }
    {
        match self.kept.remove(&key) {
            Some(places) => places,
            None => Vec::new(alloc),
        }
    }

    /// One more waits for this. Err where memory runs out.
    pub(crate) fn push(&mut self, alloc: Global, key: Change, place: usize) -> Result<(), NoMemory>
        ensures { OnOk result ((other : Change) → waits_in self.new.kept other
            ≡ cond (is_that other key) (waits_in self.old.kept key ++ place ∷ []) (waits_in self.old.kept other)) }
    {
        let mut places = self.take(alloc, key);
        places.push(place)?;
        keep(&mut self.kept, key, places)
    }
}
