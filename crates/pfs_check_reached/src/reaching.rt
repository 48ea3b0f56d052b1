//! Changes, each made as soon as all is made that it needs.

ghost use Rattle.std.specs.Prelude.{ℕ, ◌≡◌, ◌<◌, ◌++◌, ◌∷◌, [], List, None, IfOk, OnOk, MatchOption};
ghost use Rattle.pfs_check_contents.specs.declared.changes.RowChange.{RowChange};
ghost use Rattle.pfs_model.specs.Actions.{IsAmong};
ghost use Rattle.pfs_check_contents.specs.OrderlyChanges.{StandsAt};
ghost use Rattle.pfs_check_reached.specs.MadeWords.{AreReached, told_in};
ghost use Rattle.pfs_check_reached.specs.ReachedChanges.{IsNew, IsSourceTold, IsTried, IsWalked, IsWoken, Needs};

use crate::NoMemory;
use crate::reached::{Reached, words_behind};
use crate::waiting::Waiting;
use pfs_check_contents::{Effect, RowChange};
use pfs_model::Change;
use std::alloc::{AllocError, Global};

/// What is tried of a change: its words, or what it waits for.
#[derive(Clone, Copy, Debug, PartialEq, Eq)]
pub(crate) enum Tried {
    Made([u64; 16]),
    Waits(Change),
}

// What a change gives of another row, where that is made; of a change that gives nothing, this.
fn source_of(reached: &Reached, effect: &Effect, here: [u64; 16]) -> Result<[u64; 16], Change>
    ensures { IsSourceTold reached.now.kept effect.now result }
{
    match *effect {
        Effect::Give { from, version } => {
            let before = version.saturating_sub(1);
            match reached.told(from, before) {
                Some(words) => Ok(words),
                None => Err(Change {
                    row: from,
                    version: before,
                }),
            }
        }
        _ => Ok(here),
    }
}

// Tries a change by what is made so far.
fn try_one(reached: &Reached, one: &RowChange) -> Tried
    ensures { IsTried reached.now.kept one.now result }
{
    let before = one.version.saturating_sub(1);
    let Some(here) = reached.told(one.row, before) else {
        return Tried::Waits(Change {
            row: one.row,
            version: before,
        });
    };
    match source_of(reached, &one.effect, here) {
        Ok(source) => Tried::Made(words_behind(&one.effect, &here, &source)),
        Err(key) => Tried::Waits(key),
    }
}

/// How far the changes are made.
#[derive(Drop)]
pub(crate) struct Walk {
    pub reached: Reached,
    pub waiting: Waiting,
    /// The places of those that are to be tried.
    pub ready: Vec<usize>,
}

fn push_all(ready: &mut Vec<usize>, places: &[usize]) -> Result<(), NoMemory>
    ensures { OnOk result (ready.new.items ≡ ready.old.items ++ places.now) }
{
    for place in places {
        ready.push(*place)?;
    }
    Ok(())
}

// The places of all changes.
fn all_places(alloc: Global, count: usize) -> Result<Vec<usize>, NoMemory>
    ensures { IfOk result (λ places. (place : ℕ) → place < count → IsAmong place places.items) }
{
    let mut places = Vec::new(alloc);
    for place in 0..count {
        places.push(place)?;
    }
    Ok(places)
}

impl Walk {
    // Nothing is tried yet.
    fn new(alloc: Global, changes: &[RowChange]) -> Result<Walk, NoMemory>
        ensures { IfOk result (λ walk. IsWalked changes.now walk walk.ready.items) }
    {
        let ready = all_places(alloc, changes.len())?;
        Ok(Walk {
            reached: Reached::new(alloc),
            waiting: Waiting::new(alloc),
            ready,
        })
    }

    // The place of the next one that is to be tried.
    fn next(&mut self) -> Option<usize>
        ensures { (changes : List RowChange) → IsWalked changes self.old self.old.ready.items
            → MatchOption result (IsWalked changes self.new [])
            (λ place. IsWalked changes self.new (self.new.ready.items ++ place ∷ [])) }
    {
        self.ready.pop()
    }

    // Those that waited for a change are to be tried.
    fn wake(&mut self, alloc: Global, change: Change) -> Result<(), NoMemory>
        ensures { OnOk result (IsWoken self.old self.new change) }
    {
        let places = self.waiting.take(alloc, change);
        push_all(&mut self.ready, places.as_slice())
    }

    // Keeps the words of a change.
    fn make(&mut self, alloc: Global, one: &RowChange, words: [u64; 16]) -> Result<(), NoMemory>
        ensures { (changes : List RowChange) → (place : ℕ) → StandsAt changes place one.now
            → IsNew self.old.reached.kept one.now words
            → IsWalked changes self.old (self.old.ready.items ++ place ∷ [])
            → OnOk result (IsWalked changes self.new self.new.ready.items) }
    {
        let change = Change {
            row: one.row,
            version: one.version,
        };
        self.reached.keep(change, words)?;
        self.wake(alloc, change)?;
        Ok(())
    }

    // It waits for this.
    fn wait(&mut self, alloc: Global, key: Change, place: usize) -> Result<(), NoMemory>
        ensures { (changes : List RowChange) → (one : RowChange) → StandsAt changes place one → Needs one key
            → told_in self.old.reached.kept key.row key.version ≡ None
            → IsWalked changes self.old (self.old.ready.items ++ place ∷ [])
            → OnOk result (IsWalked changes self.new self.new.ready.items) }
    {
        self.waiting.push(alloc, key, place)?;
        Ok(())
    }

    // Tries a change, which stands at this place.
    fn try_at(&mut self, alloc: Global, one: &RowChange, place: usize) -> Result<(), NoMemory>
        ensures { (changes : List RowChange) → StandsAt changes place one.now
            → IsWalked changes self.old (self.old.ready.items ++ place ∷ [])
            → OnOk result (IsWalked changes self.new self.new.ready.items) }
    {
        match try_one(&self.reached, one) {
            Tried::Made(words) => self.make(alloc, one, words),
            Tried::Waits(key) => self.wait(alloc, key, place),
        }
    }

    // Tries the change at a place.
    fn step(&mut self, alloc: Global, changes: &[RowChange], place: usize) -> Result<(), NoMemory>
        ensures { IsWalked changes.now self.old (self.old.ready.items ++ place ∷ [])
            → OnOk result (IsWalked changes.now self.new self.new.ready.items) }
    {
        match changes.get(place) {
            Some(one) => self.try_at(alloc, one, place),
            None => Ok(()),
        }
    }
}

/// What changes make of the rows, in whatever order they stand. Err where memory runs out. Each is tried at most three
/// times: at first, and when what it waited for was made; so NoMemory never stands for more.
pub fn reach(alloc: Global, changes: &[RowChange]) -> Result<Reached, NoMemory>
    ensures { IfOk result (AreReached changes.now) }
{
    pfs_law_replay::laws::once();
    let mut walk = Walk::new(alloc, changes)?;
    for _turn in 0..changes.len().saturating_mul(3) {
        match walk.next() {
            Some(place) => walk.step(alloc, changes, place)?,
            None => return Ok(walk.reached),
        }
    }
    match walk.next() {
        None => Ok(walk.reached),
        Some(_place) => Err(AllocError),
    }
}
