//! What is made of rows.

ghost use Rattle.std.specs.Prelude.{ℕ, ◌≡◌, List, cond, Some, None, OnOk};
ghost use Rattle.std.specs.BTreeMap.{get};
ghost use Rattle.pfs_model.specs.declared.changes.Change.{Change};
ghost use Rattle.pfs_model.specs.Chains.{is_that};
ghost use Rattle.pfs_model.specs.Contents.{opening_words};
ghost use Rattle.pfs_check_contents.specs.KeptContents.{change_cmp};
ghost use Rattle.pfs_check_contents.specs.RowEffects.{effect_on};
ghost use Rattle.pfs_check_reached.specs.MadeWords.{told_in};

use crate::NoMemory;
use pfs_check_contents::Effect;
use pfs_model::Change;
use pfs_stat::Stat;
use std::alloc::Global;
use std::collections::BTreeMap;

/// The contents that the changes of a report make of its rows, at each version that they make.
#[derive(Debug, Drop)]
pub struct Reached {
    pub kept: BTreeMap<Change, [u64; 16]>,
}

// What a row holds at first: a cell and a digest row count nothing, any other row is all zeros.
fn opening_words(row: u64) -> [u64; 16]
    ensures { result ≡ opening_words row }
{
    if 129 <= row && row < 8450 {
        [0, 0, u64::MAX, 0, 0, 0, 0, 0, 0, 0, 0, 0, 0, 0, 0, 0]
    } else {
        [0; 16]
    }
}

impl Reached {
    pub(crate) fn new(alloc: Global) -> Reached
        ensures { (change : Change) → get change_cmp result.kept change ≡ None }
    {
        Reached {
            kept: BTreeMap::new(alloc),
        }
    }

    /// What is made of a row at a version; None where the changes make nothing of it.
    pub fn told(&self, row: u64, version: u64) -> Option<[u64; 16]>
        ensures { result ≡ told_in self.now.kept row version }
    {
        if version == 0 {
            return Some(opening_words(row));
        }
        self.kept.get(&Change { row, version }).copied()
    }

    // Keeps the content behind a change.
    pub(crate) fn keep(&mut self, change: Change, words: [u64; 16]) -> Result<(), NoMemory>
        ensures { OnOk result ((other : Change) → get change_cmp self.new.kept other
            ≡ cond (is_that other change) (Some words) (get change_cmp self.old.kept other)) }
    {
        self.kept.insert(change, words)?;
        Ok(())
    }
}

/// The words behind a change, by those before it, and by those of what it gives, if it does.
pub(crate) fn words_behind(effect: &Effect, here: &[u64; 16], source: &[u64; 16]) -> [u64; 16]
    ensures { result ≡ effect_on effect.now (λ row version. source.now) here.now }
{
    match *effect {
        Effect::Add(Some(amount)) => Stat::of_words(here).merge(amount).to_words(),
        Effect::Add(None) => Stat::of_words(here).to_words(),
        Effect::Take => pfs_stat::zero().to_words(),
        Effect::Give { .. } => Stat::of_words(here)
            .merge(Stat::of_words(source))
            .to_words(),
        Effect::Put(words) => words,
    }
}
