//! A replay of changes, one after another.

ghost use Rattle.std.specs.Prelude.{ℕ, ◌≡◌, ◌<◌, ◌==◌, ◌∷◌, [], List, cond, length, Some, None, IfOk, OnOk};
ghost use Rattle.std.specs.BTreeMap.{get};
ghost use Rattle.std.specs.Ordering.{nat_cmp};
ghost use Rattle.pfs_model.specs.Chains.{Each};
ghost use Rattle.pfs_check_contents.specs.declared.changes.RowChange.{RowChange};
ghost use Rattle.pfs_check_contents.specs.ChangeReplays.{Follows, IsReplayTold};
ghost use Rattle.pfs_check_contents.specs.KeptContents.{content_at};
ghost use Rattle.pfs_check_contents.specs.RowEffects.{effect_on};
ghost use Rattle.pfs_check_contents.specs.RunningReplays.{IsReplay, Tells, given_test, last_at, next_test};

use crate::NoMemory;
use crate::changes::{Effect, RowChange};
use crate::shelf::{Shelf, opening_words};
use pfs_model::Change;
use pfs_stat::Stat;
use std::alloc::Global;
use std::collections::BTreeMap;

/// What stands in a row at its last version so far.
#[derive(Clone, Copy, Debug, PartialEq, Eq)]
pub(crate) struct Last {
    pub version: u64,
    pub words: [u64; 16],
}

/// The rows behind the changes that were replayed so far.
#[derive(Debug, Drop)]
pub(crate) struct Replayed {
    pub shelf: Shelf,
    pub last: BTreeMap<u64, Last>,
}

/// The words behind a change, by those before it and by what is kept of the row that it gives from.
pub fn words_behind(effect: &Effect, shelf: &Shelf, here: &[u64; 16]) -> [u64; 16]
    ensures { result ≡ effect_on effect.now (content_at shelf.now) here.now }
{
    match *effect {
        Effect::Add(Some(amount)) => Stat::of_words(here).merge(amount).to_words(),
        Effect::Add(None) => Stat::of_words(here).to_words(),
        Effect::Take => pfs_stat::zero().to_words(),
        Effect::Give { from, version } => {
            let source = shelf.content(from, version.saturating_sub(1));
            Stat::of_words(here)
                .merge(Stat::of_words(&source))
                .to_words()
        }
        Effect::Put(words) => words,
    }
}

fn keep_last(kept: &mut BTreeMap<u64, Last>, row: u64, last: Last) -> Result<(), NoMemory>
    ensures { OnOk result ((other : ℕ) → get nat_cmp kept.new other
        ≡ cond (row == other) (Some last) (get nat_cmp kept.old other)) }
{
    kept.insert(row, last)?;
    Ok(())
}

fn none_kept(alloc: Global) -> BTreeMap<u64, Last>
    ensures { (row : ℕ) → get nat_cmp result row ≡ None }
{
    BTreeMap::new(alloc)
}

impl Replayed {
    fn new(alloc: Global) -> Replayed
        ensures { IsReplay [] result }
    {
        Replayed {
            shelf: Shelf::new(alloc),
            last: none_kept(alloc),
        }
    }

    fn last(&self, row: u64) -> Last
        ensures { result ≡ last_at self.now.last row }
    {
        match self.last.get(&row) {
            Some(last) => *last,
            None => Last {
                version: 0,
                words: opening_words(row),
            },
        }
    }

    // Whether what is given was taken before.
    fn has_given(&self, effect: &Effect) -> bool
        ensures { result ≡ given_test self.now.last effect.now }
    {
        match *effect {
            Effect::Give { from, version } => version <= self.last(from).version,
            _ => true,
        }
    }

    fn is_next(&self, one: &RowChange) -> bool
        ensures { (done : List RowChange) → IsReplay done self.now → Tells (Follows done one.now) result }
    {
        let last = self.last(one.row).version;
        let follows = last < one.version && one.version - last == 1;
        follows && self.has_given(&one.effect)
    }

    // One change more, which is the next.
    fn add(&mut self, one: &RowChange) -> Result<(), NoMemory>
        ensures { OnOk result ((done : List RowChange) → IsReplay done self.old → Follows done one.now
            → IsReplay (one.now ∷ done) self.new) }
    {
        let words = words_behind(&one.effect, &self.shelf, &self.last(one.row).words);
        let change = Change {
            row: one.row,
            version: one.version,
        };
        self.shelf.keep(change, words)?;
        let last = Last {
            version: one.version,
            words,
        };
        keep_last(&mut self.last, one.row, last)
    }
}

/// Replays changes in an order of their places: what they make of the rows. None where one of them isn't the next
/// version of its row, or gives what wasn't taken before. Err where memory runs out.
pub fn replay(
    alloc: Global,
    changes: &[RowChange],
    order: &[usize],
) -> Result<Option<Shelf>, NoMemory>
    requires { Each (λ place. place < length changes.now) order.now }
    ensures { IfOk result (IsReplayTold changes.now order.now) }
{
    let mut replay = Replayed::new(alloc);
    for place in order {
        let one = &changes[*place];
        if !replay.is_next(one) {
            return Ok(None);
        }
        replay.add(one)?;
    }
    Ok(Some(replay.shelf))
}
