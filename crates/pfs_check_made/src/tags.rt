//! The words that actions write to info rows.

ghost use Rattle.std.specs.Prelude.{◌≡◌, cond, Some, None, OnOk};
ghost use Rattle.std.specs.BTreeMap.{get};
ghost use Rattle.pfs_check_made.specs.declared.tags.TagAt.{TagAt};
ghost use Rattle.pfs_check_made.specs.TagWords.{is_same_tag, tag_cmp};

use crate::NoMemory;
use std::alloc::Global;
use std::collections::BTreeMap;

/// An action, by its number, and an info row that it writes.
#[derive(Clone, Copy, Debug, PartialEq, Eq, PartialOrd, Ord)]
pub struct TagAt {
    pub action: u64,
    pub row: u64,
}

/// The words that actions write to info rows.
#[derive(Debug, Drop)]
pub struct TagWords {
    pub kept: BTreeMap<TagAt, [u64; 16]>,
}

impl TagWords {
    /// Of no actions. It takes no memory.
    pub fn new(alloc: Global) -> TagWords
        ensures { (at : TagAt) → get tag_cmp result.kept at ≡ None }
    {
        TagWords {
            kept: BTreeMap::new(alloc),
        }
    }

    /// The words of one more. Err where memory runs out.
    pub fn put(&mut self, at: TagAt, words: [u64; 16]) -> Result<(), NoMemory>
        ensures { OnOk result ((other : TagAt) → get tag_cmp self.new.kept other
            ≡ cond (is_same_tag other at) (Some words) (get tag_cmp self.old.kept other)) }
    {
        self.kept.insert(at, words)?;
        Ok(())
    }

    /// The words that an action writes to an info row; None where it isn't known to write any.
    pub fn words(&self, at: TagAt) -> Option<[u64; 16]>
        ensures { result ≡ get tag_cmp self.now.kept at }
    {
        self.kept.get(&at).copied()
    }
}
