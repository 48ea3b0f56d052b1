//! The contents of rows at their versions.

ghost use Rattle.std.specs.Prelude.{◌≡◌, cond, Some, None, OnOk};
ghost use Rattle.std.specs.BTreeMap.{get};
ghost use Rattle.pfs_model.specs.declared.changes.Change.{Change};
ghost use Rattle.pfs_model.specs.Chains.{is_that};
ghost use Rattle.pfs_model.specs.Contents.{opening_words};
ghost use Rattle.pfs_check_contents.specs.KeptContents.{change_cmp, content_at, has_at};

use crate::NoMemory;
use pfs_model::Change;
use std::alloc::Global;
use std::collections::BTreeMap;

/// The contents that rows got, at each of their versions.
#[derive(Debug, Drop)]
pub struct Shelf {
    pub kept: BTreeMap<Change, [u64; 16]>,
}

/// What a row holds at first: a cell and a digest row count nothing, any other row is all zeros.
pub(crate) fn opening_words(row: u64) -> [u64; 16]
    ensures { result ≡ opening_words row }
{
    if 129 <= row && row < 8450 {
        [0, 0, u64::MAX, 0, 0, 0, 0, 0, 0, 0, 0, 0, 0, 0, 0, 0]
    } else {
        [0; 16]
    }
}

impl Shelf {
    /// No row was changed. It takes no memory.
    pub fn new(alloc: Global) -> Shelf
        ensures { (change : Change) → get change_cmp result.kept change ≡ None }
    {
        Shelf {
            kept: BTreeMap::new(alloc),
        }
    }

    /// Keeps the content behind a change, in place of one that was kept of that row and version. Err where memory runs out.
    pub fn keep(&mut self, change: Change, words: [u64; 16]) -> Result<(), NoMemory>
        ensures { OnOk result ((other : Change) → get change_cmp self.new.kept other
            ≡ cond (is_that other change) (Some words) (get change_cmp self.old.kept other)) }
    {
        self.kept.insert(change, words)?;
        Ok(())
    }

    /// Whether the content of a row at a version is kept: the one that it opens with always is.
    pub fn has(&self, row: u64, version: u64) -> bool
        ensures { result ≡ has_at self.now row version }
    {
        version == 0 || self.kept.contains_key(&Change { row, version })
    }

    /// The content of a row at a version that it had; all zeros at one that it never had.
    pub fn content(&self, row: u64, version: u64) -> [u64; 16]
        ensures { result ≡ content_at self.now row version }
    {
        if version == 0 {
            return opening_words(row);
        }
        match self.kept.get(&Change { row, version }) {
            Some(words) => *words,
            None => [0; 16],
        }
    }
}
