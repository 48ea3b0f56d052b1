//! A store that holds nothing but the switch words.

ghost use Rattle.std.specs.Prelude.{◌≡◌, Some, length, slice_get};
ghost use Rattle.pfs_check_blank.specs.BlankStores.{AreCalls, hand_at};

use pfs_board::Content;
use pfs_levels::{Added, Hold, Readable, RingPut, Rows, Word};
use pfs_rows::Seen;
use pfs_stat::Stat;

/// What each row is found to hold: a cell that has counted one event.
const ONE: Content = [1, 0, 0, 0, 0, 0, 0, 0, 0, 0, 0, 0, 0, 0, 0, 0];

/// A store of which each row is found at version 0, with something counted in it, whatever was put there. Of what it is
/// given it keeps the switch words, which rows are in hand, and what was put last in each row, which no take finds.
#[derive(Drop)]
pub struct Blank {
    pub(crate) words: Vec<Word>,
    pub(crate) taken: Vec<bool>,
    pub(crate) contents: Vec<Content>,
    ghost wide: { (length words.items ≡ 160) × (length taken.items ≡ 14242) × (length contents.items ≡ 14242) },
}

impl Blank {
    /// What was put in a row last, zeros where nothing was; None where there is no such row.
    pub fn last_put(&self, row: u64) -> Option<Content>
        ensures { result ≡ slice_get self.now.contents.items row }
    {
        self.contents.get(row as usize).copied()
    }
}

impl Readable for Blank {
    ghost seen = { λ s. record {
      reached = λ start calls. AreCalls s.contents.items calls;
      hand = λ row. hand_at s.taken.items row;
      left = 32768;
      draws = 1;
      words = Some s.words.items;
      name = 0;
    } };

    fn read(&mut self, row: u64) -> Seen {
        let _ = row;
        Seen::Free { word: 0 }
    }

    fn load(&mut self, word: u64) -> (u64, u16) {
        let found = self.words[word as usize];
        (found.version, found.flags)
    }
}

impl Rows for Blank {
    fn add_try(&mut self, row: u64, amount: &Stat) -> Added {
        let _ = amount;
        Added::Counted { row, version: 1 }
    }

    fn ring_try(&mut self, row: u64, content: &Content) -> RingPut {
        let _ = row;
        let _ = content;
        RingPut::Done { version: 1 }
    }

    fn ticket(&mut self, kind: u64) -> u64 {
        let _ = kind;
        0
    }
}

impl Hold for Blank {
    fn take(&mut self, row: u64) -> (u64, Content) {
        self.taken[row as usize] = true;
        (0, ONE)
    }

    fn put(&mut self, row: u64, content: &Content) -> u64 {
        self.taken[row as usize] = false;
        self.contents[row as usize] = *content;
        1
    }

    fn free(&mut self, row: u64) {
        self.taken[row as usize] = false;
    }

    fn set(&mut self, word: u64, flags: u16) -> u64 {
        let at = word as usize;
        let version = self.words[at].version + 1;
        self.words[at] = Word { version, flags };
        version
    }
}
