//! The lock word of a row on the slot board: one `u64` that holds the row's version and its state.
#![tactic(auto)]

ghost use Rattle.std.specs.Prelude.{◌≡◌, ℕ, ◌+◌, ◌-◌, ◌*◌, ◌/◌, ◌%◌, ◌^◌, ◌<◌, ◌≢◌, ◌↔◌, IsTrue, MatchOption};
ghost use Rattle.pfs_word.specs.Word.{number_of, word_of, version_of, IsIn};

use std::marker::Model;

#[cfg(test)]
mod tests;

/// The greatest version. A row that stands there can be taken, and can't be published again.
pub const LAST_VERSION: u64 = 4_611_686_018_427_387_903;

/// What a lock word says of its row.
#[derive(Clone, Copy, Debug, PartialEq, Eq)]
pub enum State {
    /// Nobody has the row, and its content is not to be read.
    Free,
    /// One actor has the row in hand.
    Dirty,
    /// The row holds the content that was published last, or that it opened with.
    Allocated,
}

/// A version of 62 bits above a state of two. A word whose two low bits are 3 is none, and this type has no such
/// value. Contracts see it as the number.
#[derive(Clone, Copy, Debug, PartialEq, Eq)]
pub struct LockWord(u64);

impl Model for LockWord {
    ghost Value = { ℕ };

    ghost view = { λ w. w.0 };

    ghost invariant = { λ w. w.0 % 4 < 3 };

    ghost inverse = { λ n. record { 0 = n } };
}

impl LockWord {
    /// Whether the two low bits name a state.
    pub fn is_word(word: u64) -> bool
        ensures { IsTrue result ↔ (word % 4 < 3) }
    {
        word % 4 < 3
    }

    pub fn new(word: u64) -> LockWord
        requires { word % 4 < 3 }
        ensures { result ≡ word }
    {
        LockWord(word)
    }

    /// The number that stands in the table.
    pub fn word(self) -> u64
        ensures same { result ≡ self }
        ensures form { result % 4 < 3 }
    {
        self.0
    }

    pub fn state(self) -> State
        ensures { IsIn self result }
    {
        match self.0 % 4 {
            0 => State::Free,
            1 => State::Dirty,
            _ => State::Allocated,
        }
    }

    /// How often the row was published.
    pub fn version(self) -> u64
        ensures { result ≡ version_of self }
    {
        self.0 / 4
    }

    /// The word of an actor that takes the row, at the same version.
    pub fn to_dirty(self) -> LockWord
        requires { ¬ (IsIn self State.Dirty) }
        ensures { result ≡ word_of (version_of self) State.Dirty }
    {
        LockWord(self.0 / 4 * 4 + 1)
    }

    /// The word after a publication, one version higher. `None` comes exactly at the last version.
    pub fn to_allocated(self) -> Option<LockWord>
        requires { IsIn self State.Dirty }
        ensures some { MatchOption result (version_of self ≡ LAST_VERSION) (λ w. (version_of self < LAST_VERSION)
            × (w ≡ word_of (version_of self + 1) State.Allocated)) }
    {
        let version = self.0 / 4;
        if version == LAST_VERSION {
            None
        } else {
            Some(LockWord((version + 1) * 4 + 2))
        }
    }

    /// The word after a release, at the same version.
    pub fn to_free(self) -> LockWord
        requires { IsIn self State.Dirty }
        ensures { result ≡ word_of (version_of self) State.Free }
    {
        LockWord(self.0 / 4 * 4)
    }
}
