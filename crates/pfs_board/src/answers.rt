//! What the calls of a board take and answer.

/// The sixteen words that a row holds beside its lock word.
pub type Content = [u64; 16];

/// How a row opens, at version 0. A row that isn't allocated is free.
#[derive(Clone, Copy, Debug, PartialEq, Eq)]
pub struct Opening {
    pub allocated: bool,
    pub content: Content,
}

/// What a take answers.
#[derive(Clone, Copy, Debug, PartialEq, Eq)]
pub enum Taken {
    /// The row is in hand. `word` is the lock word before, free or allocated.
    Mine { word: u64, content: Content },
    /// `first` was dirty, and then `second` is the same, or the exchange found `second` in its place.
    Busy { first: u64, second: u64 },
}

/// What a read answers.
#[derive(Clone, Copy, Debug, PartialEq, Eq)]
pub enum Seen {
    /// The row's content at the version: what was published at it, or the opening.
    Whole { version: u64, content: Content },
    /// The first load found the row free.
    Free { word: u64 },
    /// `first` was dirty, and then `second` is the same, or it was allocated and the last load found `second` in its
    /// place.
    Busy { first: u64, second: u64 },
}

/// A row as it was left: its lock word and its content.
#[derive(Clone, Copy, Debug, PartialEq, Eq)]
pub struct FinalRow {
    pub word: u64,
    pub content: Content,
}
