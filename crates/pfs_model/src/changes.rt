//! A change of a row.

/// A change of a row, or of a switch word: its place on the board or among the words, and its version. Versions count
/// the changes of a row from 1; 0 is what stands there at first. The rule is our own.
#[derive(Clone, Copy, Debug, PartialEq, Eq, PartialOrd, Ord)]
pub struct Change {
    /// The number of the row, or of the word.
    pub row: u64,
    pub version: u64,
}
