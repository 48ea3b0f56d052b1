//! What one reading of a SELECT is of.

ghost use Rattle.std.specs.Prelude.{◌≡◌};
ghost use Rattle.pfs_readsets.specs.ReadSets.{target_of};

use pfs_rows::Reading;

/// What a SELECT reads in one step: a row of the board, or a switch word. Both are given by their
/// numbers, rows below 14,242 and words below 160.
#[derive(Clone, Copy, Debug, PartialEq, Eq)]
pub enum Target {
    Row(u64),
    Word(u64),
}

impl Target {
    /// The target that a reading is of.
    pub fn of(reading: &Reading) -> Target
        ensures { result ≡ target_of reading.now }
    {
        match reading {
            Reading::Slot { row, .. } => Target::Row(*row),
            Reading::Word { word, .. } => Target::Word(*word),
        }
    }
}
