//! What the calls of a store answer.

/// What became of an addition. Words are lock words: four times the version and the state.
#[derive(Clone, Copy, Debug, PartialEq, Eq)]
pub enum Added {
    /// It was made, at this version of the row.
    Counted { row: u64, version: u64 },
    /// Another actor had the row in hand, as these two lock words show.
    Held { row: u64, first: u64, second: u64 },
}

/// What became of an event that was offered to a ring.
#[derive(Clone, Copy, Debug, PartialEq, Eq)]
pub enum RingPut {
    /// It was written, at this version of the row.
    Done { version: u64 },
    /// Another actor had the row in hand, as these two lock words show.
    Busy { first: u64, second: u64 },
    /// The place of the long history held this greater ticket, at this version.
    Late { ticket: u64, version: u64 },
}

/// A switch word: how often it was set, and its flags.
#[derive(Clone, Copy, Debug, PartialEq, Eq)]
pub struct Word {
    pub version: u64,
    pub flags: u16,
}
