//! What a seat and the writer know, as plain data. No value of these types is made: they stand in contracts alone.
//! A clause reads `[u64; 0]` as a list of any length, and a `LinkedList` as a list.
use std::collections::LinkedList;

/// One set of a word by the writer.
pub struct Setting {
    pub word: u64,
    /// The word's version after it.
    pub version: u64,
    pub flags: u64,
}

/// A load of a word.
pub struct Loaded {
    /// The number of the seat that made it.
    pub by: u64,
    /// How many loads that seat had made before.
    pub place: u64,
    pub word: u64,
    pub version: u64,
    pub flags: u64,
    /// The version of the word that the root had seen when the seat was split from it.
    pub first: u64,
    /// The version of the word that the seat had seen before this load, by its loads, its meets and its split.
    pub least: u64,
}

/// A meeting with the writer.
pub struct Met {
    /// The number of the seat that met it.
    pub by: u64,
    /// How many loads that seat had made before.
    pub place: u64,
    /// The version of each word then.
    pub versions: [u64; 0],
    /// The version of each word that the seat had seen before.
    pub least: [u64; 0],
    /// The opening words, as the writer knows them.
    pub start: [u64; 0],
}

/// What a seat or the writer knows.
pub struct View {
    /// Not spent by a join.
    pub live: bool,
    /// The root's, or one that was split from it.
    pub seated: bool,
    /// The writer's.
    pub writes: bool,
    /// The words as they were opened, each with its flags at version 0.
    pub start: [u64; 0],
    pub number: u64,
    /// How many seats it has made.
    pub seats: u64,
    /// How many loads it has made itself.
    pub made: u64,
    /// The version of each word that the root had seen when it was split off.
    pub first: [u64; 0],
    /// The greatest version of each word that it has seen. The writer has seen each word's present version.
    pub seen: [u64; 0],
    /// Its loads, newest first, and those of the seats that it took in.
    pub loads: LinkedList<Loaded>,
    pub meets: LinkedList<Met>,
    /// The writer's sets, newest first.
    pub sets: LinkedList<Setting>,
}
