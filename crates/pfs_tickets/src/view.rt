//! What a seat knows, as plain data. No value of these types is made: they stand in contracts alone.
//! A clause reads a `LinkedList` as a list.
use std::collections::LinkedList;

/// A ticket that was drawn.
pub struct Drawn {
    /// The number of the seat that drew it.
    pub by: u64,
    pub kind: u64,
    pub ticket: u64,
}

/// What a seat knows.
pub struct View {
    /// Not spent by a join.
    pub live: bool,
    pub number: u64,
    /// How many seats it has made.
    pub seats: u64,
    /// How many draws it has left.
    pub draws: u64,
    /// How many draws the split under way gives, and 0 outside one.
    pub said: u64,
    /// The tickets that it drew, newest first, and those of the seats that it took in.
    pub tickets: LinkedList<Drawn>,
}
