//! What a seat knows, as plain data. No value of these types is made: they stand in contracts alone.
//! A clause reads `[u64; 0]` as a list of any length, and a `LinkedList` as a list.
use std::collections::LinkedList;

/// Which administration line an action is: the session, and the number of the line among the session's administration
/// lines, from 1.
#[derive(Clone, Copy, Debug, PartialEq, Eq)]
pub struct Label {
    pub session: u64,
    pub line: u64,
}

/// One publication, or one release.
pub struct Change {
    /// The number of the seat that made it.
    pub by: u64,
    pub row: u64,
    /// The row's version after it.
    pub version: u64,
    /// A publication; else a release.
    pub puts: bool,
    /// The number of the action that it was made in, or 0.
    pub action: u64,
    /// Each action up to this had ended: outside an action the newest under this number, or 0, and inside one the
    /// number before it.
    pub after: u64,
    /// How many changes the root had when the seat was split from it.
    pub base: u64,
    /// The action's label, at a publication of row 0.
    pub label: Label,
    /// The content that the take found.
    pub found: [u64; 0],
    pub put: [u64; 0],
}

/// A read that was whole.
pub struct Finished {
    pub by: u64,
    pub row: u64,
    pub version: u64,
    pub action: u64,
    pub after: u64,
    pub base: u64,
    pub content: [u64; 0],
}

/// What a call that was busy, or a read that found the row free, saw of its lock word.
pub struct Sight {
    pub by: u64,
    pub row: u64,
    pub first: u64,
    pub second: u64,
    pub action: u64,
    pub after: u64,
    pub base: u64,
}

/// What an action found as it began.
pub struct Entered {
    pub by: u64,
    pub action: u64,
    pub labels: LinkedList<Label>,
}

pub enum Stage {
    Idle,
    /// The version, and the words read so far.
    Reading(u64, [u64; 0]),
    /// The version, the content found, and the words stored so far.
    Holding(u64, [u64; 0], [u64; 0]),
}

/// What a seat knows of one row.
pub struct Corner {
    pub stage: Stage,
    /// No version that it saw is above this.
    pub seen: u64,
    /// The lock word that the seat itself saw or left last.
    pub last: Option<u64>,
    /// Whether that was since its last split, join and beginning of an action.
    pub fresh: bool,
}

/// What a seat knows.
pub struct View {
    pub number: u64,
    /// Not spent by a join.
    pub live: bool,
    /// How many seats it has made.
    pub seats: u64,
    /// How many publications it may still make.
    pub allowance: u64,
    /// Numbers that its next split needs.
    pub said: [u64; 0],
    /// The opening words of the board.
    pub start: [u64; 0],
    /// The number of the action that it is in, or 0.
    pub action: u64,
    /// Each action up to this has ended: outside an action its newest, or 0, and inside one the number before it.
    pub after: u64,
    /// How many changes the root had when it was split off.
    pub base: u64,
    /// The kept value is out with it or its caller, for an action or lent.
    pub lent: bool,
    /// It is half way through a call that hands the value over.
    pub moving: bool,
    /// The label of the action that it is in.
    pub label: Label,
    /// The labels that the value stood for as it went out.
    pub labels: LinkedList<Label>,
    /// How often it, and the seats that it took in, looked at a lock word: by a load or an exchange that told it what
    /// stood there. A load that tells nothing, as the one inside a split or a join, is no look.
    pub looks: u64,
    /// The lock word that its last take of a row but row 0 replaced.
    pub replaced: u64,
    /// Its changes and those of the seats that it took in, the last added first.
    pub made: LinkedList<Change>,
    pub reads: LinkedList<Finished>,
    pub sights: LinkedList<Sight>,
    pub entered: LinkedList<Entered>,
    pub rows: LinkedList<Corner>,
}
