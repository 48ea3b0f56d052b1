//! The lines of a session, as far as its journal goes by them.

use pfs_event::{EventKind, Verdict};

/// What a line starts.
#[derive(Clone, Copy, Debug, PartialEq, Eq)]
pub struct Subject {
    pub kind: EventKind,
    /// The id of the class; none where the class found no room when it was registered.
    pub class: Option<u64>,
    /// The cell of a slot in which such events are counted: the class's id, for a READ ONLY transaction one more.
    pub cell: u64,
    /// The number of the table, for a wait of a table.
    pub table: Option<u64>,
    /// The place of a statement's digest, where its digest has one.
    pub digest: Option<u64>,
}

/// A line of a session, each repeat written out. `Close` stands for the end of its block.
#[derive(Clone, Copy, Debug, PartialEq, Eq)]
pub enum Line {
    /// The session's first line: it connects.
    Connect,
    /// An event starts that isn't a stage.
    Start { subject: Subject },
    /// The open stage ends, if any, and another starts.
    Stage { subject: Subject },
    /// The open stage ends, if any.
    StageEnd,
    /// The innermost open event ends; where that is a stage, its statement too.
    End,
    /// Time passes, or nothing is said.
    Spend,
    /// A change by SQL that isn't refused beforehand: an action.
    Change,
    /// The session ends: an action.
    Quit,
    /// A SELECT on the actors or the objects: an action.
    Show,
    /// Another SELECT.
    Query,
    /// An SQL text that is refused before any action begins, with the number of its error.
    Refused { error: u64 },
    /// The end of the session's block in a phase.
    Close,
}

/// An open event: what its line started, and what its `start` entry says.
#[derive(Clone, Copy, Debug, PartialEq, Eq)]
pub struct Opened {
    pub subject: Subject,
    /// The printed verdict.
    pub verdict: Verdict,
    /// How many events the session had started before it, of whatever verdict.
    pub index: u64,
    /// The printed EVENT_ID.
    pub number: Option<u64>,
    /// The printed versions of the words that its start loaded.
    pub consumers: Option<u64>,
    pub thread: Option<u64>,
    pub class: Option<u64>,
    pub table: Option<u64>,
}
