//! The entries of a session's journal.

use crate::verdict::Verdict;

/// One line of a session's journal. A row is one of the shared rows, a version the number of the
/// change that was made or seen, and `first` and `second` are the lock words that made a row busy.
#[derive(Clone, Copy, Debug, PartialEq, Eq)]
pub enum Entry {
    /// The session connected by this action and got these places, where it got any.
    Connect {
        action: u64,
        thread: Option<u64>,
        account: Option<u64>,
        user: Option<u64>,
        host: Option<u64>,
    },
    /// An event started. The last four are the versions of the switch words that were loaded.
    Start {
        event: Option<u64>,
        verdict: Verdict,
        consumers: Option<u64>,
        thread: Option<u64>,
        class: Option<u64>,
        table: Option<u64>,
    },
    /// An event ended; `last` is its END_EVENT_ID.
    End {
        event: Option<u64>,
        last: Option<u64>,
        consumers: Option<u64>,
        thread: Option<u64>,
    },
    /// The event, and all that was held for the row, was added to it.
    Add {
        row: u64,
        version: u64,
    },
    /// The event is held, for the row was busy.
    Held {
        row: u64,
        first: u64,
        second: u64,
    },
    /// The event was written to a current or history place.
    Ring {
        row: u64,
        version: u64,
    },
    /// The event was written to the long history.
    Long {
        row: u64,
        version: u64,
        ticket: u64,
    },
    /// A place was busy when it was to be written, or a row when it was read.
    Busy {
        row: u64,
        first: u64,
        second: u64,
    },
    /// The place of the long history held the greater ticket.
    Late {
        row: u64,
        ticket: u64,
        greater: u64,
    },
    /// The held events are settled; the additions follow.
    Settle,
    /// An administration line other than a connect.
    Act {
        action: u64,
    },
    /// The row was taken and left as zero.
    Take {
        row: u64,
        version: u64,
    },
    /// What was taken from the source in this action was merged into the row.
    Give {
        row: u64,
        version: u64,
        source: u64,
    },
    /// An information row was written.
    Tag {
        row: u64,
        version: u64,
    },
    /// The row was released at this version.
    Free {
        row: u64,
        version: u64,
    },
    /// A switch word got this version and these flags.
    Set {
        word: u64,
        version: u64,
        flags: u64,
    },
    /// How many rows a change found.
    Reply {
        number: u64,
    },
    /// The error of a change, or of an SQL text that was refused.
    Error {
        number: u64,
    },
    /// A SELECT; its readings follow, then its answer.
    Query,
    /// A row was read whole.
    Seen {
        row: u64,
        version: u64,
    },
    /// A row was read and was free.
    Vacant {
        row: u64,
    },
    /// A switch word was loaded.
    Saw {
        word: u64,
        version: u64,
    },
    /// How many rows the answer has.
    Rows {
        number: u64,
    },
}
