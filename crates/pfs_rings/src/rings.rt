//! The places where an event is written.

ghost use Rattle.std.specs.Prelude.{◌≡◌, ◌<◌, ◌≤◌};
ghost use Rattle.pfs_model.specs.Rings.{ring_number, current_row, history_row};
ghost use Rattle.pfs_rings.specs.RingPlaces.{depths};

use pfs_event::EventKind;
use pfs_rows::{CURRENT_PLACES, HISTORY_PLACES, RING_PLACES, RINGS};

/// Where an event is written. The rings are MySQL's; how many places each has, and their order, is our own.
#[derive(Clone, Copy, Debug, PartialEq, Eq)]
pub enum Ring {
    /// A thread's current place of a kind; for a wait or a statement that of its depth, which is how many let-through
    /// events of the kind were open as it started: 0 to 3 for a wait, 0 to 9 for a statement, 0 for the others.
    Current {
        thread: u64,
        kind: EventKind,
        depth: u64,
    },
    /// A place of a thread's history of a kind, from 0 to 9.
    History {
        thread: u64,
        kind: EventKind,
        place: u64,
    },
    /// The long history of a kind, which is all threads': at the place of the ticket that is drawn.
    Long {
        kind: EventKind,
    },
}

/// The number of a kind among the rings. It is our own.
pub(crate) fn ring_number(kind: EventKind) -> u64
    ensures number { result ≡ ring_number kind }
    ensures few { result < 4 }
{
    match kind {
        EventKind::Wait => 0,
        EventKind::Stage => 1,
        EventKind::Statement => 2,
        EventKind::Transaction => 3,
    }
}

/// The row of a thread's current place of a kind.
pub(crate) fn current_row(thread: u64, kind: EventKind, depth: u64) -> u64
    requires thread { thread < 32 }
    requires depth { depth < depths kind }
    ensures row { result ≡ current_row thread kind depth }
    ensures low { 8450 ≤ result }
    ensures high { result < 10242 }
{
    let first = RINGS + RING_PLACES * thread;
    match kind {
        EventKind::Wait => first + depth,
        EventKind::Stage => first + 4,
        EventKind::Statement => first + 5 + depth,
        EventKind::Transaction => first + 15,
    }
}

/// The row of a place of a thread's history of a kind.
pub(crate) fn history_row(thread: u64, kind: EventKind, place: u64) -> u64
    requires thread { thread < 32 }
    requires place { place < 10 }
    ensures row { result ≡ history_row thread (ring_number kind) place }
    ensures low { 8450 ≤ result }
    ensures high { result < 10242 }
{
    RINGS + RING_PLACES * thread + CURRENT_PLACES + HISTORY_PLACES * ring_number(kind) + place
}
