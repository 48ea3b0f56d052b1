//! An open event of a session.

use crate::event::Event;
use crate::kind::EventKind;
use crate::verdict::Verdict;

/// An open event. Of one that isn't let through only the kind and the verdict count.
#[derive(Clone, Copy, Debug, PartialEq, Eq)]
pub struct Open {
    pub kind: EventKind,
    pub verdict: Verdict,
    /// The event as it was at its start.
    pub event: Event,
    /// Whether it is a digested statement.
    pub digested: bool,
    /// Whether it was offered to its current place at its start.
    pub placed: bool,
}
