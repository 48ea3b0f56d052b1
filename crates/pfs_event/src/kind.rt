//! The four kinds of event, and which may start inside which.

ghost use Rattle.std.specs.Prelude.{◌≡◌, ◌≤◌};
ghost use Rattle.pfs_event.specs.NestingKinds.{nesting_number};
ghost use Rattle.pfs_event.specs.StartOrder.{may_start};

/// The kind of an event, as MySQL has them.
#[derive(Clone, Copy, Debug, PartialEq, Eq)]
pub enum EventKind {
    Wait,
    Stage,
    Statement,
    Transaction,
}

impl EventKind {
    /// The number by which an event tells that it lies in one of this kind: 1 transaction, 2 statement, 3 stage, 4
    /// wait. The numbers are our own.
    pub fn nesting_number(self) -> u64
        ensures number { result ≡ nesting_number self }
        ensures fits { result ≤ 4 }
    {
        match self {
            EventKind::Transaction => 1,
            EventKind::Statement => 2,
            EventKind::Stage => 3,
            EventKind::Wait => 4,
        }
    }
}

/// Whether an event of this kind may start where the innermost open event is of that kind, or
/// none is open.
pub(crate) fn may_follow(kind: EventKind, innermost: Option<EventKind>) -> bool
    ensures { result ≡ may_start kind innermost }
{
    match kind {
        EventKind::Wait => true,
        EventKind::Transaction => innermost.is_none(),
        EventKind::Statement => matches!(
            innermost,
            None | Some(EventKind::Transaction | EventKind::Statement)
        ),
        EventKind::Stage => matches!(innermost, Some(EventKind::Statement)),
    }
}
