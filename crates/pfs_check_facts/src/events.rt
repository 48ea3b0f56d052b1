//! The facts of an event.

ghost use Rattle.std.specs.Prelude.{◌≡◌};
ghost use Rattle.pfs_script.specs.Events.{no_numbers, numbers_for};
ghost use Rattle.pfs_check_facts.specs.Closings.{facts_between, nothing_said};

use crate::moments::Moment;
use pfs_event::EventKind;
use pfs_script::StatementNumbers;

/// What the script says of an event: the session's clock at its start and how long it takes, in picoseconds modulo
/// 2^64, and a statement's numbers. One that never ends takes no time and has no numbers.
#[derive(Clone, Copy, Debug, PartialEq, Eq)]
pub struct EventFacts {
    pub start: u64,
    pub duration: u64,
    pub numbers: StatementNumbers,
}

fn no_numbers() -> StatementNumbers
    ensures { result ≡ no_numbers }
{
    StatementNumbers {
        lock: 0,
        errors: 0,
        warnings: 0,
        affected: 0,
        sent: 0,
        examined: 0,
    }
}

/// Of no event.
pub(crate) fn nothing_said() -> EventFacts
    ensures { result ≡ nothing_said }
{
    EventFacts {
        start: 0,
        duration: 0,
        numbers: no_numbers(),
    }
}

// The numbers on a line are a statement's.
fn numbers_for(kind: EventKind, numbers: StatementNumbers) -> StatementNumbers
    ensures { result ≡ numbers_for kind numbers }
{
    match kind {
        EventKind::Statement => numbers,
        EventKind::Wait | EventKind::Stage | EventKind::Transaction => no_numbers(),
    }
}

/// Of an event that opens at one moment and closes at another, if it does.
pub(crate) fn facts_between(opening: Moment, kind: EventKind, closing: Option<Moment>) -> EventFacts
    ensures { result ≡ facts_between opening kind closing }
{
    match closing {
        Some(closing) => EventFacts {
            start: opening.clock,
            duration: closing.clock.wrapping_sub(opening.clock),
            numbers: numbers_for(kind, closing.numbers),
        },
        None => EventFacts {
            start: opening.clock,
            duration: 0,
            numbers: no_numbers(),
        },
    }
}
