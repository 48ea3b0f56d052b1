//! What an open event counts for when it ends.

ghost use Rattle.std.specs.Prelude.{◌≡◌, ◌<◌, ◌+◌, ◌≤◌, if◌then◌else◌};
ghost use Rattle.pfs_model.specs.SetupFlags.{is_statement, is_wait, is_attributed};
ghost use Rattle.pfs_session.specs.Ends.{numbers_for, amount_of, cell_in, cell_number, digest_number};

use pfs_event::{EventKind, Open, Verdict};
use pfs_rows::{CELLS, READ_ONLY_CELL};
use pfs_stat::{Measure, Stat, of_event};

// The number of the row of the digests without a place, behind those of the cells.
const DIGESTS: u64 = 128;

/// The six numbers that a script gives of a statement. Times are picoseconds.
#[derive(Clone, Copy, Debug, PartialEq, Eq)]
pub struct Numbers {
    pub lock: u64,
    pub errors: u64,
    pub warnings: u64,
    pub affected: u64,
    pub sent: u64,
    pub examined: u64,
}

impl Numbers {
    /// Those of an event that is no statement, and of a statement of which nothing is said.
    pub const NONE: Numbers = Numbers {
        lock: 0,
        errors: 0,
        warnings: 0,
        affected: 0,
        sent: 0,
        examined: 0,
    };
}

/// Whether an event is a statement.
pub(crate) fn is_statement(kind: EventKind) -> bool
    ensures { result ≡ is_statement kind }
{
    matches!(kind, EventKind::Statement)
}

/// Whether an event is a wait.
pub(crate) fn is_wait(kind: EventKind) -> bool
    ensures { result ≡ is_wait kind }
{
    matches!(kind, EventKind::Wait)
}

/// The numbers of a statement, and of another event none.
pub(crate) fn numbers_for(kind: EventKind, numbers: &Numbers) -> Numbers
    ensures { result ≡ numbers_for kind numbers.now }
{
    if is_statement(kind) {
        *numbers
    } else {
        Numbers::NONE
    }
}

/// What an open event adds when it ends at this clock: its time where it is timed, and a statement's numbers.
pub(crate) fn amount_of(what: &Open, clock: u64, numbers: &Numbers) -> Stat
    ensures { result ≡ amount_of what.now clock numbers.now }
{
    let numbers = numbers_for(what.kind, numbers);
    of_event(&Measure {
        timed: what.event.timed,
        wait: clock.wrapping_sub(what.event.start),
        lock: numbers.lock,
        errors: numbers.errors,
        warnings: numbers.warnings,
        affected: numbers.affected,
        sent: numbers.sent,
        examined: numbers.examined,
    })
}

/// The number of the cell in which an open event counts: one of its thread's, or a global one.
pub(crate) fn cell_number(what: &Open) -> u64
    ensures number { result ≡ cell_number what.now }
    ensures fits { result < 128 }
{
    let cell = if what.event.read_only {
        READ_ONLY_CELL
    } else {
        what.event.class
    };
    match what.verdict {
        Verdict::Attributed => cell,
        _ => CELLS + cell,
    }
}

/// The number of the row of a digested statement: that of the texts without a place, or that of its text's.
pub(crate) fn digest_number(what: &Open) -> u64
    ensures number { result ≡ digest_number what.now }
    ensures fits { result < 193 }
{
    DIGESTS + what.event.link
}
