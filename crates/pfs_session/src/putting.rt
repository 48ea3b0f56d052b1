//! Putting events to rings: which rings an event is offered to, and what becomes of it.

ghost use Rattle.std.specs.Prelude.{true, ◌≡◌, ◌<◌, ◌≤◌, ℕ, None, IfSome};
ghost use Rattle.pfs_levels.specs.Views.{Affords, Used};
ghost use Rattle.pfs_model.specs.SetupFlags.{current_consumer, has_history, history_consumer, is_attributed, long_consumer};
ghost use Rattle.pfs_rings.specs.RingPlaces.{IsRing, tickets_for};
ghost use Rattle.pfs_session.specs.EventPuts.{HasPut, IsPutOf, goes_on, is_placed_by};
ghost use Rattle.pfs_session.specs.Ends.{ended_event};

use crate::events::{Numbers, numbers_for};
use crate::setup::Setup;
use pfs_consumers::{Consumer, Flags, acts};
use pfs_event::{Event, EventKind, Open, Verdict};
use pfs_levels::{Log, Rows};
use pfs_model::Subject;
use pfs_rings::{Put, Ring, put_event};

/// Puts an event to a ring, where it is offered there. The log gets what became of it.
#[inline(always)]
pub(crate) fn offer<R: Rows>(
    rows: &mut R,
    due: bool,
    ring: Ring,
    event: &Event,
    log: &mut Log,
) -> Option<Put>
    requires ring { due ≡ true → IsRing ring }
    requires alone { (r : ℕ) → 0 < r → (R.seen rows.old).hand r ≡ None }
    requires affords { Affords 1 (tickets_for ring) 1 (R.seen rows.old) log.old }
    ensures put { HasPut due ring event.now result log.old log.new (R.seen rows.old).reached
        (R.seen rows.new).reached }
    ensures stands { IfSome result (λ put. IsPutOf ring put) }
    ensures used { Used 1 (tickets_for ring) 1 (R.seen rows.old) (R.seen rows.new) log.old log.new }
{
    if !due {
        return None;
    }
    let put = put_event(rows, ring, event);
    log.push(put.entry());
    Some(put)
}

/// Whether an event is offered to its current place: an attributed one, while the consumer of its kind acts as it
/// starts.
pub(crate) fn is_placed(subject: &Subject, verdict: Verdict, seen: &Option<Setup>) -> bool
    ensures { result ≡ is_placed_by subject.now verdict seen.now }
{
    match seen {
        Some(seen) => {
            is_attributed(verdict)
                && acts(Flags(seen.consumers.flags), current_consumer(subject.kind))
        }
        None => false,
    }
}

/// Whether an event that ends goes on to a history: one that was offered to its current place, while this consumer acts
/// and the thread's HISTORY is YES as it ends.
pub(crate) fn goes_on(placed: bool, ring: Consumer, consumers: u16, thread: u16) -> bool
    ensures { result ≡ goes_on placed ring consumers thread }
{
    placed && acts(Flags(consumers), ring) && has_history(thread)
}

// Whether HISTORY of a thread is YES.
fn has_history(flags: u16) -> bool
    ensures { result ≡ has_history flags }
{
    flags >> 1 & 1 == 1
}

fn is_attributed(verdict: Verdict) -> bool
    ensures { result ≡ is_attributed verdict }
{
    matches!(verdict, Verdict::Attributed)
}

fn current_consumer(kind: EventKind) -> Consumer
    ensures { result ≡ current_consumer kind }
{
    match kind {
        EventKind::Wait => Consumer::WaitsCurrent,
        EventKind::Stage => Consumer::StagesCurrent,
        EventKind::Statement => Consumer::StatementsCurrent,
        EventKind::Transaction => Consumer::TransactionsCurrent,
    }
}

/// The consumer of a kind's history.
pub(crate) fn history_consumer(kind: EventKind) -> Consumer
    ensures { result ≡ history_consumer kind }
{
    match kind {
        EventKind::Wait => Consumer::WaitsHistory,
        EventKind::Stage => Consumer::StagesHistory,
        EventKind::Statement => Consumer::StatementsHistory,
        EventKind::Transaction => Consumer::TransactionsHistory,
    }
}

/// The consumer of a kind's long history.
pub(crate) fn long_consumer(kind: EventKind) -> Consumer
    ensures { result ≡ long_consumer kind }
{
    match kind {
        EventKind::Wait => Consumer::WaitsHistoryLong,
        EventKind::Stage => Consumer::StagesHistoryLong,
        EventKind::Statement => Consumer::StatementsHistoryLong,
        EventKind::Transaction => Consumer::TransactionsHistoryLong,
    }
}

/// An open event as it is written when it ends: with the last number drawn, how long it took, and a statement's
/// numbers.
pub(crate) fn ended_event(what: &Open, drawn: u64, clock: u64, numbers: &Numbers) -> Event
    ensures { result ≡ ended_event what.now drawn clock numbers.now }
{
    let numbers = numbers_for(what.kind, numbers);
    let mut event = what.event;
    event.last = drawn;
    event.duration = clock.wrapping_sub(what.event.start);
    event.lock = numbers.lock;
    event.errors = numbers.errors;
    event.warnings = numbers.warnings;
    event.affected = numbers.affected;
    event.sent = numbers.sent;
    event.examined = numbers.examined;
    event
}
