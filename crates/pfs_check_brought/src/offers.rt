//! Whether an event is offered to the places of rings, by the flags that its start and its end saw.

ghost use Rattle.std.specs.Prelude.{ℕ, ◌≡◌, ◌&&◌, Option, List, Some, true};
ghost use Rattle.pfs_consumers.specs.declared.Consumer.{Consumer};
ghost use Rattle.pfs_consumers.specs.Tree.{acts_of, is_on};
ghost use Rattle.pfs_event.specs.declared.kind.EventKind.{EventKind};
ghost use Rattle.pfs_model.specs.declared.lines.Opened.{Opened};
ghost use Rattle.pfs_model.specs.Puts.{Puts, current_due};
ghost use Rattle.pfs_model.specs.SetupFlags.{current_consumer, flags_seen, has_history, history_consumer, is_attributed, is_offered_at_end, is_offered_current, long_consumer, thread_word};
ghost use Rattle.pfs_check_verdicts.specs.PrintedSets.{GivesFlags};
ghost use Rattle.pfs_check_brought.specs.KeptDues.{IsDepth, depth_by, due_where};

use crate::rows::current_row;
use pfs_check_verdicts::PrintedFlags;
use pfs_consumers::Consumer;
use pfs_event::{EventKind, Verdict};
use pfs_model::Opened;

/// An event that ends: the slot that its session printed, the event, and the versions that its end loaded.
#[derive(Clone, Copy, Debug, PartialEq, Eq)]
pub struct Ended {
    pub slot: Option<u64>,
    pub event: Opened,
    pub consumers: Option<u64>,
    pub thread: Option<u64>,
}

// Whether a consumer's flag is YES.
fn is_on(flags: u64, consumer: Consumer) -> bool
    ensures { result ≡ is_on flags consumer }
{
    flags >> consumer.bit() & 1 == 1
}

/// Whether a consumer acts: it and all that stand over it are YES.
pub(crate) fn acts(flags: u64, consumer: Consumer) -> bool
    ensures { result ≡ acts_of flags consumer }
{
    is_on(flags, consumer)
        && match consumer.parent() {
            Some(above) => acts(flags, above),
            None => true,
        }
}

// Whether HISTORY of a thread is YES.
fn has_history(flags: u64) -> bool
    ensures { result ≡ has_history flags }
{
    flags >> 1 & 1 == 1
}

fn is_attributed(verdict: Verdict) -> bool
    ensures { result ≡ is_attributed verdict }
{
    matches!(verdict, Verdict::Attributed)
}

fn current_consumer(kind: EventKind) -> Consumer
    ensures { result ≡ current_consumer kind }
{
    match kind {
        EventKind::Wait => Consumer::WaitsCurrent,
        EventKind::Stage => Consumer::StagesCurrent,
        EventKind::Statement => Consumer::StatementsCurrent,
        EventKind::Transaction => Consumer::TransactionsCurrent,
    }
}

/// The consumer of a kind's history.
pub(crate) fn history_consumer(kind: EventKind) -> Consumer
    ensures { result ≡ history_consumer kind }
{
    match kind {
        EventKind::Wait => Consumer::WaitsHistory,
        EventKind::Stage => Consumer::StagesHistory,
        EventKind::Statement => Consumer::StatementsHistory,
        EventKind::Transaction => Consumer::TransactionsHistory,
    }
}

/// The consumer of a kind's long history.
pub(crate) fn long_consumer(kind: EventKind) -> Consumer
    ensures { result ≡ long_consumer kind }
{
    match kind {
        EventKind::Wait => Consumer::WaitsHistoryLong,
        EventKind::Stage => Consumer::StagesHistoryLong,
        EventKind::Statement => Consumer::StatementsHistoryLong,
        EventKind::Transaction => Consumer::TransactionsHistoryLong,
    }
}

/// The consumers' flags at a version; 0 where none is named.
pub(crate) fn consumers_seen(kept: &PrintedFlags, version: Option<u64>) -> u64
    ensures { (flags : ℕ → ℕ → ℕ) → GivesFlags flags kept.now
        → result ≡ flags_seen flags (λ number. number) (Some 0) version }
{
    kept.seen(0, Some(0), version)
}

fn both(one: bool, other: bool) -> bool
    ensures { result ≡ (one && other) }
{
    one && other
}

// Whether an event is offered to its current place: it is attributed, and that consumer acted at its start.
fn is_offered_current(kept: &PrintedFlags, event: &Opened) -> bool
    ensures { (flags : ℕ → ℕ → ℕ) → (slot : Option ℕ) → GivesFlags flags kept.now
        → result ≡ is_offered_current flags slot event.now }
{
    let seen = consumers_seen(kept, event.consumers);
    let acts = acts(seen, current_consumer(event.subject.kind));
    both(is_attributed(event.verdict), acts)
}

/// Whether an event is offered at its end to the ring of this consumer of its kind: to its current place, and that
/// consumer acted then, and HISTORY of its thread was YES.
pub(crate) fn is_offered_at_end(kept: &PrintedFlags, ended: &Ended, consumer: Consumer) -> bool
    ensures { (flags : ℕ → ℕ → ℕ) → (ring : EventKind → Consumer) → GivesFlags flags kept.now
        → consumer ≡ ring ended.now.event.subject.kind
        → result ≡ is_offered_at_end ring flags ended.now.slot ended.now.event ended.now.consumers ended.now.thread }
{
    let current = is_offered_current(kept, &ended.event);
    let acts = acts(consumers_seen(kept, ended.consumers), consumer);
    let history = has_history(kept.seen(1, ended.slot, ended.thread));
    both(both(current, acts), history)
}

/// The depth of an event of a kind, where so many let-through statements and waits stand around it.
pub(crate) fn depth_of(kind: EventKind, statements: u64, waits: u64) -> u64
    ensures { result ≡ depth_by kind statements waits }
{
    match kind {
        EventKind::Wait => waits,
        EventKind::Statement => statements,
        EventKind::Stage | EventKind::Transaction => 0,
    }
}

/// The current place of an event at a depth, where it is offered to it.
pub(crate) fn current_due(
    kept: &PrintedFlags,
    slot: Option<u64>,
    event: &Opened,
    depth: u64,
) -> Option<u128>
    ensures { (flags : ℕ → ℕ → ℕ) → (others : List Opened) → GivesFlags flags kept.now
        → (is_attributed event.now.verdict ≡ true → IsDepth event.now.subject.kind others depth)
        → due_where Puts result ≡ current_due flags slot event.now others }
{
    let own = slot?;
    if is_offered_current(kept, event) {
        return Some(current_row(own, event.subject.kind, depth));
    }
    None
}
