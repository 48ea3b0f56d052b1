//! What is due behind the end of an event.

ghost use Rattle.std.specs.Prelude.{ℕ, ◌≡◌, List, Option};
ghost use Rattle.pfs_model.specs.EntryAsks.{digest_row};
ghost use Rattle.pfs_model.specs.EntryPlaces.{Placed};
ghost use Rattle.pfs_model.specs.Puts.{Adds, Puts, PutsLong, due_if, dues_at_end, history_place, in_slot};
ghost use Rattle.pfs_model.specs.Rings.{ring_number};
ghost use Rattle.pfs_model.specs.SetupFlags.{history_consumer, is_digested, is_offered_at_end, long_consumer};
ghost use Rattle.pfs_model.specs.Shapes.{counted_slot};
ghost use Rattle.pfs_check_verdicts.specs.PrintedSets.{GivesFlags};
ghost use Rattle.pfs_check_brought.specs.HistoryCounts.{AreHistories};
ghost use Rattle.pfs_check_brought.specs.KeptDues.{due_where, dues_of};

use crate::dues::KeptDues;
use crate::histories::{HistoryCounts, HistoryKey};
use crate::offers::{
    Ended, acts, consumers_seen, history_consumer, is_offered_at_end, long_consumer,
};
use crate::rows::{cell_row, digest_row, history_row, ring_number};
use crate::starts::innermost_due;
use pfs_check_verdicts::PrintedFlags;
use pfs_check_walk::Track;
use pfs_consumers::Consumer;
use pfs_event::{EventKind, Verdict};
use pfs_model::Opened;

// The slot in which an event counts.
fn counted_slot(slot: Option<u64>, verdict: Verdict) -> Option<u64>
    ensures { result ≡ counted_slot slot verdict }
{
    match verdict {
        Verdict::Attributed => slot,
        _ => None,
    }
}

fn is_digested(kept: &PrintedFlags, event: &Opened) -> bool
    ensures { (flags : ℕ → ℕ → ℕ) → (slot : Option ℕ) → GivesFlags flags kept.now
        → result ≡ is_digested flags slot event.now }
{
    let seen = consumers_seen(kept, event.consumers);
    let acts = acts(seen, Consumer::StatementsDigest);
    let through = event.verdict.is_let_through();
    let statement = matches!(event.subject.kind, EventKind::Statement);
    statement && through && acts
}

// The row of a statement's digest, where it is digested.
fn digest_due(kept: &PrintedFlags, event: &Opened) -> Option<u128>
    ensures { (flags : ℕ → ℕ → ℕ) → (slot : Option ℕ) → GivesFlags flags kept.now
        → due_where Adds result
        ≡ due_if (is_digested flags slot event.now) (Adds (digest_row event.now.subject.digest)) }
{
    if is_digested(kept, event) {
        return Some(digest_row(event.subject.digest));
    }
    None
}

// The next place of the history, where the event is offered to it.
fn history_due(
    kept: &PrintedFlags,
    histories: &HistoryCounts,
    session: u64,
    ended: &Ended,
) -> Option<u128>
    ensures { (flags : ℕ → ℕ → ℕ) → (earlier : List Placed) → GivesFlags flags kept.now
        → AreHistories earlier histories.now
        → due_where Puts result ≡ in_slot ended.now.slot (λ own. due_if
        (is_offered_at_end history_consumer flags ended.now.slot ended.now.event ended.now.consumers ended.now.thread)
        (Puts (history_place earlier session own (ring_number ended.now.event.subject.kind)))) }
{
    let slot = ended.slot?;
    let consumer = history_consumer(ended.event.subject.kind);
    if is_offered_at_end(kept, ended, consumer) {
        let kind = ring_number(ended.event.subject.kind);
        let put = histories.of(HistoryKey {
            session,
            slot,
            kind,
        });
        return Some(history_row(slot, kind, put));
    }
    None
}

// The kind's long history, where the event is offered to it.
fn long_due(kept: &PrintedFlags, ended: &Ended) -> Option<u64>
    ensures { (flags : ℕ → ℕ → ℕ) → GivesFlags flags kept.now
        → due_where PutsLong result ≡ in_slot ended.now.slot (λ own. due_if
        (is_offered_at_end long_consumer flags ended.now.slot ended.now.event ended.now.consumers ended.now.thread)
        (PutsLong (ring_number ended.now.event.subject.kind))) }
{
    let _slot = ended.slot?;
    let consumer = long_consumer(ended.event.subject.kind);
    if is_offered_at_end(kept, ended, consumer) {
        return Some(ring_number(ended.event.subject.kind));
    }
    None
}

/// What is due behind the end of the innermost open event of a session, whose end loaded these versions.
pub(crate) fn dues_at_end<T: Track>(
    kept: &PrintedFlags,
    histories: &HistoryCounts,
    session: u64,
    track: &T,
    consumers: Option<u64>,
    thread: Option<u64>,
) -> KeptDues
    ensures { (flags : ℕ → ℕ → ℕ) → (earlier : List Placed) → (place : Placed) → GivesFlags flags kept.now
        → AreHistories earlier histories.now → T.tells track.now place.context → place.session ≡ session
        → dues_of result ≡ dues_at_end flags earlier place place.context.opened consumers thread }
{
    let Some(event) = track.innermost() else {
        return KeptDues::none();
    };
    if !event.verdict.is_let_through() {
        return KeptDues::none();
    }
    let slot = track.slot();
    let ended = Ended {
        slot,
        event,
        consumers,
        thread,
    };
    let counted = counted_slot(slot, event.verdict);
    KeptDues {
        cell: Some(cell_row(counted, event.subject.cell)),
        digest: digest_due(kept, &event),
        current: innermost_due(kept, track),
        history: history_due(kept, histories, session, &ended),
        long: long_due(kept, &ended),
    }
}
