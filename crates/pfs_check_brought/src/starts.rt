//! What is due behind the start of an event.

ghost use Rattle.std.specs.Prelude.{ℕ, ◌≡◌};
ghost use Rattle.pfs_model.specs.Contexts.{Context, subject_of};
ghost use Rattle.pfs_model.specs.Puts.{Puts, dues_at_start};
ghost use Rattle.pfs_check_verdicts.specs.PrintedSets.{GivesFlags};
ghost use Rattle.pfs_check_brought.specs.KeptDues.{due_where, dues_of, opened_behind, started_by};

use crate::dues::KeptDues;
use crate::offers::{current_due, depth_of};
use pfs_check_trail::subject_in;
use pfs_check_verdicts::PrintedFlags;
use pfs_check_walk::Track;
use pfs_event::Entry;
use pfs_model::{Line, Opened};

/// The event that a start begins, where its line starts one. Of how many it is the next isn't told.
pub(crate) fn started(line: &Line, entry: &Entry) -> Option<Opened>
    ensures { result ≡ started_by (subject_of line.now) entry.now }
{
    let subject = subject_in(line)?;
    match *entry {
        Entry::Start {
            event,
            verdict,
            consumers,
            thread,
            class,
            table,
        } => Some(Opened {
            subject,
            verdict,
            index: 0,
            number: event,
            consumers,
            thread,
            class,
            table,
        }),
        _ => None,
    }
}

// The current place alone is due.
fn only_current(current: Option<u128>) -> KeptDues
    ensures { dues_of result ≡ due_where Puts current }
{
    KeptDues {
        cell: None,
        digest: None,
        current,
        history: None,
        long: None,
    }
}

/// The current place of the innermost open event, where it is offered to it. The counts of the track have the event
/// itself.
pub(crate) fn innermost_due<T: Track>(kept: &PrintedFlags, track: &T) -> Option<u128>
    ensures { (flags : ℕ → ℕ → ℕ) → (context : Context) → GivesFlags flags kept.now → T.tells track.now context
        → due_where Puts result ≡ dues_at_start flags context.slot context.opened }
{
    let event = track.innermost()?;
    let statements = track.statements().saturating_sub(1);
    let waits = track.waits().saturating_sub(1);
    let depth = depth_of(event.subject.kind, statements, waits);
    current_due(kept, track.slot(), &event, depth)
}

/// What is due behind the start of an event; where the line starts none, of the innermost that is open.
pub(crate) fn dues_at_start<T: Track>(
    kept: &PrintedFlags,
    track: &T,
    started: Option<Opened>,
) -> KeptDues
    ensures { (flags : ℕ → ℕ → ℕ) → (context : Context) → GivesFlags flags kept.now → T.tells track.now context
        → dues_of result ≡ dues_at_start flags context.slot (opened_behind started context.opened) }
{
    let Some(event) = started else {
        return only_current(innermost_due(kept, track));
    };
    let depth = depth_of(event.subject.kind, track.statements(), track.waits());
    only_current(current_due(kept, track.slot(), &event, depth))
}
