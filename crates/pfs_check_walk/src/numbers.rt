//! The numbers of events.

ghost use Rattle.std.specs.Prelude.{◌≡◌};
ghost use Rattle.pfs_event.specs.declared.entry.Entry.{Entry};
ghost use Rattle.pfs_model.specs.Contexts.{Context};
ghost use Rattle.pfs_model.specs.EventNumbers.{IsNumbered};
ghost use Rattle.pfs_check_walk.specs.NumberTests.{Tells, last_number, number_due, own_number};

use crate::NoMemory;
use crate::visits::{Spot, Track, Visit};
use pfs_event::{Entry, Verdict};
use pfs_model::{Line, Opened};

/// Asks of each event whether its numbers are the next ones. The rule is MySQL's: an event that is let through draws its
/// EVENT_ID as it starts, and END_EVENT_ID is the last that was drawn as it ends.
#[derive(Clone, Copy, Debug, PartialEq, Eq)]
pub struct EventNumbers;

fn is_number(drawn: u64, verdict: Verdict, event: Option<u64>) -> bool
    ensures { Tells (event ≡ number_due drawn verdict) result }
{
    match event {
        Some(number) => verdict.is_let_through() && number > drawn && number - drawn == 1,
        None => !verdict.is_let_through(),
    }
}

fn is_own(innermost: Option<Opened>, event: Option<u64>) -> bool
    ensures { Tells (event ≡ own_number innermost) result }
{
    match innermost {
        Some(opened) => event == opened.number,
        None => event.is_none(),
    }
}

fn is_last(drawn: u64, innermost: Option<Opened>, last: Option<u64>) -> bool
    ensures { Tells (last ≡ last_number drawn innermost) result }
{
    match innermost {
        Some(opened) => {
            if opened.verdict.is_let_through() {
                last == Some(drawn)
            } else {
                last.is_none()
            }
        }
        None => last.is_none(),
    }
}

fn is_numbered<T: Track>(track: &T, entry: &Entry) -> bool
    ensures { (context : Context) → T.tells track.now context → Tells (IsNumbered context entry.now) result }
{
    match *entry {
        Entry::Start { event, verdict, .. } => is_number(track.drawn(), verdict, event),
        Entry::End { event, last, .. } => {
            is_own(track.innermost(), event) && is_last(track.drawn(), track.innermost(), last)
        }
        _ => true,
    }
}

impl Visit for EventNumbers {
    ghost use Rattle.pfs_model.specs.EventNumbers.{IsNumbered};

    ghost rule = { λ case found earlier place. IsNumbered place.context place.entry };

    ghost knows = { λ visitor case found earlier. Unit {0} };

    fn visit<T: Track>(
        &mut self,
        _spot: Spot,
        _line: &Line,
        track: &T,
        entry: &Entry,
    ) -> Result<bool, NoMemory> {
        Ok(is_numbered(track, entry))
    }
}
