//! Where events are brought, asked of one entry after another.

ghost use Rattle.std.specs.Prelude.{ℕ, ◌≡◌, ◌+◌, [], List, cond, IfOk};
ghost use Rattle.pfs_model.specs.EntryPlaces.{Placed};
ghost use Rattle.pfs_check_dues.specs.OwedPuts.{owed_after};
ghost use Rattle.pfs_check_verdicts.specs.PrintedSets.{GivesFlags};
ghost use Rattle.pfs_check_walk.specs.Walks.{onto};
ghost use Rattle.pfs_check_brought.specs.BroughtRules.{IsStopped};
ghost use Rattle.pfs_check_brought.specs.HistoryCounts.{AreHistories};
ghost use Rattle.pfs_check_brought.specs.KeptDues.{owed_of};
ghost use Rattle.pfs_check_brought.specs.StoppedWalks.{IsWalkedTo, is_event};

use crate::NoMemory;
use crate::dues::KeptDues;
use crate::ends::dues_at_end;
use crate::histories::HistoryCounts;
use crate::paying::{is_settled, left_behind, pays};
use crate::starts::{dues_at_start, started};
use pfs_check_verdicts::PrintedFlags;
use pfs_check_walk::{Spot, Track, Visit};
use pfs_event::Entry;
use pfs_model::Line;
use std::alloc::{AllocError, Global};

/// Where something due isn't there: the place of that entry, and that of the event. Places are counted from 0 over all
/// journals.
#[derive(Clone, Copy, Debug, PartialEq, Eq)]
pub struct Stop {
    pub event: u64,
    pub at: u64,
}

/// Walks over the entries up to the first that doesn't pay what is due, and over the others without asking: what is
/// left where all entries paid is known at the end alone.
#[derive(Drop)]
pub struct Bringing {
    pub flags: PrintedFlags,
    pub histories: HistoryCounts,
    /// What is left of the last event's dues; None behind an entry that begins something else.
    pub owed: Option<KeptDues>,
    /// How many entries paid so far.
    pub place: u64,
    /// The place of the last start or end.
    pub event: u64,
    pub stop: Option<Stop>,
}

// Whether an event starts or ends.
fn is_event(entry: &Entry) -> bool
    ensures { result ≡ is_event entry.now }
{
    matches!(*entry, Entry::Start { .. } | Entry::End { .. })
}

// The place of the last event, behind an entry at this place.
fn event_behind(event: u64, place: u64, entry: &Entry) -> u64
    ensures { result ≡ cond (is_event entry.now) place event }
{
    if is_event(entry) { place } else { event }
}

// NoMemory stands too for more than can be counted, which no memory holds.
fn next_place(place: u64) -> Result<u64, NoMemory>
    ensures { IfOk result (λ next. next ≡ place + 1) }
{
    match place.checked_add(1) {
        Some(next) => Ok(next),
        None => Err(AllocError),
    }
}

impl Bringing {
    /// Before the first entry, by the flags of the report.
    pub(crate) fn new(alloc: Global, flags: PrintedFlags) -> Bringing
        ensures { (given : ℕ → ℕ → ℕ) → GivesFlags given flags → IsWalkedTo given [] result result.stop }
    {
        Bringing {
            flags,
            histories: HistoryCounts::new(alloc),
            owed: None,
            place: 0,
            event: 0,
            stop: None,
        }
    }

    // What is left behind an entry that pays.
    fn owed_behind<T: Track>(
        &self,
        session: u64,
        line: &Line,
        track: &T,
        entry: &Entry,
    ) -> Option<KeptDues>
        ensures { (flags : ℕ → ℕ → ℕ) → (earlier : List Placed) → (place : Placed) → GivesFlags flags self.now.flags
            → AreHistories earlier self.now.histories → T.tells track.now place.context → place.session ≡ session
            → place.line ≡ line.now → place.entry ≡ entry.now
            → owed_of result ≡ owed_after flags earlier place place.entry (owed_of self.now.owed) }
    {
        match *entry {
            Entry::Start { .. } => {
                let begins = started(line, entry);
                Some(dues_at_start(&self.flags, track, begins))
            }
            Entry::End {
                consumers,
                thread,
                ..
            } => Some(dues_at_end(
                &self.flags,
                &self.histories,
                session,
                track,
                consumers,
                thread,
            )),
            _ => left_behind(self.owed, entry),
        }
    }

    /// Where something due isn't there, behind all entries; None where all events are brought.
    pub(crate) fn stopped(&self) -> Option<Stop>
        ensures { (flags : ℕ → ℕ → ℕ) → (all : List Placed) → IsWalkedTo flags (onto [] all) self.now self.now.stop
            → IsStopped flags all result }
    {
        if let Some(stop) = self.stop {
            return Some(stop);
        }
        let settled = is_settled(self.owed);
        if settled {
            return None;
        }
        Some(Stop {
            event: self.event,
            at: self.place,
        })
    }
}

impl Visit for Bringing {
    ghost use Rattle.pfs_check_faults.specs.ReportCases.{flags_in};
    ghost use Rattle.pfs_check_brought.specs.StoppedWalks.{IsWalkedTo};

    ghost rule = { λ case found earlier place. Unit {0} };

    ghost knows = { λ visitor case found earlier. IsWalkedTo (flags_in case found) earlier visitor visitor.stop };

    fn visit<T: Track>(
        &mut self,
        spot: Spot,
        line: &Line,
        track: &T,
        entry: &Entry,
    ) -> Result<bool, NoMemory> {
        let stopped = self.stop.is_some();
        if stopped {
            return Ok(true);
        }
        let paid = pays(self.owed, entry);
        if !paid {
            self.stop = Some(Stop {
                event: self.event,
                at: self.place,
            });
            return Ok(true);
        }
        let owed = self.owed_behind(spot.session, line, track, entry);
        self.histories.note(spot.session, track.slot(), entry)?;
        self.event = event_behind(self.event, self.place, entry);
        let next = next_place(self.place)?;
        self.place = next;
        self.owed = owed;
        Ok(true)
    }
}
