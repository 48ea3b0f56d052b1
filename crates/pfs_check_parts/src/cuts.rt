//! Entries cut by a shape.

ghost use Rattle.std.specs.Prelude.{◌≡◌, ◌+◌, ◌^◌, ◌≤◌, ◌<◌, true, length, drop};
ghost use Rattle.pfs_model.specs.Cuts.{behind, step, cut};
ghost use Rattle.pfs_check_parts.specs.Stops.{stopped, fits_first};

use crate::asks::fits;
use pfs_journal::EntryList;
use pfs_model::{Ask, Item, Often};

/// How far a shape reaches: the place behind it, or that of the first entry that doesn't fit.
#[derive(Clone, Copy, Debug, PartialEq, Eq)]
pub(crate) struct Stop {
    pub at: usize,
    pub whole: bool,
}

// Whether there is an entry, and it is what is asked.
fn fits_at(ask: Ask, entries: &EntryList, at: usize) -> bool
    ensures value { result ≡ fits_first ask (drop at entries.now) }
    ensures within { result ≡ true → at < length entries.now }
    ensures few { result ≡ true → at + 1 < 2 ^ 64 }
{
    at < entries.count() && fits(ask, &entries.entry(at))
}

// The place behind all that is asked.
fn behind(ask: Ask, entries: &EntryList, at: usize) -> usize
    requires { at ≤ length entries.now }
    ensures place { behind ask (drop at entries.now) ≡ drop result entries.now }
    ensures within { result ≤ length entries.now }
    ensures onward { at ≤ result }
{
    let mut end = at;
    'skipping: while fits_at(ask, entries, end) {
        end += 1;
    }
    end
}

fn step_at(item: Item, entries: &EntryList, at: usize) -> Stop
    requires { at ≤ length entries.now }
    ensures stop { step item.often item.ask (drop at entries.now) ≡ stopped result entries.now }
    ensures within { result.at ≤ length entries.now }
    ensures onward { at ≤ result.at }
{
    match item.often {
        Often::One => {
            if fits_at(item.ask, entries, at) {
                Stop {
                    at: at + 1,
                    whole: true,
                }
            } else {
                Stop { at, whole: false }
            }
        }
        Often::Maybe => {
            if fits_at(item.ask, entries, at) {
                Stop {
                    at: at + 1,
                    whole: true,
                }
            } else {
                Stop { at, whole: true }
            }
        }
        Often::Many => Stop {
            at: behind(item.ask, entries, at),
            whole: true,
        },
    }
}

/// Cuts the entries from a place on.
pub(crate) fn cut_at(items: &[Item], entries: &EntryList, at: usize) -> Stop
    requires { at ≤ length entries.now }
    ensures stop { cut items.now (drop at entries.now) ≡ stopped result entries.now }
    ensures within { result.at ≤ length entries.now }
    ensures onward { at ≤ result.at }
{
    let mut place = at;
    for item in items {
        let stop = step_at(*item, entries, place);
        if !stop.whole {
            return stop;
        }
        place = stop.at;
    }
    Stop {
        at: place,
        whole: true,
    }
}
