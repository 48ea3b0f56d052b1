//! What the calls of a session answer, and what their parts do.

use crate::setup::Setup;
use pfs_admin::Lost;
use pfs_event::Verdict;
use pfs_levels::Added;
use pfs_rings::Put;

/// The last action that a session made in a phase: its number, and what connects had found no place by its end.
#[derive(Clone, Copy, Debug, PartialEq, Eq)]
pub struct LastAction {
    pub number: u64,
    pub lost: Lost,
}

/// What became of a start: the EVENT_ID of an event that is let through, the verdict, the words that were loaded, which
/// are none without a thread slot and for a lost class, and what became of its put to its current place, where it was
/// offered there.
#[derive(Clone, Copy, Debug, PartialEq, Eq)]
pub struct Started {
    pub event: Option<u64>,
    pub verdict: Verdict,
    pub seen: Option<Setup>,
    pub current: Option<Put>,
}

/// What became of an event at its end: of one that isn't let through, its verdict, by which it counts nowhere.
#[derive(Clone, Copy, Debug, PartialEq, Eq)]
pub enum End {
    Through(Ended),
    Silent(Verdict),
}

/// What became of an event that was let through, at its end: of its addition to the row of its cell, of that of a
/// digested statement to the row of its digest, and of its puts to the rings that it was offered to.
#[derive(Clone, Copy, Debug, PartialEq, Eq)]
pub struct Ended {
    pub summary: Added,
    pub digest: Option<Added>,
    pub current: Option<Put>,
    pub history: Option<Put>,
    pub long: Option<Put>,
}

/// What became of an event's addition to the row of its cell, and the flags that its end loaded.
#[derive(Clone, Copy)]
pub(crate) struct Counting {
    pub summary: Added,
    pub consumers: u16,
    pub thread: u16,
}

/// What became of an event's puts at its end.
#[derive(Clone, Copy)]
pub(crate) struct Puts {
    pub current: Option<Put>,
    pub history: Option<Put>,
    pub long: Option<Put>,
}
