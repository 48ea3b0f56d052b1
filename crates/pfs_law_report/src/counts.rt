//! How many events were lost for too many were open, and how many digests for there was no place for their texts.

ghost use Rattle.std.specs.Prelude.{◌≡◌, ◌+◌, ◌<◌, ◌^◌, cond, if◌then◌else◌, [], ◌∷◌};
ghost use Rattle.pfs_runs.specs.PhaseFinals.{is_lost_nested, is_lost_locker, is_unplaced};
ghost use Rattle.pfs_law_report.specs.LostCounts as spec;

use pfs_event::{Entry, Log, Verdict};
use pfs_rows::DIGEST_NULL;

/// How many digests of statements were lost for there was no place, and how many statements and how many waits for too
/// many were open.
#[derive(Clone, Copy, Debug, PartialEq, Eq)]
pub struct LostEvents {
    pub digests: u64,
    pub statements: u64,
    pub waits: u64,
}

impl LostEvents {
    /// Nothing was lost.
    pub const NONE: LostEvents = LostEvents {
        digests: 0,
        statements: 0,
        waits: 0,
    };
}

// What is lost by an event with this verdict; its digest is counted where it ends.
fn lost_by(verdict: Verdict) -> LostEvents
    ensures statements { result.statements ≡ (if is_lost_nested verdict then 1 else 0) }
    ensures waits { result.waits ≡ (if is_lost_locker verdict then 1 else 0) }
{
    match verdict {
        Verdict::LostNested => LostEvents {
            digests: 0,
            statements: 1,
            waits: 0,
        },
        Verdict::LostLocker => LostEvents {
            digests: 0,
            statements: 0,
            waits: 1,
        },
        _ => LostEvents::NONE,
    }
}

// What is lost by an entry.
fn lost_at(entry: &Entry) -> LostEvents
    ensures statements { result.statements ≡ spec.lost_statements (entry.now ∷ []) }
    ensures waits { result.waits ≡ spec.lost_waits (entry.now ∷ []) }
{
    match *entry {
        Entry::Start { verdict, .. } => lost_by(verdict),
        _ => LostEvents::NONE,
    }
}

// Whether additions bring an event behind this entry, where they do before it or not.
fn ends_behind(ends: bool, entry: &Entry) -> bool
    ensures is { result ≡ spec.ends_behind ends entry.now }
{
    match *entry {
        Entry::End { .. } => true,
        Entry::Settle | Entry::Act { .. } | Entry::Connect { .. } => false,
        _ => ends,
    }
}

// How many statements an entry brings to the row of the digests without a place.
fn unplaced_at(ends: bool, entry: &Entry) -> u64
    ensures is { result ≡ cond (is_unplaced ends entry.now) 1 0 }
{
    match *entry {
        Entry::Add { row, .. } | Entry::Held { row, .. } => {
            if ends && row == DIGEST_NULL { 1 } else { 0 }
        }
        _ => 0,
    }
}

/// What was lost so far, with what these entries of a session, from the beginning of a block on, say was lost.
pub fn count_lost(entries: &Log, so_far: LostEvents) -> LostEvents
    requires digests { so_far.digests < 2 ^ 63 }
    requires statements { so_far.statements < 2 ^ 63 }
    requires waits { so_far.waits < 2 ^ 63 }
    ensures digests { result.digests ≡ so_far.digests + spec.lost_digests entries.now.entries }
    ensures statements { result.statements ≡ so_far.statements + spec.lost_statements entries.now.entries }
    ensures waits { result.waits ≡ so_far.waits + spec.lost_waits entries.now.entries }
{
    let mut ends = false;
    let mut digests = so_far.digests;
    let mut statements = so_far.statements;
    let mut waits = so_far.waits;
    for at in 0..entries.count() {
        let entry = entries.entry(at);
        let unplaced = unplaced_at(ends, &entry);
        let lost = lost_at(&entry);
        let behind = ends_behind(ends, &entry);
        digests += unplaced;
        statements += lost.statements;
        waits += lost.waits;
        ends = behind;
    }
    LostEvents {
        digests,
        statements,
        waits,
    }
}
