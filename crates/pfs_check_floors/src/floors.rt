//! The floors of rows, or of switch words: what their sessions must have seen.

ghost use Rattle.std.specs.Prelude.{ℕ, ◌≡◌, ◌<◌, ◌≤◌, ◌&&◌, List, [], ◌∷◌, cond, max, nat_lt, nat_le, unwrap_or, OnOk};
ghost use Rattle.std.specs.BTreeMap.{get};
ghost use Rattle.pfs_event.specs.declared.entry.Entry.{Entry};
ghost use Rattle.pfs_model.specs.declared.changes.Change.{Change};
ghost use Rattle.pfs_model.specs.Chains.{change_at};
ghost use Rattle.pfs_model.specs.EntryPlaces.{Placed};
ghost use Rattle.pfs_check_floors.specs.declared.floors.SessionRow.{SessionRow};
ghost use Rattle.pfs_check_floors.specs.KnownFloors.{AreFloorsOf, AreRaised, IsSeatOf, Tells, begun_by, floor_by, had_by, is_same_seat, known_at, seat_cmp};

use crate::NoMemory;
use pfs_check_tops::Tops;
use std::collections::BTreeMap;

/// A session, and a row or a switch word of which it knows.
#[derive(Clone, Copy, Debug, PartialEq, Eq, PartialOrd, Ord)]
pub struct SessionRow {
    pub session: u64,
    pub row: u128,
}

/// Where an entry stands: its phase, its session, and the session's last action that has ended before its line.
#[derive(Clone, Copy, Debug, PartialEq, Eq)]
pub struct Seat {
    pub phase: u64,
    pub session: u64,
    pub done: u64,
}

/// What the rows of a report were, or its switch words, and what its sessions knew of them so far.
#[derive(Debug, Drop)]
pub struct Floors {
    /// The greatest versions up to each phase.
    pub phases: Tops,
    /// Those up to each action, of what actions changed.
    pub actions: Tops,
    /// The greatest version that the entries of a session so far show.
    pub known: BTreeMap<SessionRow, u64>,
}

fn or_none(top: Option<u64>) -> u64
    ensures { result ≡ unwrap_or top 0 }
{
    top.unwrap_or(0)
}

fn greatest_of(one: u64, other: u64, last: u64) -> u64
    ensures { result ≡ max (max one other) last }
{
    one.max(other).max(last)
}

fn is_between(floor: u64, version: u64, had: u64) -> bool
    ensures { result ≡ (nat_le floor version && nat_le version had) }
{
    floor <= version && version <= had
}

fn is_behind(floor: u64, version: u64, had: u64) -> bool
    ensures { result ≡ (nat_lt floor version && nat_le version had) }
{
    floor < version && version <= had
}

/// Whether both hold.
pub(crate) fn both(one: bool, other: bool) -> bool
    ensures { result ≡ (one && other) }
{
    one && other
}

fn known_at(known: &BTreeMap<SessionRow, u64>, seat: SessionRow) -> u64
    ensures { result ≡ known_at known.now seat }
{
    known.get(&seat).copied().unwrap_or(0)
}

// Keeps the greater version.
fn raise_to(
    known: &mut BTreeMap<SessionRow, u64>,
    one: SessionRow,
    version: u64,
) -> Result<(), NoMemory>
    ensures { OnOk result ((seat : SessionRow) → known_at known.new seat
        ≡ cond (is_same_seat one seat) (max (known_at known.old one) version) (known_at known.old seat)) }
{
    let greatest = known_at(known, one).max(version);
    known.insert(one, greatest)?;
    Ok(())
}

/// A session has seen a row at a version.
pub(crate) fn raise(
    known: &mut BTreeMap<SessionRow, u64>,
    session: u64,
    row: u128,
    version: u64,
) -> Result<(), NoMemory>
    ensures { OnOk result (AreRaised known.old known.new session (change_at row version ∷ [])) }
{
    raise_to(known, SessionRow { session, row }, version)
}

impl Floors {
    // The version of a row as a phase begins.
    pub(crate) fn start(&self, phase: u64, row: u128) -> u64
        ensures { (given : Entry → List Change) → (shown : List Placed → List Change) → (all : List Placed)
            → (earlier : List Placed) → AreFloorsOf given shown all earlier self.now
            → result ≡ begun_by given all phase row }
    {
        if phase == 0 {
            return 0;
        }
        or_none(self.phases.greatest(row, phase - 1))
    }

    /// How many versions it has by the phase's end.
    pub fn had(&self, phase: u64, row: u128) -> u64
        ensures { (given : Entry → List Change) → (shown : List Placed → List Change) → (all : List Placed)
            → (earlier : List Placed) → AreFloorsOf given shown all earlier self.now
            → result ≡ had_by given all phase row }
    {
        or_none(self.phases.greatest(row, phase))
    }

    /// The floor of a row or a switch word: what is named of it stands there or above.
    pub fn floor(&self, seat: Seat, row: u128) -> u64
        ensures { (given : Entry → List Change) → (shown : List Placed → List Change) → (all : List Placed)
            → (earlier : List Placed) → (place : Placed) → AreFloorsOf given shown all earlier self.now
            → IsSeatOf seat place → result ≡ floor_by given shown all earlier place row }
    {
        let begun = self.start(seat.phase, row);
        let seen = known_at(
            &self.known,
            SessionRow {
                session: seat.session,
                row,
            },
        );
        let acted = or_none(self.actions.greatest(row, seat.done));
        greatest_of(begun, seen, acted)
    }

    /// Whether it may be seen at a version: from its floor up to what it has by the phase's end.
    pub fn is_seen_well(&self, seat: Seat, row: u128, version: u64) -> bool
        ensures { (given : Entry → List Change) → (shown : List Placed → List Change) → (all : List Placed)
            → (earlier : List Placed) → (place : Placed) → AreFloorsOf given shown all earlier self.now
            → IsSeatOf seat place
            → Tells ((floor_by given shown all earlier place row ≤ version)
            × (version ≤ had_by given all place.phase row)) result }
    {
        let low = self.floor(seat, row);
        let high = self.had(seat.phase, row);
        is_between(low, version, high)
    }

    // Whether it may be changed to a version: above its floor, up to what it has by the phase's end.
    pub(crate) fn is_changed_well(&self, seat: Seat, row: u128, version: u64) -> bool
        ensures { (given : Entry → List Change) → (shown : List Placed → List Change) → (all : List Placed)
            → (earlier : List Placed) → (place : Placed) → AreFloorsOf given shown all earlier self.now
            → IsSeatOf seat place
            → Tells ((floor_by given shown all earlier place row < version)
            × (version ≤ had_by given all place.phase row)) result }
    {
        let low = self.floor(seat, row);
        let high = self.had(seat.phase, row);
        is_behind(low, version, high)
    }
}
