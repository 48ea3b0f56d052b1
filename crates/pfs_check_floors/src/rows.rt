//! What lines may name of rows.

ghost use Rattle.std.specs.Prelude.{◌≡◌, ◌∷◌, ◌++◌, [], List, OnOk};
ghost use Rattle.pfs_model.specs.Chains.{change_at};
ghost use Rattle.pfs_model.specs.EntryPlaces.{Placed};
ghost use Rattle.pfs_model.specs.Floors.{Changes, Frees, IsAboveReleases, NamingsKeep, Sees, naming, namings_of, rows_known};
ghost use Rattle.pfs_check_floors.specs.KnownFloors.{AreRaised, IsSeatOf, Tells};
ghost use Rattle.pfs_check_floors.specs.RowNames.{AreRowsOf, naming_list};

use crate::NoMemory;
use crate::changes::row_change;
use crate::floors::{Floors, Seat, SessionRow, both, raise};
use crate::releases::{Releases, is_clear, stood_free};
use pfs_event::Entry;
use std::collections::BTreeMap;

/// The floors of rows, and their releases.
#[derive(Debug, Drop)]
pub struct RowFloors {
    pub floors: Floors,
    pub releases: Releases,
}

/// How an entry names a row.
#[derive(Clone, Copy, Debug, PartialEq, Eq)]
pub(crate) enum Names {
    /// It changes the row.
    Changed { row: u64, version: u64 },
    /// It read the row.
    Seen { row: u64, version: u64 },
    /// It released the row.
    Freed { row: u64, version: u64 },
    /// It names none.
    Nothing,
}

fn names_in(entry: &Entry) -> Names
    ensures { naming_list result ≡ namings_of entry.now }
{
    match *entry {
        Entry::Add { row, version } => Names::Changed { row, version },
        Entry::Ring { row, version } => Names::Changed { row, version },
        Entry::Long { row, version, .. } => Names::Changed { row, version },
        Entry::Take { row, version } => Names::Changed { row, version },
        Entry::Give { row, version, .. } => Names::Changed { row, version },
        Entry::Tag { row, version } => Names::Changed { row, version },
        Entry::Seen { row, version } => Names::Seen { row, version },
        Entry::Free { row, version } => Names::Freed { row, version },
        _ => Names::Nothing,
    }
}

fn raise_two(
    known: &mut BTreeMap<SessionRow, u64>,
    session: u64,
    row: u64,
    one: u64,
    other: u64,
) -> Result<(), NoMemory>
    ensures { OnOk result (AreRaised known.old known.new session (change_at row one ∷ change_at row other ∷ [])) }
{
    raise(known, session, row as u128, one)?;
    raise(known, session, row as u128, other)
}

/// A session has seen what an entry of it shows of rows.
pub(crate) fn note_rows(
    known: &mut BTreeMap<SessionRow, u64>,
    session: u64,
    entry: &Entry,
) -> Result<(), NoMemory>
    ensures { OnOk result (AreRaised known.old known.new session (rows_known entry.now)) }
{
    match *entry {
        Entry::Held { row, first, second } => raise_two(known, session, row, first / 4, second / 4),
        Entry::Busy { row, first, second } => raise_two(known, session, row, first / 4, second / 4),
        Entry::Seen { row, version } => raise(known, session, row as u128, version),
        Entry::Free { row, version } => raise(known, session, row as u128, version),
        _ => match row_change(entry) {
            Some(change) => raise(known, session, change.row as u128, change.version),
            None => Ok(()),
        },
    }
}

impl RowFloors {
    // Whether no release that the session must have seen is at the version or above.
    fn is_above_releases(&self, seat: Seat, row: u64, version: u64) -> bool
        ensures { (all : List Placed) → (earlier : List Placed) → (place : Placed) → AreRowsOf all earlier self.now
            → IsSeatOf seat place → Tells (IsAboveReleases all place row version) result }
    {
        let top = self.releases.actions.greatest(row as u128, seat.done);
        let begun = self.floors.start(seat.phase, row as u128);
        let free = stood_free(&self.releases.freed, seat.phase, row, begun);
        is_clear(top, begun, free, version)
    }

    fn is_changed_well(&self, seat: Seat, row: u64, version: u64) -> bool
        ensures { (all : List Placed) → (earlier : List Placed) → (place : Placed) → AreRowsOf all earlier self.now
            → IsSeatOf seat place → Tells (NamingsKeep all earlier place (naming Changes row version)) result }
    {
        let behind = self.floors.is_changed_well(seat, row as u128, version);
        let above = self.is_above_releases(seat, row, version);
        both(behind, above)
    }

    fn is_seen_well(&self, seat: Seat, row: u64, version: u64) -> bool
        ensures { (all : List Placed) → (earlier : List Placed) → (place : Placed) → AreRowsOf all earlier self.now
            → IsSeatOf seat place → Tells (NamingsKeep all earlier place (naming Sees row version)) result }
    {
        let between = self.floors.is_seen_well(seat, row as u128, version);
        let above = self.is_above_releases(seat, row, version);
        both(between, above)
    }

    fn is_freed_well(&self, seat: Seat, row: u64, version: u64) -> bool
        ensures { (all : List Placed) → (earlier : List Placed) → (place : Placed) → AreRowsOf all earlier self.now
            → IsSeatOf seat place → Tells (NamingsKeep all earlier place (naming Frees row version)) result }
    {
        self.floors.is_seen_well(seat, row as u128, version)
    }

    fn keeps(&self, seat: Seat, names: Names) -> bool
        ensures { (all : List Placed) → (earlier : List Placed) → (place : Placed) → AreRowsOf all earlier self.now
            → IsSeatOf seat place → Tells (NamingsKeep all earlier place (naming_list names)) result }
    {
        match names {
            Names::Changed { row, version } => self.is_changed_well(seat, row, version),
            Names::Seen { row, version } => self.is_seen_well(seat, row, version),
            Names::Freed { row, version } => self.is_freed_well(seat, row, version),
            Names::Nothing => true,
        }
    }

    /// Whether an entry names its row at a version that its session may name there.
    pub fn names_well(&self, seat: Seat, entry: &Entry) -> bool
        ensures { (all : List Placed) → (earlier : List Placed) → (place : Placed) → AreRowsOf all earlier self.now
            → IsSeatOf seat place → Tells (NamingsKeep all earlier place (namings_of entry.now)) result }
    {
        let names = names_in(entry);
        self.keeps(seat, names)
    }
}
