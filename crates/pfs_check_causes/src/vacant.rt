//! Rows that stood FREE when they were read.

ghost use Rattle.std.specs.Prelude.{ℕ, ◌≡◌, ◌++◌, ◌∷◌, ◌==◌, ◌&&◌, ◌||◌, [], List, IfOk, OnOk};
ghost use Rattle.pfs_check_floors.specs.KeyedGivens.{by_phase};
ghost use Rattle.pfs_check_floors.specs.KnownFloors.{IsSeatOf, Tells};
ghost use Rattle.pfs_check_floors.specs.RowNames.{AreRowsOf};
ghost use Rattle.pfs_check_tops.specs.SortedTops.{AreTopsOf};
ghost use Rattle.pfs_model.specs.Causes.{WasFree};
ghost use Rattle.pfs_model.specs.Chains.{opens_free, release_of};
ghost use Rattle.pfs_model.specs.EntryPlaces.{Placed};
ghost use Rattle.pfs_check_causes.specs.FreeReleases.{reaches};

use crate::NoMemory;
use pfs_check_floors::{RowFloors, Seat, opens_free, push_given, release_in};
use pfs_check_tops::{Given, Tops, tops_of};
use pfs_event::Entry;
use std::alloc::Global;

/// The releases of rows, each with its phase, as they are collected.
#[derive(Debug, Drop)]
pub struct FreeGivens {
    pub releases: Vec<Given>,
}

/// The greatest version at which each row was released, up to each phase.
#[derive(Debug, Drop)]
pub struct FreeRows {
    pub releases: Tops,
}

// Whether the greatest version, where there is one, is at a floor or above.
pub(crate) fn reaches(top: Option<u64>, floor: u64) -> bool
    ensures { result ≡ reaches top floor }
{
    match top {
        Some(last) => floor <= last,
        None => false,
    }
}

fn is_vacant(opens: bool, top: Option<u64>, floor: u64) -> bool
    ensures { result ≡ ((opens && (floor == 0)) || reaches top floor) }
{
    (opens && floor == 0) || reaches(top, floor)
}

impl FreeGivens {
    /// Of no entries. It takes no memory.
    pub fn new(alloc: Global) -> FreeGivens
        ensures { result.releases.items ≡ by_phase release_of [] }
    {
        FreeGivens {
            releases: Vec::new(alloc),
        }
    }

    /// One entry more, in this phase. Err where memory runs out.
    pub fn note(&mut self, phase: u64, entry: &Entry) -> Result<(), NoMemory>
        ensures { OnOk result ((places : List Placed) → (place : Placed) → place.phase ≡ phase
            → place.entry ≡ entry.now → self.old.releases.items ≡ by_phase release_of places
            → self.new.releases.items ≡ by_phase release_of (places ++ place ∷ [])) }
    {
        let release = release_in(entry);
        push_given(&mut self.releases, phase, release)
    }

    /// The rows that were free, where these are of all entries. Err where memory runs out.
    pub fn into_rows(self, alloc: Global) -> Result<FreeRows, NoMemory>
        ensures { (all : List Placed) → self.releases.items ≡ by_phase release_of all
            → IfOk result (λ rows. AreTopsOf rows.releases (by_phase release_of all)) }
    {
        let releases = tops_of(alloc, self.releases)?;
        Ok(FreeRows { releases })
    }
}

impl FreeRows {
    /// Whether a row may have been found free at a place: at or above its floor it stood FREE.
    pub fn was_free(&self, rows: &RowFloors, seat: Seat, row: u64) -> bool
        ensures { (all : List Placed) → (earlier : List Placed) → (place : Placed) → AreRowsOf all earlier rows.now
            → AreTopsOf self.now.releases (by_phase release_of all) → IsSeatOf seat place
            → Tells (WasFree all earlier place row) result }
    {
        let floor = rows.floors.floor(seat, row as u128);
        let top = self.releases.greatest(row as u128, seat.phase);
        let opens = opens_free(row);
        is_vacant(opens, top, floor)
    }
}
