//! The releases of rows: up to each action, and before each phase.

ghost use Rattle.std.specs.Prelude.{ℕ, ◌≡◌, ◌++◌, ◌∷◌, [], ◌==◌, ◌&&◌, ◌||◌, not, List, cond, min, nat_lt, Some, OnOk};
ghost use Rattle.std.specs.Option.{option_to_list};
ghost use Rattle.std.specs.BTreeMap.{get};
ghost use Rattle.pfs_model.specs.declared.changes.Change.{Change};
ghost use Rattle.pfs_model.specs.Chains.{is_free_after, is_that, opens_free, release_of, row_change};
ghost use Rattle.pfs_model.specs.EntryPlaces.{Placed, before_phase};
ghost use Rattle.pfs_check_floors.specs.KnownFloors.{begun_by};
ghost use Rattle.pfs_check_floors.specs.ReleasedRows.{AreFreed, below_test, change_cmp, earlier_of, freed_by};

use crate::NoMemory;
use pfs_check_tops::Tops;
use pfs_model::Change;
use std::collections::BTreeMap;

/// The releases of the rows of a report.
#[derive(Debug, Drop)]
pub struct Releases {
    /// The greatest version at which a row was released, up to each action.
    pub actions: Tops,
    /// The first phase in which a row was released at a version.
    pub freed: BTreeMap<Change, u64>,
}

fn earlier_of(first: Option<u64>, phase: u64) -> u64
    ensures { result ≡ earlier_of first phase }
{
    match first {
        Some(first) => first.min(phase),
        None => phase,
    }
}

// Keeps the first phase of a release.
fn keep_first(
    freed: &mut BTreeMap<Change, u64>,
    phase: u64,
    release: Change,
) -> Result<(), NoMemory>
    ensures { OnOk result ((change : Change) → get change_cmp freed.new change
        ≡ cond (is_that change release) (Some (earlier_of (get change_cmp freed.old release) phase))
        (get change_cmp freed.old change)) }
{
    let first = earlier_of(freed.get(&release).copied(), phase);
    freed.insert(release, first)?;
    Ok(())
}

/// One entry more, in this phase, with the release that it is.
pub(crate) fn note_freed(
    freed: &mut BTreeMap<Change, u64>,
    phase: u64,
    release: Option<Change>,
) -> Result<(), NoMemory>
    ensures { OnOk result ((places : List Placed) → (place : Placed) → place.phase ≡ phase
        → release_of place.entry ≡ option_to_list release → AreFreed places freed.old
        → AreFreed (places ++ place ∷ []) freed.new) }
{
    match release {
        Some(release) => keep_first(freed, phase, release),
        None => Ok(()),
    }
}

// Whether a row was released at a version before a phase.
fn was_freed(freed: &BTreeMap<Change, u64>, phase: u64, change: Change) -> bool
    ensures { result ≡ freed_by (get change_cmp freed.now change) phase }
{
    match freed.get(&change) {
        Some(first) => *first < phase,
        None => false,
    }
}

/// Whether a row is FREE before its first change.
pub fn opens_free(row: u64) -> bool
    ensures { result ≡ opens_free row }
{
    (row > 0 && row < 129) || row >= 8450
}

fn is_free(freed: bool, start: u64, row: u64) -> bool
    ensures { result ≡ (freed || ((start == 0) && opens_free row)) }
{
    freed || (start == 0 && opens_free(row))
}

/// Whether a version is above a release, if there is one, and above the row's version as the phase began, if it stood
/// FREE then.
pub(crate) fn is_clear(top: Option<u64>, start: u64, free: bool, version: u64) -> bool
    ensures { result ≡ (below_test top version && (nat_lt start version || not free)) }
{
    let is_below = match top {
        Some(last) => last < version,
        None => true,
    };
    is_below && (start < version || !free)
}

/// Whether a row that began a phase at this version stood FREE then.
pub(crate) fn stood_free(freed: &BTreeMap<Change, u64>, phase: u64, row: u64, start: u64) -> bool
    ensures { (all : List Placed) → AreFreed all freed.now
        → start ≡ begun_by row_change all phase row
        → result ≡ is_free_after (before_phase phase all) row }
{
    let freed_before = was_freed(
        freed,
        phase,
        Change {
            row,
            version: start,
        },
    );
    is_free(freed_before, start, row)
}
