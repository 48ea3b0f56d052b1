//! The lock words of a `held` or a `busy` line: what they show of others.

ghost use Rattle.std.specs.Prelude.{◌≡◌, ◌<◌, ◌+◌, ◌/◌, ◌%◌, ◌==◌, ◌&&◌, ◌||◌, not, nat_lt, nat_le, List};
ghost use Rattle.std.specs.BTreeMap.{get};
ghost use Rattle.pfs_model.specs.Causes.{AreBusy, IsCaused, IsHeldByOther, IsOthers, IsReleased, IsWord};
ghost use Rattle.pfs_model.specs.Chains.{change_at};
ghost use Rattle.pfs_model.specs.EntryPlaces.{Placed};
ghost use Rattle.pfs_check_floors.specs.KnownFloors.{IsSeatOf, Tells};
ghost use Rattle.pfs_check_floors.specs.ReleasedRows.{AreFreed, change_cmp};
ghost use Rattle.pfs_check_floors.specs.RowNames.{AreRowsOf};
ghost use Rattle.pfs_check_causes.specs.OwnVersions.{AreOwn};
ghost use Rattle.pfs_check_causes.specs.WordTests.{busy_test, freed_up_to};

use crate::own::{OwnChange, is_own, is_own_between};
use pfs_check_floors::{RowFloors, Seat};
use pfs_model::Change;
use std::collections::{BTreeMap, BTreeSet};

/// The two words of a line: the first that was found, and the one that was there in the end.
#[derive(Clone, Copy, Debug, PartialEq, Eq)]
pub struct Words {
    pub first: u64,
    pub second: u64,
}

fn is_seen_word(seen: bool, word: u64) -> bool
    ensures { result ≡ (seen && nat_lt (word % 4) 3) }
{
    seen && word % 4 < 3
}

fn is_word(rows: &RowFloors, seat: Seat, row: u64, word: u64) -> bool
    ensures { (all : List Placed) → (earlier : List Placed) → (place : Placed) → AreRowsOf all earlier rows.now
        → IsSeatOf seat place → Tells (IsWord all earlier place row word) result }
{
    let seen = rows.floors.is_seen_well(seat, row as u128, word / 4);
    is_seen_word(seen, word)
}

// One DIRTY word, or two that differ, the second not below the first and not ALLOCATED at the same version.
fn are_busy(words: Words) -> bool
    ensures { result ≡ busy_test words.first words.second }
{
    if words.second == words.first {
        words.first % 4 == 1
    } else {
        words.first / 4 <= words.second / 4
            && (words.second / 4 != words.first / 4 || words.second % 4 != 2)
    }
}

// Whether a row was released at a version up to a phase's end.
fn was_released(freed: &BTreeMap<Change, u64>, phase: u64, row: u64, version: u64) -> bool
    ensures { result ≡ freed_up_to (get change_cmp freed.now (change_at row version)) phase }
{
    match freed.get(&Change { row, version }) {
        Some(first) => *first <= phase,
        None => false,
    }
}

fn is_released(rows: &RowFloors, phase: u64, row: u64, version: u64) -> bool
    ensures { (all : List Placed) → (earlier : List Placed) → (place : Placed) → AreRowsOf all earlier rows.now
        → place.phase ≡ phase → Tells (IsReleased all place row version) result }
{
    was_released(&rows.releases.freed, phase, row, version)
}

fn is_anothers(version: u64, had: u64, own: bool) -> bool
    ensures { result ≡ (nat_le version had && not own) }
{
    version <= had && !own
}

// Whether another session made the change of a row to this version by the phase's end.
fn is_others(
    made: &BTreeSet<OwnChange>,
    rows: &RowFloors,
    seat: Seat,
    row: u64,
    version: u64,
) -> bool
    ensures { (all : List Placed) → (earlier : List Placed) → (place : Placed) → AreRowsOf all earlier rows.now
        → AreOwn all made.now → IsSeatOf seat place → 0 < version → Tells (IsOthers all place row version) result }
{
    let had = rows.floors.had(seat.phase, row as u128);
    let own = is_own(made, seat.session, row, version);
    is_anothers(version, had, own)
}

fn is_put_back(word: u64, others: bool, released: bool) -> bool
    ensures { result ≡ (not (word % 4 == 1) || (others || released)) }
{
    word % 4 != 1 || (others || released)
}

// Whether a DIRTY word was put back by another's change or by a release.
fn is_held_by_other(
    made: &BTreeSet<OwnChange>,
    rows: &RowFloors,
    seat: Seat,
    row: u64,
    word: u64,
) -> bool
    ensures { (all : List Placed) → (earlier : List Placed) → (place : Placed) → AreRowsOf all earlier rows.now
        → AreOwn all made.now → IsSeatOf seat place → Tells (IsHeldByOther all place row word) result }
{
    let others = is_others(made, rows, seat, row, word / 4 + 1);
    let released = is_released(rows, seat.phase, row, word / 4);
    is_put_back(word, others, released)
}

fn is_freed(word: u64, released: bool) -> bool
    ensures { result ≡ (not (word % 4 == 0) || released) }
{
    word % 4 != 0 || released
}

fn are_words(first: bool, second: bool, busy: bool, own: bool) -> bool
    ensures { result ≡ (first && (second && (busy && not own))) }
{
    first && (second && (busy && !own))
}

fn are_held(words: bool, first: bool, second: bool, freed: bool) -> bool
    ensures { result ≡ (words && (first && (second && freed))) }
{
    words && (first && (second && freed))
}

/// Whether the words of a `held` or a `busy` line of a row show that another session had it in hand.
pub(crate) fn is_caused(
    made: &BTreeSet<OwnChange>,
    rows: &RowFloors,
    seat: Seat,
    row: u64,
    words: Words,
) -> bool
    ensures { (all : List Placed) → (earlier : List Placed) → (place : Placed) → AreRowsOf all earlier rows.now
        → AreOwn all made.now → IsSeatOf seat place
        → Tells (IsCaused all earlier place row words.first words.second) result }
{
    let first = is_word(rows, seat, row, words.first);
    let second = is_word(rows, seat, row, words.second);
    let busy = are_busy(words);
    let own = is_own_between(made, seat.session, row, words.first / 4, words.second / 4);
    let all = are_words(first, second, busy, own);
    let first_held = is_held_by_other(made, rows, seat, row, words.first);
    let second_held = is_held_by_other(made, rows, seat, row, words.second);
    let released = is_released(rows, seat.phase, row, words.second / 4);
    let freed = is_freed(words.second, released);
    are_held(all, first_held, second_held, freed)
}
