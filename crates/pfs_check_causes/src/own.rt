//! The changes that each session made itself.

ghost use Rattle.std.specs.Prelude.{◌≡◌, ◌++◌, ◌∷◌, [], List, true, cond, OnOk};
ghost use Rattle.std.specs.BTreeSet.{contains};
ghost use Rattle.pfs_model.specs.EntryPlaces.{Placed};
ghost use Rattle.pfs_check_floors.specs.KnownFloors.{Tells};
ghost use Rattle.pfs_check_causes.specs.OwnVersions.{AreOwn, HasBetween, is_same_own, own_at, own_cmp};

use crate::NoMemory;
use pfs_check_floors::row_change;
use pfs_event::Entry;
use std::alloc::Global;
use std::collections::BTreeSet;
use std::ops::Bound;

/// A change of a row, and the session in whose journal it stands.
#[derive(Clone, Copy, Debug, PartialEq, Eq, PartialOrd, Ord)]
pub struct OwnChange {
    pub session: u64,
    pub row: u64,
    pub version: u64,
}

fn insert_own(made: &mut BTreeSet<OwnChange>, own: OwnChange) -> Result<(), NoMemory>
    ensures { OnOk result ((one : OwnChange)
        → contains own_cmp made.new one ≡ cond (is_same_own own one) true (contains own_cmp made.old one)) }
{
    made.insert(own)?;
    Ok(())
}

/// Of no entries. It takes no memory.
pub(crate) fn none_made(alloc: Global) -> BTreeSet<OwnChange>
    ensures { AreOwn [] result }
{
    BTreeSet::new(alloc)
}

/// One entry more of a session. Err where memory runs out.
pub(crate) fn note_own(
    made: &mut BTreeSet<OwnChange>,
    session: u64,
    entry: &Entry,
) -> Result<(), NoMemory>
    ensures { OnOk result ((places : List Placed) → (place : Placed) → place.session ≡ session
        → place.entry ≡ entry.now → AreOwn places made.old → AreOwn (places ++ place ∷ []) made.new) }
{
    match row_change(entry) {
        Some(change) => insert_own(
            made,
            OwnChange {
                session,
                row: change.row,
                version: change.version,
            },
        ),
        None => Ok(()),
    }
}

/// Whether a session made a change of a row at this version.
pub(crate) fn is_own(made: &BTreeSet<OwnChange>, session: u64, row: u64, version: u64) -> bool
    ensures { result ≡ contains own_cmp made.now (own_at session row version) }
{
    made.contains(&OwnChange {
        session,
        row,
        version,
    })
}

/// Whether a session made a change of a row above the first version and up to the last, by a search in order.
pub(crate) fn is_own_between(
    made: &BTreeSet<OwnChange>,
    session: u64,
    row: u64,
    first: u64,
    last: u64,
) -> bool
    ensures { Tells (HasBetween made.now session row first last) result }
{
    if last <= first {
        return false;
    }
    let after = OwnChange {
        session,
        row,
        version: first,
    };
    let up_to = OwnChange {
        session,
        row,
        version: last,
    };
    let mut between = made.range((Bound::Excluded(after), Bound::Included(up_to)));
    between.next().is_some()
}
