//! The deeds that entries are.

ghost use Rattle.std.specs.Prelude.{◌≡◌, ◌+◌, ◌++◌, IfOk, OnOk};
ghost use Rattle.std.specs.Option.{option_to_list};
ghost use Rattle.pfs_check_deeds.specs.PlacedDeeds.{placed_at};

use crate::NoMemory;
use pfs_check_falls::PlacedDeed;
use pfs_event::Entry;
use std::alloc::AllocError;

/// What an entry does to a row by this action, at this place among all entries; None where it is no take, no give, no
/// tag and no release.
pub fn deed_in(place: u64, action: u64, entry: &Entry) -> Option<PlacedDeed>
    ensures { option_to_list result ≡ placed_at place action entry.now }
{
    let (row, version, releases) = match *entry {
        Entry::Take { row, version } => (row, version, false),
        Entry::Give { row, version, .. } => (row, version, false),
        Entry::Tag { row, version } => (row, version, false),
        Entry::Free { row, version } => (row, version, true),
        _ => return None,
    };
    Some(PlacedDeed {
        row,
        version,
        releases,
        action,
        place,
    })
}

/// Collects a deed, if there is one. Err where memory runs out.
pub(crate) fn push_deed(
    deeds: &mut Vec<PlacedDeed>,
    deed: Option<PlacedDeed>,
) -> Result<(), NoMemory>
    ensures { OnOk result (deeds.new.items ≡ deeds.old.items ++ option_to_list deed) }
{
    match deed {
        Some(deed) => {
            deeds.push(deed)?;
            Ok(())
        }
        None => Ok(()),
    }
}

/// One more. NoMemory stands too for more than can be counted, which no memory holds.
pub(crate) fn one_more(count: u64) -> Result<u64, NoMemory>
    ensures { IfOk result (λ more. more ≡ count + 1) }
{
    match count.checked_add(1) {
        Some(more) => Ok(more),
        None => Err(AllocError),
    }
}
