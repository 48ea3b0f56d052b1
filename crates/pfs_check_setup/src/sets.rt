//! Sets of switch words.

ghost use Rattle.std.specs.Prelude.{◌≡◌, slice_get, Some};
ghost use Rattle.std.specs.Option.{option_to_list};
ghost use Rattle.pfs_check_setup.specs.DueSets.{IsFirstDifference};
ghost use Rattle.pfs_check_walk.specs.NumberTests.{Tells};
ghost use Rattle.pfs_check_setup.specs.PrintedActions.{is_moving, word_sets};

use pfs_event::Entry;

/// A set of a switch word by an action.
#[derive(Clone, Copy, Debug, PartialEq, Eq)]
pub struct WordSet {
    pub word: u64,
    pub version: u64,
    pub flags: u64,
}

/// The set that an entry is.
pub(crate) fn set_in(entry: &Entry) -> Option<WordSet>
    ensures { option_to_list result ≡ word_sets entry.now }
{
    match *entry {
        Entry::Set {
            word,
            version,
            flags,
        } => Some(WordSet {
            word,
            version,
            flags,
        }),
        _ => None,
    }
}

/// Whether it is another change by an action.
pub(crate) fn is_moving(entry: &Entry) -> bool
    ensures { result ≡ is_moving entry.now }
{
    matches!(
        *entry,
        Entry::Take { .. } | Entry::Give { .. } | Entry::Free { .. } | Entry::Tag { .. }
    )
}

// Whether this set is due at a place.
fn is_due(due: &[WordSet], at: usize, set: &WordSet) -> bool
    ensures { Tells (slice_get due.now at ≡ Some set.now) result }
{
    match due.get(at) {
        Some(own) => *own == *set,
        None => false,
    }
}

/// The first place at which the sets that are printed aren't those that are due; None where they are the same.
pub(crate) fn first_difference(due: &[WordSet], printed: &[WordSet]) -> Option<usize>
    ensures { IsFirstDifference due.now printed.now result }
{
    for at in 0..printed.len() {
        let set = &printed[at];
        if !is_due(due, at, set) {
            return Some(at);
        }
    }
    let is_short = printed.len() < due.len();
    if is_short {
        return Some(printed.len());
    }
    None
}
