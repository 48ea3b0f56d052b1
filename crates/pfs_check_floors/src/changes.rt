//! The changes and releases that entries are.

ghost use Rattle.std.specs.Prelude.{◌≡◌};
ghost use Rattle.std.specs.Option.{option_to_list};
ghost use Rattle.pfs_model.specs.Chains.{release_of, row_change, word_change};

use pfs_event::Entry;
use pfs_model::Change;

/// The change of a row that an entry is.
pub fn row_change(entry: &Entry) -> Option<Change>
    ensures { option_to_list result ≡ row_change entry.now }
{
    match *entry {
        Entry::Add { row, version } => Some(Change { row, version }),
        Entry::Ring { row, version } => Some(Change { row, version }),
        Entry::Long { row, version, .. } => Some(Change { row, version }),
        Entry::Take { row, version } => Some(Change { row, version }),
        Entry::Give { row, version, .. } => Some(Change { row, version }),
        Entry::Tag { row, version } => Some(Change { row, version }),
        _ => None,
    }
}

/// The change of a switch word that it is.
pub(crate) fn word_change(entry: &Entry) -> Option<Change>
    ensures { option_to_list result ≡ word_change entry.now }
{
    match *entry {
        Entry::Set { word, version, .. } => Some(Change { row: word, version }),
        _ => None,
    }
}

/// The release of a row that it is.
pub fn release_in(entry: &Entry) -> Option<Change>
    ensures { option_to_list result ≡ release_of entry.now }
{
    match *entry {
        Entry::Free { row, version } => Some(Change { row, version }),
        _ => None,
    }
}
