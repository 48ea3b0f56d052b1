//! The changes that entries give, each with where it stands.

ghost use Rattle.std.specs.Prelude.{◌≡◌};
ghost use Rattle.std.specs.Option.{option_to_list};
ghost use Rattle.pfs_model.specs.Chains.{action_change, row_change, word_change};
ghost use Rattle.pfs_check_versions.specs.PlacedChanges.{given_by};

use pfs_event::Entry;
use pfs_model::Change;

/// What is numbered, each number from 1 on once.
#[derive(Clone, Copy, Debug, PartialEq, Eq)]
pub enum Chained {
    /// The changes of each row, by its versions.
    Rows,
    /// The sets of each switch word, by its versions.
    Words,
    /// The actions, as the versions of row 0.
    Actions,
}

/// A change, and where it stands.
#[derive(Clone, Copy, Debug, PartialEq, Eq)]
pub struct PlacedChange {
    /// The line of the report, counted from 1.
    pub line: u64,
    /// The phase, counted from 1.
    pub phase: u64,
    /// The session in whose journal it stands.
    pub session: u64,
    pub change: Change,
}

/// Where a change stands.
#[derive(Clone, Copy, Debug, PartialEq, Eq)]
pub struct Made {
    /// The line of the report, counted from 1.
    pub line: u64,
    /// The phase, counted from 1.
    pub phase: u64,
    /// The session in whose journal it stands.
    pub session: u64,
}

fn row_change(entry: &Entry) -> Option<Change>
    ensures { option_to_list result ≡ row_change entry.now }
{
    match *entry {
        Entry::Add { row, version } => Some(Change { row, version }),
        Entry::Ring { row, version } => Some(Change { row, version }),
        Entry::Long { row, version, .. } => Some(Change { row, version }),
        Entry::Take { row, version } => Some(Change { row, version }),
        Entry::Give { row, version, .. } => Some(Change { row, version }),
        Entry::Tag { row, version } => Some(Change { row, version }),
        _ => None,
    }
}

fn word_change(entry: &Entry) -> Option<Change>
    ensures { option_to_list result ≡ word_change entry.now }
{
    match *entry {
        Entry::Set { word, version, .. } => Some(Change { row: word, version }),
        _ => None,
    }
}

fn action_change(entry: &Entry) -> Option<Change>
    ensures { option_to_list result ≡ action_change entry.now }
{
    match *entry {
        Entry::Connect { action, .. } => Some(Change {
            row: 0,
            version: action,
        }),
        Entry::Act { action } => Some(Change {
            row: 0,
            version: action,
        }),
        _ => None,
    }
}

/// The change that an entry is, of what is asked; None where it is none.
pub fn change_in(what: Chained, entry: &Entry) -> Option<Change>
    ensures { option_to_list result ≡ given_by what entry.now }
{
    match what {
        Chained::Rows => row_change(entry),
        Chained::Words => word_change(entry),
        Chained::Actions => action_change(entry),
    }
}
