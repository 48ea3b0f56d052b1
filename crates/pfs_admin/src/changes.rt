//! What an action changes, and what it answers.

use pfs_exec::{Delete, Insert, Update};
use pfs_names::NameId;
use pfs_rows::Truncation;

/// What an action changes.
#[derive(Debug, Drop)]
pub enum Change {
    /// The session connects, with the ids of its user's and its host's names.
    Connect { user: NameId, host: NameId },
    /// The session ends a connection.
    Quit,
    /// A table is truncated.
    Truncate(Truncation),
    /// A statement on the setup tables.
    Setup(SetupStatement),
}

/// A statement on the setup tables that is an action.
#[derive(Debug, Drop)]
pub enum SetupStatement {
    Update(Update),
    Insert(Insert),
    Delete(Delete),
    /// The rows of `setup_actors` or `setup_objects` are read; nothing changes.
    Show,
}

/// What an action answers: how many rows it met, or the number of an error.
#[derive(Clone, Copy, Debug, PartialEq, Eq)]
pub enum Reply {
    Changed(u64),
    Error(u16),
}
