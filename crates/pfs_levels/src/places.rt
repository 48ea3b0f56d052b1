//! Which rows are moved, and where to.

ghost use Rattle.std.specs.Prelude.{◌≡◌};
ghost use Rattle.pfs_levels.specs.Flushes.{cells_of};

use pfs_event::EventKind;
use std::marker::Model;

/// The rows that get what is taken from a row: at most two.
#[derive(Clone, Copy, Debug, PartialEq, Eq)]
pub struct Targets {
    pub first: Option<u64>,
    pub second: Option<u64>,
}

/// One of the levels below the global one.
#[derive(Clone, Copy, Debug, PartialEq, Eq)]
pub enum Level {
    Thread,
    Account,
    User,
    Host,
}

/// A live thread or account with its upper places, where it has them.
#[derive(Clone, Copy, Debug, PartialEq, Eq)]
pub struct Up {
    pub place: u64,
    pub account: Option<u64>,
    pub user: Option<u64>,
    pub host: Option<u64>,
}

/// A list of places with their upper places.
#[derive(Drop)]
pub struct UpList {
    items: Vec<Up>,
}

impl Model for UpList {
    ghost use Rattle.std.specs.Prelude.{List};
    ghost use Rattle.pfs_levels.specs.declared.places.Up.{Up};

    ghost Value = { List Up };

    ghost view = { λ s. s.items.items };
}

impl UpList {
    /// The list of these, without taking memory.
    pub fn new(items: Vec<Up>) -> UpList
        ensures { result ≡ items.items }
    {
        UpList { items }
    }

    /// The list in its order.
    pub fn as_slice(&self) -> &[Up]
        ensures { result.now ≡ self.now }
    {
        self.items.as_slice()
    }

    /// Gives the list back.
    pub fn into_vec(self) -> Vec<Up>
        ensures { result.items ≡ self }
    {
        self.items
    }
}

/// A list of numbers.
#[derive(Drop)]
pub struct NumberList {
    items: Vec<u64>,
}

impl Model for NumberList {
    ghost use Rattle.std.specs.Prelude.{ℕ, List};

    ghost Value = { List ℕ };

    ghost view = { λ s. s.items.items };
}

impl NumberList {
    /// The list of these, without taking memory.
    pub fn new(items: Vec<u64>) -> NumberList
        ensures { result ≡ items.items }
    {
        NumberList { items }
    }

    /// The list in its order.
    pub fn as_slice(&self) -> &[u64]
        ensures { result.now ≡ self.now }
    {
        self.items.as_slice()
    }

    /// Gives the list back.
    pub fn into_vec(self) -> Vec<u64>
        ensures { result.items ≡ self }
    {
        self.items
    }
}

/// The live threads, accounts, users and hosts, and for each kind the cells of its registered classes. Each list
/// ascends.
#[derive(Drop)]
pub struct Places {
    pub threads: UpList,
    pub accounts: UpList,
    pub users: NumberList,
    pub hosts: NumberList,
    pub waits: NumberList,
    pub stages: NumberList,
    pub statements: NumberList,
    pub transactions: NumberList,
}

impl Places {
    /// The cells of a kind.
    pub fn cells(&self, kind: EventKind) -> &[u64]
        ensures { result.now ≡ cells_of self.now kind }
    {
        match kind {
            EventKind::Wait => self.waits.as_slice(),
            EventKind::Stage => self.stages.as_slice(),
            EventKind::Statement => self.statements.as_slice(),
            EventKind::Transaction => self.transactions.as_slice(),
        }
    }
}
