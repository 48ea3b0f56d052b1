//! The changes of rows, as they are replayed.

use pfs_stat::Stat;

/// What a change makes of the content before it.
#[derive(Clone, Copy, Debug, PartialEq, Eq)]
pub enum Effect {
    /// Events of this amount are added to it; None where an addition brings none.
    Add(Option<Stat>),
    /// Nothing is counted any more.
    Take,
    /// What another row had before it was taken, at this version, is added to it.
    Give { from: u64, version: u64 },
    /// These words stand there.
    Put([u64; 16]),
}

/// A change of a row.
#[derive(Clone, Copy, Debug, PartialEq, Eq)]
pub struct RowChange {
    /// The number of the row.
    pub row: u64,
    /// Its version behind the change, from 1 on.
    pub version: u64,
    /// The number of the action that takes, gives or tags; 0 for an addition or a put of an event.
    pub action: u64,
    pub effect: Effect,
}
