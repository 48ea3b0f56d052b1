//! A list of readings.

ghost use Rattle.std.specs.Prelude.{◌≡◌};

use pfs_rows::Reading;
use std::marker::Model;

/// The readings of a table, in the order in which they were made.
#[derive(Debug, Drop)]
pub struct ReadingList {
    items: Vec<Reading>,
}

impl Model for ReadingList {
    ghost use Rattle.std.specs.Prelude.{List};
    ghost use Rattle.pfs_rows.specs.declared.table.Reading.{Reading};

    ghost Value = { List Reading };

    ghost view = { λ list. list.items.items };
}

impl ReadingList {
    /// The list of these readings. It takes no memory.
    pub fn new(items: Vec<Reading>) -> ReadingList
        ensures { result ≡ items.items }
    {
        ReadingList { items }
    }

    /// The readings, in order.
    pub fn as_slice(&self) -> &[Reading]
        ensures { result.now ≡ self.now }
    {
        self.items.as_slice()
    }

    /// The readings, given back without taking memory.
    pub fn into_vec(self) -> Vec<Reading>
        ensures { result.items ≡ self }
    {
        self.items
    }
}
