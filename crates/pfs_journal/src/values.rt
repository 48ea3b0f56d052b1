//! The tables and counters at a phase's end.

ghost use Rattle.std.specs.Prelude.{◌≡◌};

use pfs_text::{Rowset, Text};
use std::marker::Model;

/// A table at a phase's end.
#[derive(Drop)]
pub struct TableReport {
    /// Its name: letters, digits and `_`, at least one.
    pub name: Text,
    /// Its rows, at least one. A table without rows is left out of a report.
    pub rows: Rowset,
}

/// The tables at a phase's end, in order.
#[derive(Drop)]
pub struct TableList {
    items: Vec<TableReport>,
}

impl Model for TableList {
    ghost use Rattle.std.specs.Prelude.{List};
    ghost use Rattle.pfs_journal.specs.declared.values.TableReport.{TableReport};

    ghost Value = { List TableReport };

    ghost view = { λ list. list.items.items };
}

impl TableList {
    /// The list of these tables. It takes no memory.
    pub fn new(items: Vec<TableReport>) -> TableList
        ensures { result ≡ items.items }
    {
        TableList { items }
    }

    /// The tables, in order.
    pub fn as_slice(&self) -> &[TableReport]
        ensures { result.now ≡ self.now }
    {
        self.items.as_slice()
    }

    /// The tables, given back without taking memory.
    pub fn into_vec(self) -> Vec<TableReport>
        ensures { result.items ≡ self }
    {
        self.items
    }
}

/// A counter of what was lost, at a phase's end.
#[derive(Drop)]
pub struct LostReport {
    /// Its name: letters, digits and `_`, at least one.
    pub name: Text,
    /// How much was lost.
    pub number: u64,
}

/// The counters of what was lost, in order.
#[derive(Drop)]
pub struct LostList {
    items: Vec<LostReport>,
}

impl Model for LostList {
    ghost use Rattle.std.specs.Prelude.{List};
    ghost use Rattle.pfs_journal.specs.declared.values.LostReport.{LostReport};

    ghost Value = { List LostReport };

    ghost view = { λ list. list.items.items };
}

impl LostList {
    /// The list of these counters. It takes no memory.
    pub fn new(items: Vec<LostReport>) -> LostList
        ensures { result ≡ items.items }
    {
        LostList { items }
    }

    /// The counters, in order.
    pub fn as_slice(&self) -> &[LostReport]
        ensures { result.now ≡ self.now }
    {
        self.items.as_slice()
    }

    /// The counters, given back without taking memory.
    pub fn into_vec(self) -> Vec<LostReport>
        ensures { result.items ≡ self }
    {
        self.items
    }
}
