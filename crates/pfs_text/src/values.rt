//! The values that tables show, in rows and lists of rows.
ghost use Rattle.std.specs.Prelude.{◌≡◌, ◌++◌, ◌∷◌, [], OnOk, OnErr};

use crate::{NoMemory, Text};
use std::marker::Model;

/// One value of a row: what stands in one column.
#[derive(Debug, Drop)]
pub enum RowValue {
    /// No value, which is `NULL`.
    Null,
    /// A number.
    Number(u64),
    /// A text. In a report it has the bytes 9 and 32 to 126 alone.
    Text(Text),
}

/// The values of one row, in the order of their columns.
#[derive(Debug, Drop)]
pub struct Row {
    items: Vec<RowValue>,
}

impl Model for Row {
    ghost use Rattle.std.specs.Prelude.{List};
    ghost use Rattle.pfs_text.specs.declared.values.RowValue.{RowValue};

    ghost Value = { List RowValue };

    ghost view = { λ row. row.items.items };
}

impl Row {
    /// The row of these values. It takes no memory.
    pub fn new(items: Vec<RowValue>) -> Row
        ensures { result ≡ items.items }
    {
        Row { items }
    }

    /// The values, in order.
    pub fn as_slice(&self) -> &[RowValue]
        ensures { result.now ≡ self.now }
    {
        self.items.as_slice()
    }

    /// The values, given back without taking memory.
    pub fn into_vec(self) -> Vec<RowValue>
        ensures { result.items ≡ self }
    {
        self.items
    }

    /// Adds a value behind the last. Out of memory it is dropped, and the row is as before.
    pub fn push(&mut self, value: RowValue) -> Result<(), NoMemory>
        ensures ok { OnOk result (self.new ≡ self.old ++ value ∷ []) }
        ensures err { OnErr result (self.new ≡ self.old) }
    {
        self.items.push(value)?;
        Ok(())
    }
}

/// Rows, in order: what a table shows, and what a query answers.
#[derive(Debug, Drop)]
pub struct Rowset {
    items: Vec<Row>,
}

impl Model for Rowset {
    ghost use Rattle.std.specs.Prelude.{List};
    ghost use Rattle.pfs_text.specs.declared.values.RowValue.{RowValue};

    ghost Value = { List (List RowValue) };

    ghost view = { λ rows. rows.items.items };
}

impl Rowset {
    /// The list of these rows. It takes no memory.
    pub fn new(items: Vec<Row>) -> Rowset
        ensures { result ≡ items.items }
    {
        Rowset { items }
    }

    /// The rows, in order.
    pub fn as_slice(&self) -> &[Row]
        ensures { result.now ≡ self.now }
    {
        self.items.as_slice()
    }

    /// The rows, given back without taking memory.
    pub fn into_vec(self) -> Vec<Row>
        ensures { result.items ≡ self }
    {
        self.items
    }

    /// Adds a row behind the last. Out of memory it is dropped, and the list is as before.
    pub fn push(&mut self, row: Row) -> Result<(), NoMemory>
        ensures ok { OnOk result (self.new ≡ self.old ++ row ∷ []) }
        ensures err { OnErr result (self.new ≡ self.old) }
    {
        self.items.push(row)?;
        Ok(())
    }
}
