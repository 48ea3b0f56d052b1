//! A query whose names are resolved.
ghost use Rattle.std.specs.Prelude.{◌≡◌};

use crate::{Change, TestList};
use pfs_rows::Table;
use std::marker::Model;

/// A column that rows are ordered by: its place, from 0, and whether `DESC` turns its order.
#[derive(Clone, Copy, Debug, PartialEq, Eq)]
pub struct Order {
    pub column: u64,
    pub descending: bool,
}

/// Places of columns, in order.
#[derive(Debug, Drop)]
pub struct NumberList {
    items: Vec<u64>,
}

impl Model for NumberList {
    ghost use Rattle.std.specs.Prelude.{ℕ, List};

    ghost Value = { List ℕ };

    ghost view = { λ numbers. numbers.items.items };
}

impl NumberList {
    /// The list of these numbers. It takes no memory.
    pub fn new(items: Vec<u64>) -> NumberList
        ensures { result ≡ items.items }
    {
        NumberList { items }
    }

    /// The numbers, in order.
    pub fn as_slice(&self) -> &[u64]
        ensures { result.now ≡ self.now }
    {
        self.items.as_slice()
    }
}

/// Columns that rows are ordered by, the one that counts most first.
#[derive(Debug, Drop)]
pub struct OrderList {
    items: Vec<Order>,
}

impl Model for OrderList {
    ghost use Rattle.std.specs.Prelude.{List};
    ghost use Rattle.pfs_exec.specs.declared.query.Order.{Order};

    ghost Value = { List Order };

    ghost view = { λ orders. orders.items.items };
}

impl OrderList {
    /// The list of these columns. It takes no memory.
    pub fn new(items: Vec<Order>) -> OrderList
        ensures { result ≡ items.items }
    {
        OrderList { items }
    }

    /// The columns, in order.
    pub fn as_slice(&self) -> &[Order]
        ensures { result.now ≡ self.now }
    {
        self.items.as_slice()
    }
}

/// A SELECT: the table, the places of the columns that are shown, the conditions, the order, and how many rows
/// at most.
#[derive(Debug, Drop)]
pub struct Select {
    pub table: Table,
    pub columns: NumberList,
    pub tests: TestList,
    pub order: OrderList,
    pub limit: Option<u64>,
}

/// What a command is planned as: a query over the rows of a table, or a change.
#[derive(Debug, Drop)]
pub enum Plan {
    Select(Select),
    Change(Change),
}
