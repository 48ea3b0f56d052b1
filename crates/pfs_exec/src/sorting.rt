//! Rows in the order of their columns.
ghost use Rattle.std.specs.Prelude.{◌≡◌, OnOk, map};
ghost use Rattle.pfs_exec.specs.Selections.{IsInOrder, column_cmp, row_cmp};

use crate::values::{compare, shown_at};
use crate::{NoMemory, Order};
use pfs_text::{Row, RowValue};
use std::cmp::Ordering;

fn compare_column(order: &Order, a: &[RowValue], b: &[RowValue]) -> Ordering
    ensures { result ≡ column_cmp order.now a.now b.now }
{
    let first = shown_at(a, order.column);
    let second = shown_at(b, order.column);
    if order.descending {
        compare(second, first)
    } else {
        compare(first, second)
    }
}

fn compare_rows(orders: &[Order], a: &[RowValue], b: &[RowValue]) -> Ordering
    ensures { result ≡ row_cmp orders.now a.now b.now }
{
    for order in orders {
        let ordering = compare_column(order, a, b);
        if ordering.is_ne() {
            return ordering;
        }
    }
    Ordering::Equal
}

/// Sorts the rows by the columns, the first one first. Rows that are equal there keep their order.
pub(crate) fn sort_rows(rows: &mut Vec<&Row>, orders: &[Order]) -> Result<(), NoMemory>
    ensures { OnOk result
        (IsInOrder orders.now (map (λ row. row.now) rows.old.items) (map (λ row. row.now) rows.new.items)) }
{
    rows.sort_by(|a, b| compare_rows(orders, a.as_slice(), b.as_slice()))?;
    Ok(())
}
