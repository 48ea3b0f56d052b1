//! The answer of a query over rows.
ghost use Rattle.std.specs.Prelude.{◌≡◌, IfOk, filter, map, take, length};
ghost use Rattle.std.specs.List.{list_all};
ghost use Rattle.pfs_exec.specs.Selections.{IsAnswer, limited, meets_all, meets_value, named_columns, value_at};

use crate::sorting::sort_rows;
use crate::values::{copy_at, shown_at};
use crate::{NoMemory, Select};
use pfs_text::{Row, RowValue, Rowset, Test, meets};
use std::alloc::Global;

/// The answer of the query over a table's rows: those that meet all conditions, in a stable order by the named
/// columns, the first of them up to the limit, and of these the named columns. NULL goes first, and last under
/// `DESC`; numbers order by value, texts by their bytes. A place that a row doesn't have counts as NULL. That letter
/// case counts in texts is our own rule. It is refused only where memory runs out.
pub fn select(alloc: Global, query: &Select, rows: &Rowset) -> Result<Rowset, NoMemory>
    ensures { IfOk result (IsAnswer query.now rows.now) }
{
    let mut kept = kept_rows(alloc, query.tests.as_slice(), rows.as_slice())?;
    sort_rows(&mut kept, query.order.as_slice())?;
    show_rows(
        alloc,
        query.columns.as_slice(),
        first_rows(query.limit, &kept),
    )
}

// The rows that meet all conditions.
fn kept_rows<'a>(alloc: Global, tests: &[Test], rows: &'a [Row]) -> Result<Vec<&'a Row>, NoMemory>
    ensures { IfOk result (λ kept. map (λ row. row.now) kept.items ≡ filter (meets_all tests.now) rows.now) }
{
    let mut kept = Vec::new(alloc);
    for row in rows {
        if meets_tests(tests, row.as_slice()) {
            kept.push(row)?;
        }
    }
    Ok(kept)
}

fn meets_tests(tests: &[Test], row: &[RowValue]) -> bool
    ensures { result ≡ meets_all tests.now row.now }
{
    for test in tests {
        if !meets_test(test, row) {
            return false;
        }
    }
    true
}

fn meets_test(test: &Test, row: &[RowValue]) -> bool
    ensures { result ≡ meets_value test.now.kind (value_at row.now test.now.column) }
{
    crate::laws::tests_decide();
    meets(test, shown_at(row, test.column))
}

// The first rows, up to the limit.
fn first_rows<'a, 'b>(limit: Option<u64>, rows: &'b [&'a Row]) -> &'b [&'a Row]
    ensures { map (λ row. row.now) result.now ≡ limited limit (map (λ row. row.now) rows.now) }
{
    match limit {
        Some(limit) if limit < rows.len() as u64 => &rows[..limit as usize],
        _ => rows,
    }
}

// The named columns of each row.
fn show_rows(alloc: Global, columns: &[u64], rows: &[&Row]) -> Result<Rowset, NoMemory>
    ensures { IfOk result (λ answer. answer ≡ map (named_columns columns.now) (map (λ row. row.now) rows.now)) }
{
    let mut answer = Rowset::new(Vec::new(alloc));
    for row in rows {
        let shown = show_row(alloc, columns, row.as_slice())?;
        answer.push(shown)?;
    }
    Ok(answer)
}

fn show_row(alloc: Global, columns: &[u64], row: &[RowValue]) -> Result<Row, NoMemory>
    ensures { IfOk result (λ shown. shown ≡ named_columns columns.now row.now) }
{
    let mut shown = Row::new(Vec::new(alloc));
    for column in columns {
        let value = copy_at(row, *column)?;
        shown.push(value)?;
    }
    Ok(shown)
}
