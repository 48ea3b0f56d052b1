//! Tables and counters that are due, against those that are printed.

ghost use Rattle.std.specs.Prelude.{◌≡◌, ◌+◌, ◌≤◌, ◌⊎◌, true, false, length, IfOk};
ghost use Rattle.pfs_journal.specs.ReportLines.{table_lines};
ghost use Rattle.pfs_check_finals.specs.Differences.{AreCompared, AreComparedFrom, AreTablesCompared, IsTableCompared};

use crate::NoMemory;
use pfs_check_line_numbers::behind;
use pfs_journal::{LostReport, TableReport};
use pfs_text::{Row, RowValue};

/// What can be told from another.
pub(crate) trait Comparable {
    fn is_same(&self, other: &Self) -> bool
        ensures same { result ≡ true → self.now ≡ other.now }
        ensures other { result ≡ false → self.now ≡ other.now → ⊥ };
}

impl Comparable for RowValue {
    fn is_same(&self, other: &RowValue) -> bool {
        match self {
            RowValue::Null => matches!(other, RowValue::Null),
            RowValue::Number(number) => match other {
                RowValue::Number(printed) => *number == *printed,
                _ => false,
            },
            RowValue::Text(text) => match other {
                RowValue::Text(printed) => text == printed,
                _ => false,
            },
        }
    }
}

impl Comparable for Row {
    fn is_same(&self, other: &Row) -> bool {
        first_difference(self.as_slice(), other.as_slice()).is_none()
    }
}

impl Comparable for LostReport {
    fn is_same(&self, other: &LostReport) -> bool {
        if self.number != other.number {
            return false;
        }
        self.name == other.name
    }
}

/// The lesser of two numbers.
pub(crate) fn fewer(one: usize, other: usize) -> usize
    ensures low { result ≤ one }
    ensures high { result ≤ other }
    ensures is { (result ≡ one) ⊎ (result ≡ other) }
{
    if one <= other { one } else { other }
}

// The first place at which two lists differ; where one has ended counts as a place.
fn first_difference<T: Comparable>(due: &[T], printed: &[T]) -> Option<usize>
    ensures { AreCompared due.now printed.now result }
{
    let few = fewer(due.len(), printed.len());
    for at in 0..few {
        if !due[at].is_same(&printed[at]) {
            return Some(at);
        }
    }
    if due.len() == printed.len() {
        return None;
    }
    Some(few)
}

// The first line at which a table differs, where its own line has this number.
fn table_difference(
    first: u64,
    due: &TableReport,
    printed: &TableReport,
) -> Result<Option<u64>, NoMemory>
    ensures { IfOk result (IsTableCompared first due.now printed.now) }
{
    if due.name != printed.name {
        return Ok(Some(first));
    }
    let found = first_difference(due.rows.as_slice(), printed.rows.as_slice());
    match found {
        None => Ok(None),
        Some(at) => {
            let rows = behind(first, 1)?;
            let line = behind(rows, at as u64)?;
            Ok(Some(line))
        }
    }
}

fn behind_table(first: u64, table: &TableReport) -> Result<u64, NoMemory>
    ensures { IfOk result (λ line. line ≡ first + length (table_lines table.now)) }
{
    let rows = behind(first, 1)?;
    let line = behind(rows, table.rows.as_slice().len() as u64)?;
    Ok(line)
}

/// The first line at which tables differ, where the first table's line has this number; None where they are the same.
/// Err where a line's number would be 2^64 or more.
pub(crate) fn tables_difference(
    first: u64,
    due: &[TableReport],
    printed: &[TableReport],
) -> Result<Option<u64>, NoMemory>
    ensures { IfOk result (AreTablesCompared first due.now printed.now) }
{
    let mut line = first;
    for at in 0..fewer(due.len(), printed.len()) {
        let found = table_difference(line, &due[at], &printed[at])?;
        if found.is_some() {
            return Ok(found);
        }
        line = behind_table(line, &due[at])?;
    }
    if due.len() == printed.len() {
        return Ok(None);
    }
    Ok(Some(line))
}

/// The first line at which counters differ, where the first one's line has this number; None where they are the same.
/// Err where a line's number would be 2^64 or more.
pub(crate) fn lost_difference(
    first: u64,
    due: &[LostReport],
    printed: &[LostReport],
) -> Result<Option<u64>, NoMemory>
    ensures { IfOk result (AreComparedFrom first due.now printed.now) }
{
    let found = first_difference(due, printed);
    match found {
        None => Ok(None),
        Some(at) => {
            let line = behind(first, at as u64)?;
            Ok(Some(line))
        }
    }
}
