//! One value of a row: shown, compared and copied.
ghost use Rattle.std.specs.Prelude.{◌≡◌, IfOk, IsTrue, ◌↔◌};
ghost use Rattle.pfs_exec.specs.Selections.{meets_value, value_at, value_cmp, value_of};

use crate::NoMemory;
use pfs_text::{RowValue, Shown, TestKind};
use std::cmp::Ordering;

/// The value of a row at a place. A place that the row doesn't have shows NULL.
pub(crate) fn shown_at(row: &[RowValue], place: u64) -> Shown<'_>
    ensures { value_of result ≡ value_at row.now place }
{
    match row.get(place as usize) {
        None | Some(RowValue::Null) => Shown::Null,
        Some(RowValue::Number(number)) => Shown::Number(*number),
        Some(RowValue::Text(text)) => Shown::Text(text.as_bytes()),
    }
}

/// A copy of the value of a row at a place.
pub(crate) fn copy_at(row: &[RowValue], place: u64) -> Result<RowValue, NoMemory>
    ensures { IfOk result (λ value. value ≡ value_at row.now place) }
{
    match row.get(place as usize) {
        None | Some(RowValue::Null) => Ok(RowValue::Null),
        Some(RowValue::Number(number)) => Ok(RowValue::Number(*number)),
        Some(RowValue::Text(text)) => {
            let copy = text.clone()?;
            Ok(RowValue::Text(copy))
        }
    }
}

/// The order of two values: NULL first, numbers by value, texts by their bytes. A number goes before a text.
pub(crate) fn compare(a: Shown<'_>, b: Shown<'_>) -> Ordering
    ensures { result ≡ value_cmp (value_of a.entry) (value_of b.entry) }
{
    match (a, b) {
        (Shown::Null, Shown::Null) => Ordering::Equal,
        (Shown::Null, Shown::Number(_) | Shown::Text(_)) => Ordering::Less,
        (Shown::Number(_) | Shown::Text(_), Shown::Null) => Ordering::Greater,
        (Shown::Number(_), Shown::Text(_)) => Ordering::Less,
        (Shown::Text(_), Shown::Number(_)) => Ordering::Greater,
        (Shown::Number(a), Shown::Number(b)) => a.cmp(&b),
        (Shown::Text(a), Shown::Text(b)) => a.cmp(b),
    }
}
