//! Rows that are due, against those that are printed.

ghost use Rattle.std.specs.Prelude.{◌≡◌, true, false};
ghost use Rattle.pfs_check_finals.specs.Differences.{AreCompared};

use pfs_text::{Row, RowValue};

fn is_same_value(due: &RowValue, printed: &RowValue) -> bool
    ensures same { result ≡ true → due.now ≡ printed.now }
    ensures other { result ≡ false → due.now ≡ printed.now → ⊥ }
{
    match due {
        RowValue::Null => matches!(printed, RowValue::Null),
        RowValue::Number(number) => match printed {
            RowValue::Number(other) => *number == *other,
            _ => false,
        },
        RowValue::Text(text) => match printed {
            RowValue::Text(other) => text == other,
            _ => false,
        },
    }
}

fn first_value(due: &[RowValue], printed: &[RowValue]) -> Option<usize>
    ensures { AreCompared due.now printed.now result }
{
    for (at, value) in due.iter().enumerate() {
        let Some(other) = printed.get(at) else {
            return Some(at);
        };
        if !is_same_value(value, other) {
            return Some(at);
        }
    }
    if due.len() < printed.len() {
        return Some(due.len());
    }
    None
}

/// The first place at which two lists of rows differ; where one has ended counts as a place.
pub(crate) fn first_row(due: &[Row], printed: &[Row]) -> Option<usize>
    ensures { AreCompared due.now printed.now result }
{
    for (at, row) in due.iter().enumerate() {
        let Some(other) = printed.get(at) else {
            return Some(at);
        };
        if first_value(row.as_slice(), other.as_slice()).is_some() {
            return Some(at);
        }
    }
    if due.len() < printed.len() {
        return Some(due.len());
    }
    None
}
