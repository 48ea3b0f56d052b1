//! What stands in a cell of a grid.

ghost use Rattle.std.specs.Prelude.{◌≡◌, ◌++◌, OnOk};
ghost use Rattle.std.specs.List.{flat_map};
ghost use Rattle.pfs_view.specs.Cells.{escaped_byte, is_number as spec_is_number, value_text};

use crate::NoMemory;
use crate::times::put_time;
use pfs_text::{RowValue, put_u64};

/// Appends a byte of a text: a tab as `\t`, a backslash as two, any other as it is.
fn put_escaped_byte(out: &mut Vec<u8>, byte: u8) -> Result<(), NoMemory>
    ensures { OnOk result (out.new.items ≡ out.old.items ++ escaped_byte byte) }
{
    match byte {
        b'\t' => out.extend_from_slice(b"\\t"),
        b'\\' => out.extend_from_slice(b"\\\\"),
        _ => {
            out.push(byte)?;
            Ok(())
        }
    }
}

/// Appends a text, on which a line of a grid is laid out: so a tab, which would move it, is written `\t`.
fn put_escaped(out: &mut Vec<u8>, text: &[u8]) -> Result<(), NoMemory>
    ensures { OnOk result (out.new.items ≡ out.old.items ++ flat_map escaped_byte text.now) }
{
    for byte in text {
        put_escaped_byte(out, *byte)?;
    }
    Ok(())
}

/// Appends a value: no value as `NULL`, a number in decimal digits, or as a time where it is one that is shown with its
/// unit, a text with tabs and backslashes escaped.
pub fn put_value(out: &mut Vec<u8>, value: &RowValue, timed: bool) -> Result<(), NoMemory>
    ensures { OnOk result (out.new.items ≡ out.old.items ++ value_text timed value.now) }
{
    match value {
        RowValue::Null => out.extend_from_slice(b"NULL"),
        RowValue::Number(number) => {
            if timed {
                put_time(out, *number)
            } else {
                put_u64(out, *number)
            }
        }
        RowValue::Text(text) => put_escaped(out, text.as_bytes()),
    }
}

/// Whether the value is a number, which stands at the right of its column.
pub fn is_number(value: &RowValue) -> bool
    ensures { result ≡ spec_is_number value.now }
{
    matches!(value, RowValue::Number(_))
}
