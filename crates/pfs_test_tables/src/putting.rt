//! Rows as texts.

use pfs_text::{NoMemory, Row, RowValue, put_u64};

fn put_value(out: &mut Vec<u8>, value: &RowValue) -> Result<(), NoMemory> {
    match value {
        RowValue::Null => out.extend_from_slice(b"NULL"),
        RowValue::Number(number) => put_u64(out, *number),
        RowValue::Text(text) => out.extend_from_slice(text.as_bytes()),
    }
}

// The values of a row, each followed by a blank.
pub(crate) fn put_values(out: &mut Vec<u8>, row: &Row) -> Result<(), NoMemory> {
    for value in row.as_slice() {
        put_value(out, value)?;
        out.push(b' ')?;
    }
    Ok(())
}

// A row's values on a line of their own.
pub(crate) fn put_row(out: &mut Vec<u8>, row: &Row) -> Result<(), NoMemory> {
    put_values(out, row)?;
    out.push(b'\n')?;
    Ok(())
}
