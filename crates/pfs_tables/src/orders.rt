//! The order of rows.

ghost use Rattle.std.specs.Prelude.{◌≡◌, [], IfOk, OnOk, List};
ghost use Rattle.pfs_tables.specs.TableOrders.{number_key as spec_number_key, name_key as spec_name_key, put_row};

use crate::NoMemory;
use pfs_text::{Row, Text};
use std::alloc::Global;
use std::collections::BTreeMap;

/// The place of a row in its table's order: by numbers, or by names, and where all these are equal
/// by the row of the board. What the table doesn't have is 0 or empty.
#[derive(Debug, PartialEq, Eq, PartialOrd, Ord, Drop)]
pub struct RowKey {
    pub first: u64,
    pub second: u64,
    pub user: Text,
    pub host: Text,
    pub place: u64,
}

/// A row with its place in the order.
pub(crate) type Keyed = (RowKey, Row);

/// Rows in their order.
pub(crate) type Rows = BTreeMap<RowKey, Row>;

pub(crate) fn number_key(alloc: Global, first: u64, second: u64, place: u64) -> RowKey
    ensures { result ≡ spec_number_key first second place }
{
    RowKey {
        first,
        second,
        user: Text::new(Vec::new(alloc)),
        host: Text::new(Vec::new(alloc)),
        place,
    }
}

pub(crate) fn name_key(user: Text, host: Text, place: u64) -> RowKey
    ensures { result ≡ spec_name_key user host place }
{
    RowKey {
        first: 0,
        second: 0,
        user,
        host,
        place,
    }
}

/// Puts a row to its place in the order.
pub(crate) fn put(rows: &mut Rows, row: Keyed) -> Result<(), NoMemory>
    ensures { OnOk result (rows.new.entries ≡ put_row rows.old.entries row) }
{
    let (key, values) = row;
    rows.insert(key, values)?;
    Ok(())
}
