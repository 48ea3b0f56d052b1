//! The rows of any table.

ghost use Rattle.std.specs.Prelude.{◌≡◌, IfOk, List, All, length};
ghost use Rattle.pfs_catalogue.specs.Columns.{columns_of};
ghost use Rattle.pfs_text.specs.declared.values.RowValue.{RowValue};
ghost use Rattle.pfs_tables.specs.Fits.{IsRowOf};
ghost use Rattle.pfs_tables.specs.ListedRows.{listed_rows};

use crate::NoMemory;
use crate::plain::plain_rows;
use pfs_classes::Setting;
use pfs_rows::{Reading, Table};
use pfs_summaries::{digest_rows, summary_rows};
use pfs_text::Rowset;
use std::alloc::Global;

/// What a table shows by these readings, in the order of its key. It asks nothing of the readings. Of
/// `setup_actors` and `setup_objects`, which are shown as they stand at their action, no reading
/// tells, and nothing is shown here. Each row has as many values as the table has columns, a number
/// or NULL in a number's column and a text or NULL in a text's.
pub fn listed(
    alloc: Global,
    setting: &Setting,
    table: Table,
    readings: &[Reading],
) -> Result<Rowset, NoMemory>
    ensures rows { IfOk result (λ rows. rows ≡ listed_rows setting.now table readings.now) }
    ensures count { IfOk result (λ rows. All (λ (row : List RowValue). length row ≡ length (columns_of table)) rows) }
    ensures kinds { IfOk result (λ rows. All (IsRowOf table) rows) }
{
    match table {
        Table::Summary(kind, which) => summary_rows(alloc, setting, kind, which, readings),
        Table::DigestSummary => digest_rows(alloc, setting, readings),
        Table::SetupActors
        | Table::SetupObjects
        | Table::SetupInstruments
        | Table::SetupConsumers
        | Table::Threads
        | Table::Accounts
        | Table::Users
        | Table::Hosts
        | Table::Events(_, _) => plain_rows(alloc, setting, table, readings),
    }
}
