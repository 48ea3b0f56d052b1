//! The tables at a phase's end.

ghost use Rattle.std.specs.Prelude.{◌≡◌, ◌++◌, filter, IfOk, OnErr, OnOk};
ghost use Rattle.pfs_levels.specs.Views.{Same};
ghost use Rattle.pfs_reader.specs.Readings.{HoldsNone};
ghost use Rattle.pfs_finals.specs.Finals as spec;

use crate::NoMemory;
use pfs_classes::Setting;
use pfs_journal::{TableList, TableReport};
use pfs_levels::Readable;
use pfs_reader::read_table;
use pfs_rows::{EventTable, Reading, SummaryTable, Table, TableKind};
use pfs_tables::listed;
use pfs_text::{Row, RowValue, Rowset, Text};
use std::alloc::Global;

/// The tables that a report may show at a phase's end, in its order. The names are MySQL's, the order is our own.
pub const FINAL_TABLES: [Table; 37] = [
    Table::Threads,
    Table::Accounts,
    Table::Users,
    Table::Hosts,
    Table::Events(TableKind::Waits, EventTable::Current),
    Table::Events(TableKind::Waits, EventTable::History),
    Table::Events(TableKind::Waits, EventTable::HistoryLong),
    Table::Events(TableKind::Stages, EventTable::Current),
    Table::Events(TableKind::Stages, EventTable::History),
    Table::Events(TableKind::Stages, EventTable::HistoryLong),
    Table::Events(TableKind::Statements, EventTable::Current),
    Table::Events(TableKind::Statements, EventTable::History),
    Table::Events(TableKind::Statements, EventTable::HistoryLong),
    Table::Events(TableKind::Transactions, EventTable::Current),
    Table::Events(TableKind::Transactions, EventTable::History),
    Table::Events(TableKind::Transactions, EventTable::HistoryLong),
    Table::Summary(TableKind::Waits, SummaryTable::ByThread),
    Table::Summary(TableKind::Waits, SummaryTable::ByAccount),
    Table::Summary(TableKind::Waits, SummaryTable::ByUser),
    Table::Summary(TableKind::Waits, SummaryTable::ByHost),
    Table::Summary(TableKind::Waits, SummaryTable::Global),
    Table::Summary(TableKind::Stages, SummaryTable::ByThread),
    Table::Summary(TableKind::Stages, SummaryTable::ByAccount),
    Table::Summary(TableKind::Stages, SummaryTable::ByUser),
    Table::Summary(TableKind::Stages, SummaryTable::ByHost),
    Table::Summary(TableKind::Stages, SummaryTable::Global),
    Table::Summary(TableKind::Statements, SummaryTable::ByThread),
    Table::Summary(TableKind::Statements, SummaryTable::ByAccount),
    Table::Summary(TableKind::Statements, SummaryTable::ByUser),
    Table::Summary(TableKind::Statements, SummaryTable::ByHost),
    Table::Summary(TableKind::Statements, SummaryTable::Global),
    Table::Summary(TableKind::Transactions, SummaryTable::ByThread),
    Table::Summary(TableKind::Transactions, SummaryTable::ByAccount),
    Table::Summary(TableKind::Transactions, SummaryTable::ByUser),
    Table::Summary(TableKind::Transactions, SummaryTable::ByHost),
    Table::Summary(TableKind::Transactions, SummaryTable::Global),
    Table::DigestSummary,
];

// Where a summary's rows have COUNT_STAR.
fn count_place(which: SummaryTable) -> usize
    ensures { result ≡ spec.count_place which }
{
    match which {
        SummaryTable::ByThread | SummaryTable::ByUser | SummaryTable::ByHost => 2,
        SummaryTable::ByAccount => 3,
        SummaryTable::Global => 1,
    }
}

fn is_zero(value: &RowValue) -> bool
    ensures { result ≡ spec.is_zero value.now }
{
    match value {
        RowValue::Number(number) => *number == 0,
        RowValue::Null | RowValue::Text(_) => false,
    }
}

fn is_zero_at(row: &Row, place: usize) -> bool
    ensures { result ≡ spec.is_zero_at row.now place }
{
    match row.as_slice().get(place) {
        Some(value) => is_zero(value),
        None => false,
    }
}

// Whether a report shows the row: one of a summary only where it counts something.
fn is_shown(table: Table, row: &Row) -> bool
    ensures { result ≡ spec.is_shown table row.now }
{
    match table {
        Table::Summary(_, which) => !is_zero_at(row, count_place(which)),
        Table::DigestSummary => !is_zero_at(row, 3),
        Table::SetupActors
        | Table::SetupObjects
        | Table::SetupInstruments
        | Table::SetupConsumers
        | Table::Threads
        | Table::Accounts
        | Table::Users
        | Table::Hosts
        | Table::Events(_, _) => true,
    }
}

// The rows that a report shows.
fn keep_shown(alloc: Global, table: Table, rows: Rowset) -> Result<Rowset, NoMemory>
    ensures { IfOk result (λ kept. kept ≡ filter (spec.is_shown table) rows) }
{
    let kept = rows
        .into_vec()
        .into_iter()
        .filter(|row| is_shown(table, row))
        .collect(alloc)?;
    Ok(Rowset::new(kept))
}

/// The rows of a table in a report, by the readings of its read set: its listed rows, of a summary without those whose
/// COUNT_STAR is 0. Err where memory runs out.
pub fn shown_rows(
    alloc: Global,
    setting: &Setting,
    table: Table,
    readings: &[Reading],
) -> Result<Rowset, NoMemory>
    ensures { IfOk result (λ rows. rows ≡ spec.shown_rows setting.now table readings.now) }
{
    let rows = listed(alloc, setting, table, readings)?;
    keep_shown(alloc, table, rows)
}

/// Puts a table behind the others, where it has rows. Err where memory runs out.
pub fn add_table(
    alloc: Global,
    table: Table,
    rows: Rowset,
    tables: &mut Vec<TableReport>,
) -> Result<(), NoMemory>
    ensures { OnOk result (tables.new.items ≡ tables.old.items ++ spec.table_if table rows) }
{
    if rows.as_slice().is_empty() {
        return Ok(());
    }
    let name = Text::from_slice(alloc, table.name().as_bytes())?;
    tables.push(TableReport { name, rows })?;
    Ok(())
}

// Reads a table and puts it behind the others, where it has rows.
fn put_table<R: Readable>(
    alloc: Global,
    setting: &Setting,
    table: Table,
    rows: &mut R,
    tables: &mut Vec<TableReport>,
) -> Result<(), NoMemory>
    requires away { HoldsNone (R.seen rows.old).hand }
    ensures put { OnOk result (spec.IsPut setting.now table tables.old.items tables.new.items (R.seen rows.old).reached
        (R.seen rows.new).reached) }
    ensures stopped { OnErr result (spec.IsReadInPart setting.now table (R.seen rows.old).reached
        (R.seen rows.new).reached) }
    ensures kept { Same (R.seen rows.old) (R.seen rows.new) }
{
    let readings = read_table(alloc, setting, table, rows)?;
    let shown = shown_rows(alloc, setting, table, readings.as_slice())?;
    add_table(alloc, table, shown, tables)
}

/// The tables at a phase's end, in the report's order: each table's listed rows by the readings of its read set, of a
/// summary without the rows whose COUNT_STAR is 0. A table without rows is left out. These rules are our own. The
/// tables are read one after another, and nothing else is asked of the store. Out of memory the tables before one were
/// read, of that one some of the first readings were made, and nothing else was; no row is in hand but what was.
pub fn final_tables<R: Readable>(
    alloc: Global,
    setting: &Setting,
    rows: &mut R,
) -> Result<TableList, NoMemory>
    requires away { HoldsNone (R.seen rows.old).hand }
    ensures tables { IfOk result
        (λ tables. spec.AreFinal setting.now tables (R.seen rows.old).reached (R.seen rows.new).reached) }
    ensures stopped { OnErr result (spec.AreReadInPart setting.now spec.final_order (R.seen rows.old).reached
        (R.seen rows.new).reached) }
    ensures kept { Same (R.seen rows.old) (R.seen rows.new) }
{
    let mut tables = Vec::new(alloc);
    for table in &FINAL_TABLES {
        match put_table(alloc, setting, *table, rows, &mut tables) {
            Ok(()) => {}
            Err(fault) => return Err(fault),
        }
    }
    Ok(TableList::new(tables))
}
