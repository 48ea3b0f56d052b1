//! The tables and their names.
ghost use Rattle.std.specs.Prelude.{◌≡◌, MatchOption};
ghost use Rattle.std.specs.List.{find};
ghost use Rattle.pfs_rows.specs.declared.table.Table.{Table as SpecTable};
ghost use Rattle.pfs_rows.specs.Tables.{table_name};
ghost use Rattle.pfs_catalogue.specs.LetterCases.{IsTableName, is_same_name, without_schema as bare_name};

use pfs_rows::{EventTable, SummaryTable, Table, TableKind};

const SCHEMA: &[u8] = b"performance_schema.";

/// All tables, in their order.
pub const TABLES: [Table; 41] = [
    Table::SetupActors,
    Table::SetupObjects,
    Table::SetupInstruments,
    Table::SetupConsumers,
    Table::Threads,
    Table::Accounts,
    Table::Users,
    Table::Hosts,
    Table::Events(TableKind::Waits, EventTable::Current),
    Table::Events(TableKind::Waits, EventTable::History),
    Table::Events(TableKind::Waits, EventTable::HistoryLong),
    Table::Events(TableKind::Stages, EventTable::Current),
    Table::Events(TableKind::Stages, EventTable::History),
    Table::Events(TableKind::Stages, EventTable::HistoryLong),
    Table::Events(TableKind::Statements, EventTable::Current),
    Table::Events(TableKind::Statements, EventTable::History),
    Table::Events(TableKind::Statements, EventTable::HistoryLong),
    Table::Events(TableKind::Transactions, EventTable::Current),
    Table::Events(TableKind::Transactions, EventTable::History),
    Table::Events(TableKind::Transactions, EventTable::HistoryLong),
    Table::Summary(TableKind::Waits, SummaryTable::ByThread),
    Table::Summary(TableKind::Waits, SummaryTable::ByAccount),
    Table::Summary(TableKind::Waits, SummaryTable::ByUser),
    Table::Summary(TableKind::Waits, SummaryTable::ByHost),
    Table::Summary(TableKind::Waits, SummaryTable::Global),
    Table::Summary(TableKind::Stages, SummaryTable::ByThread),
    Table::Summary(TableKind::Stages, SummaryTable::ByAccount),
    Table::Summary(TableKind::Stages, SummaryTable::ByUser),
    Table::Summary(TableKind::Stages, SummaryTable::ByHost),
    Table::Summary(TableKind::Stages, SummaryTable::Global),
    Table::Summary(TableKind::Statements, SummaryTable::ByThread),
    Table::Summary(TableKind::Statements, SummaryTable::ByAccount),
    Table::Summary(TableKind::Statements, SummaryTable::ByUser),
    Table::Summary(TableKind::Statements, SummaryTable::ByHost),
    Table::Summary(TableKind::Statements, SummaryTable::Global),
    Table::Summary(TableKind::Transactions, SummaryTable::ByThread),
    Table::Summary(TableKind::Transactions, SummaryTable::ByAccount),
    Table::Summary(TableKind::Transactions, SummaryTable::ByUser),
    Table::Summary(TableKind::Transactions, SummaryTable::ByHost),
    Table::Summary(TableKind::Transactions, SummaryTable::Global),
    Table::DigestSummary,
];

/// The table of that name, in any letter case, with or without `performance_schema.` before it, in any case too. None
/// where no table has it. That another schema is no table's is our own rule.
pub fn find_table(name: &[u8]) -> Option<Table>
    ensures { MatchOption result ((table : SpecTable)
        → ¬ IsTableName table name.now) (λ table. IsTableName table name.now) }
{
    named(&TABLES, without_schema(name))
}

// The first of the tables that has this name, in any letter case.
fn named(tables: &[Table], bare: &[u8]) -> Option<Table>
    ensures { result ≡ find (λ table. is_same_name (table_name table) bare.now) tables.now }
{
    for table in tables {
        if has_name(*table, bare) {
            return Some(*table);
        }
    }
    None
}

fn has_name(table: Table, bare: &[u8]) -> bool
    ensures { result ≡ is_same_name (table_name table) bare.now }
{
    is_named(table.name(), bare)
}

// Whether this is the name, in any letter case.
pub(crate) fn is_named(name: &str, given: &[u8]) -> bool
    ensures { result ≡ is_same_name name.now given.now }
{
    name.as_bytes().eq_ignore_ascii_case(given)
}

// The name behind the schema, if that stands before it.
fn without_schema(name: &[u8]) -> &[u8]
    ensures { result.now ≡ bare_name name.now }
{
    if name.len() < SCHEMA.len() {
        return name;
    }
    let (front, rest) = name.split_at(SCHEMA.len());
    if front.eq_ignore_ascii_case(SCHEMA) {
        rest
    } else {
        name
    }
}
