//! Each public function on its happy path, by the names of MySQL's manual.
use crate::asserts::same;
use pfs_catalogue::*;
use pfs_rows::{EventTable, SummaryTable, Table, TableKind};

const NAMES: [(&str, Option<Table>); 8] = [
    ("setup_actors", Some(Table::SetupActors)),
    ("PERFORMANCE_SCHEMA.Setup_Actors", Some(Table::SetupActors)),
    (
        "events_waits_history_long",
        Some(Table::Events(TableKind::Waits, EventTable::HistoryLong)),
    ),
    (
        "performance_schema.events_stages_summary_by_host_by_event_name",
        Some(Table::Summary(TableKind::Stages, SummaryTable::ByHost)),
    ),
    ("performance_schema.", None),
    ("performance_schema.performance_schema.threads", None),
    ("sys.threads", None),
    ("", None),
];

#[test]
fn tables_by_name(rt: HostRuntime) {
    for (name, want) in &NAMES {
        same(&rt, name, find_table(name.as_bytes()), *want);
    }
}

#[test]
fn columns_of_a_summary(rt: HostRuntime) {
    let table = Table::Summary(TableKind::Statements, SummaryTable::ByUser);
    same(&rt, "columns", column_count(table), 13);
    let sent = find_column(table, b"sum_rows_SENT");
    same(&rt, "a column", sent, Some(11));
    same(&rt, "no column", find_column(table, b"HOST"), None);
    let kinds = (column_kind(table, 1), column_kind(table, 13));
    same(&rt, "kinds", kinds, (Some(ColumnKind::Text), None));
    match column_at(table, 2) {
        Some(column) => same(&rt, "name", column.name, "COUNT_STAR"),
        None => panic!(rt; "no column"),
    }
}

#[test]
fn what_is_allowed(rt: HostRuntime) {
    let (consumers, accounts) = (Table::SetupConsumers, Table::Accounts);
    same(&rt, "update", allows(consumers, CommandKind::Update), true);
    let truncate = allows(consumers, CommandKind::Truncate);
    same(&rt, "truncate", truncate, false);
    same(&rt, "insert", allows(accounts, CommandKind::Insert), false);
    let place = flag_place(Table::Threads, Flag::First);
    same(&rt, "place", place, Some(3));
    let objects = Table::SetupObjects;
    let flags = (flag_at(objects, 4), flag_at(objects, 2));
    same(&rt, "flags", flags, (Some(Flag::Second), None));
    let key = key_of(Table::Events(TableKind::Stages, EventTable::HistoryLong));
    same(&rt, "key", key.number, Some(KeyNumber::Ticket));
    same(&rt, "tables", TABLES.len(), 41);
}
