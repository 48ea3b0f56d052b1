//! The columns of each table.
ghost use Rattle.std.specs.Prelude.{◌≡◌, ◌+◌, ◌<◌, ◌++◌, ℕ, List, MatchOption, false, length, map, position, slice_get};
ghost use Rattle.std.specs.Option.{option_map, option_map_or};
ghost use Rattle.pfs_catalogue.specs.Columns.{IsColumn, column_place, columns_of, event_columns_of, has_name, kind_at, shown, summary_columns as spec_summary_columns, summary_numbers as spec_summary_numbers};

use crate::tables::is_named;
use pfs_rows::{SummaryTable, Table, TableKind};

/// What a column shows.
#[derive(Clone, Copy, Debug, PartialEq, Eq)]
pub enum ColumnKind {
    Number,
    Text,
}

/// A column of a table: its name, which is MySQL's, and what it shows.
#[derive(Clone, Copy, Debug)]
pub struct Column {
    pub name: &'static str,
    pub kind: ColumnKind,
}

// A constant's value may not call a function.
macro_rules! number {
    ($name:literal) => {
        Column {
            name: $name,
            kind: ColumnKind::Number,
        }
    };
}

macro_rules! text {
    ($name:literal) => {
        Column {
            name: $name,
            kind: ColumnKind::Text,
        }
    };
}

const SETUP_ACTORS: [Column; 5] = [
    text!("HOST"),
    text!("USER"),
    text!("ROLE"),
    text!("ENABLED"),
    text!("HISTORY"),
];

const SETUP_OBJECTS: [Column; 5] = [
    text!("OBJECT_TYPE"),
    text!("OBJECT_SCHEMA"),
    text!("OBJECT_NAME"),
    text!("ENABLED"),
    text!("TIMED"),
];

const SETUP_INSTRUMENTS: [Column; 3] = [text!("NAME"), text!("ENABLED"), text!("TIMED")];

const SETUP_CONSUMERS: [Column; 2] = [text!("NAME"), text!("ENABLED")];

const THREADS: [Column; 5] = [
    number!("THREAD_ID"),
    text!("PROCESSLIST_USER"),
    text!("PROCESSLIST_HOST"),
    text!("INSTRUMENTED"),
    text!("HISTORY"),
];

const USER_AND_HOST: [Column; 2] = [text!("USER"), text!("HOST")];

const USER: [Column; 1] = [text!("USER")];

const HOST: [Column; 1] = [text!("HOST")];

const CONNECTIONS: [Column; 2] = [number!("CURRENT_CONNECTIONS"), number!("TOTAL_CONNECTIONS")];

const EVENT: [Column; 9] = [
    number!("THREAD_ID"),
    number!("EVENT_ID"),
    number!("END_EVENT_ID"),
    text!("EVENT_NAME"),
    number!("TIMER_START"),
    number!("TIMER_END"),
    number!("TIMER_WAIT"),
    number!("NESTING_EVENT_ID"),
    text!("NESTING_EVENT_TYPE"),
];

const WAIT: [Column; 2] = [text!("OBJECT_SCHEMA"), text!("OBJECT_NAME")];

const STATEMENT: [Column; 7] = [
    number!("LOCK_TIME"),
    number!("ERRORS"),
    number!("WARNINGS"),
    number!("ROWS_AFFECTED"),
    number!("ROWS_SENT"),
    number!("ROWS_EXAMINED"),
    text!("DIGEST"),
];

const TRANSACTION: [Column; 1] = [text!("ACCESS_MODE")];

const BY_THREAD: [Column; 2] = [number!("THREAD_ID"), text!("EVENT_NAME")];

const BY_ACCOUNT: [Column; 3] = [text!("USER"), text!("HOST"), text!("EVENT_NAME")];

const BY_USER: [Column; 2] = [text!("USER"), text!("EVENT_NAME")];

const BY_HOST: [Column; 2] = [text!("HOST"), text!("EVENT_NAME")];

const GLOBAL: [Column; 1] = [text!("EVENT_NAME")];

const DIGEST: [Column; 3] = [text!("SCHEMA_NAME"), text!("DIGEST"), text!("DIGEST_TEXT")];

const NUMBERS: [Column; 5] = [
    number!("COUNT_STAR"),
    number!("SUM_TIMER_WAIT"),
    number!("MIN_TIMER_WAIT"),
    number!("AVG_TIMER_WAIT"),
    number!("MAX_TIMER_WAIT"),
];

const STATEMENT_NUMBERS: [Column; 11] = [
    number!("COUNT_STAR"),
    number!("SUM_TIMER_WAIT"),
    number!("MIN_TIMER_WAIT"),
    number!("AVG_TIMER_WAIT"),
    number!("MAX_TIMER_WAIT"),
    number!("SUM_LOCK_TIME"),
    number!("SUM_ERRORS"),
    number!("SUM_WARNINGS"),
    number!("SUM_ROWS_AFFECTED"),
    number!("SUM_ROWS_SENT"),
    number!("SUM_ROWS_EXAMINED"),
];

const TRANSACTION_NUMBERS: [Column; 15] = [
    number!("COUNT_STAR"),
    number!("SUM_TIMER_WAIT"),
    number!("MIN_TIMER_WAIT"),
    number!("AVG_TIMER_WAIT"),
    number!("MAX_TIMER_WAIT"),
    number!("COUNT_READ_WRITE"),
    number!("SUM_TIMER_READ_WRITE"),
    number!("MIN_TIMER_READ_WRITE"),
    number!("AVG_TIMER_READ_WRITE"),
    number!("MAX_TIMER_READ_WRITE"),
    number!("COUNT_READ_ONLY"),
    number!("SUM_TIMER_READ_ONLY"),
    number!("MIN_TIMER_READ_ONLY"),
    number!("AVG_TIMER_READ_ONLY"),
    number!("MAX_TIMER_READ_ONLY"),
];

// The columns of a table in two parts, of which tables of one kind share one.
#[derive(Clone, Copy)]
struct Parts {
    front: &'static [Column],
    back: &'static [Column],
}

fn parts_of(table: Table) -> Parts
    ensures { map shown result.front.now ++ map shown result.back.now ≡ columns_of table }
{
    let (front, back): (&'static [Column], &'static [Column]) = match table {
        Table::SetupActors => (&SETUP_ACTORS, &[]),
        Table::SetupObjects => (&SETUP_OBJECTS, &[]),
        Table::SetupInstruments => (&SETUP_INSTRUMENTS, &[]),
        Table::SetupConsumers => (&SETUP_CONSUMERS, &[]),
        Table::Threads => (&THREADS, &[]),
        Table::Accounts => (&USER_AND_HOST, &CONNECTIONS),
        Table::Users => (&USER, &CONNECTIONS),
        Table::Hosts => (&HOST, &CONNECTIONS),
        Table::Events(kind, _) => (&EVENT, event_columns(kind)),
        Table::Summary(kind, summary) => (summary_columns(summary), summary_numbers(kind)),
        Table::DigestSummary => (&DIGEST, &STATEMENT_NUMBERS),
    };
    Parts { front, back }
}

fn event_columns(kind: TableKind) -> &'static [Column]
    ensures { map shown result.now ≡ event_columns_of kind }
{
    match kind {
        TableKind::Waits => &WAIT,
        TableKind::Stages => &[],
        TableKind::Statements => &STATEMENT,
        TableKind::Transactions => &TRANSACTION,
    }
}

fn summary_columns(summary: SummaryTable) -> &'static [Column]
    ensures { map shown result.now ≡ spec_summary_columns summary }
{
    match summary {
        SummaryTable::ByThread => &BY_THREAD,
        SummaryTable::ByAccount => &BY_ACCOUNT,
        SummaryTable::ByUser => &BY_USER,
        SummaryTable::ByHost => &BY_HOST,
        SummaryTable::Global => &GLOBAL,
    }
}

fn summary_numbers(kind: TableKind) -> &'static [Column]
    ensures { map shown result.now ≡ spec_summary_numbers kind }
{
    match kind {
        TableKind::Waits | TableKind::Stages => &NUMBERS,
        TableKind::Statements => &STATEMENT_NUMBERS,
        TableKind::Transactions => &TRANSACTION_NUMBERS,
    }
}

/// How many columns the table has.
pub fn column_count(table: Table) -> u64
    ensures { result ≡ length (columns_of table) }
{
    let parts = parts_of(table);
    (parts.front.len() + parts.back.len()) as u64
}

/// The column at a place, from 0; none from the number of columns on.
pub fn column_at(table: Table, place: u64) -> Option<Column>
    ensures { option_map shown result ≡ slice_get (columns_of table) place }
{
    let parts = parts_of(table);
    let place = place as usize;
    if place < parts.front.len() {
        return Some(parts.front[place]);
    }
    parts.back.get(place - parts.front.len()).copied()
}

/// What the column at a place shows, from 0; none from the number of columns on.
pub fn column_kind(table: Table, place: u64) -> Option<ColumnKind>
    ensures { result ≡ kind_at table place }
{
    column_at(table, place).map(|column| column.kind)
}

/// The place of the table's column of that name, from 0 and in any letter case; none where no column has it.
pub fn find_column(table: Table, name: &[u8]) -> Option<u64>
    ensures value { result ≡ column_place table name.now }
    ensures named { MatchOption result ((place : ℕ) → ¬ IsColumn table name.now place) (IsColumn table name.now) }
{
    for place in 0..column_count(table) {
        if is_at(table, place, name) {
            return Some(place);
        }
    }
    None
}

// Whether a column stands at the place and has this name.
fn is_at(table: Table, place: u64, name: &[u8]) -> bool
    ensures { result ≡ option_map_or (has_name name.now) (slice_get (columns_of table) place) false }
{
    match column_at(table, place) {
        Some(column) => is_named(column.name, name),
        None => false,
    }
}
