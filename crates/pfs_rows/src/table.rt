//! The tables, and what a read of the board finds.

ghost use Rattle.std.specs.Prelude.{◌≡◌};
ghost use Rattle.pfs_rows.specs.Tables.{kind_number, kind_word, table_name};

/// What one read of a row finds: its content at a version, that it is free, or that a writer has
/// it in hand. Words are lock words: four times the version and the state.
#[derive(Clone, Copy, Debug, PartialEq, Eq)]
pub enum Seen {
    Whole { version: u64, content: [u64; 16] },
    Free { word: u64 },
    Busy { first: u64, second: u64 },
}

/// One reading of a SELECT: a row of the board, or a switch word with its version and flags.
#[derive(Clone, Copy, Debug, PartialEq, Eq)]
pub enum Reading {
    Slot { row: u64, seen: Seen },
    Word { word: u64, version: u64, flags: u16 },
}

/// The kind of events that an event table or a summary is about.
#[derive(Clone, Copy, Debug, PartialEq, Eq)]
pub enum TableKind {
    Waits,
    Stages,
    Statements,
    Transactions,
}

/// Which of a kind's three event tables.
#[derive(Clone, Copy, Debug, PartialEq, Eq)]
pub enum EventTable {
    Current,
    History,
    HistoryLong,
}

/// Which of a kind's five summaries.
#[derive(Clone, Copy, Debug, PartialEq, Eq)]
pub enum SummaryTable {
    ByThread,
    ByAccount,
    ByUser,
    ByHost,
    Global,
}

/// A table. The names are MySQL's.
#[derive(Clone, Copy, Debug, PartialEq, Eq)]
pub enum Table {
    SetupActors,
    SetupObjects,
    SetupInstruments,
    SetupConsumers,
    Threads,
    Accounts,
    Users,
    Hosts,
    Events(TableKind, EventTable),
    Summary(TableKind, SummaryTable),
    DigestSummary,
}

impl TableKind {
    /// All kinds, each at the place of its number.
    pub const ALL: [TableKind; 4] = [
        TableKind::Waits,
        TableKind::Stages,
        TableKind::Statements,
        TableKind::Transactions,
    ];

    /// The kind's number in a place of the long history, from 0.
    pub fn number(self) -> u64
        ensures { result ≡ kind_number self }
    {
        self as u64
    }
}

impl Table {
    /// The table's name, in lower case and without its schema.
    pub fn name(self) -> &'static str
        ensures { result.now ≡ table_name self }
    {
        match self {
            Table::SetupActors => "setup_actors",
            Table::SetupObjects => "setup_objects",
            Table::SetupInstruments => "setup_instruments",
            Table::SetupConsumers => "setup_consumers",
            Table::Threads => "threads",
            Table::Accounts => "accounts",
            Table::Users => "users",
            Table::Hosts => "hosts",
            Table::Events(kind, table) => event_name(kind, table),
            Table::Summary(kind, table) => summary_name(kind, table),
            Table::DigestSummary => "events_statements_summary_by_digest",
        }
    }
}

fn event_name(kind: TableKind, table: EventTable) -> &'static str
    ensures { result.now ≡ table_name (Table.Events kind table) }
{
    match table {
        EventTable::Current => match kind {
            TableKind::Waits => "events_waits_current",
            TableKind::Stages => "events_stages_current",
            TableKind::Statements => "events_statements_current",
            TableKind::Transactions => "events_transactions_current",
        },
        EventTable::History => match kind {
            TableKind::Waits => "events_waits_history",
            TableKind::Stages => "events_stages_history",
            TableKind::Statements => "events_statements_history",
            TableKind::Transactions => "events_transactions_history",
        },
        EventTable::HistoryLong => match kind {
            TableKind::Waits => "events_waits_history_long",
            TableKind::Stages => "events_stages_history_long",
            TableKind::Statements => "events_statements_history_long",
            TableKind::Transactions => "events_transactions_history_long",
        },
    }
}

fn summary_name(kind: TableKind, table: SummaryTable) -> &'static str
    ensures { result.now ≡ table_name (Table.Summary kind table) }
{
    match kind {
        TableKind::Waits => match table {
            SummaryTable::ByThread => "events_waits_summary_by_thread_by_event_name",
            SummaryTable::ByAccount => "events_waits_summary_by_account_by_event_name",
            SummaryTable::ByUser => "events_waits_summary_by_user_by_event_name",
            SummaryTable::ByHost => "events_waits_summary_by_host_by_event_name",
            SummaryTable::Global => "events_waits_summary_global_by_event_name",
        },
        TableKind::Stages => match table {
            SummaryTable::ByThread => "events_stages_summary_by_thread_by_event_name",
            SummaryTable::ByAccount => "events_stages_summary_by_account_by_event_name",
            SummaryTable::ByUser => "events_stages_summary_by_user_by_event_name",
            SummaryTable::ByHost => "events_stages_summary_by_host_by_event_name",
            SummaryTable::Global => "events_stages_summary_global_by_event_name",
        },
        TableKind::Statements => match table {
            SummaryTable::ByThread => "events_statements_summary_by_thread_by_event_name",
            SummaryTable::ByAccount => "events_statements_summary_by_account_by_event_name",
            SummaryTable::ByUser => "events_statements_summary_by_user_by_event_name",
            SummaryTable::ByHost => "events_statements_summary_by_host_by_event_name",
            SummaryTable::Global => "events_statements_summary_global_by_event_name",
        },
        TableKind::Transactions => match table {
            SummaryTable::ByThread => "events_transactions_summary_by_thread_by_event_name",
            SummaryTable::ByAccount => "events_transactions_summary_by_account_by_event_name",
            SummaryTable::ByUser => "events_transactions_summary_by_user_by_event_name",
            SummaryTable::ByHost => "events_transactions_summary_by_host_by_event_name",
            SummaryTable::Global => "events_transactions_summary_global_by_event_name",
        },
    }
}
