//! The tables that are truncated.

ghost use Rattle.std.specs.Prelude.{◌≡◌};
ghost use Rattle.pfs_rows.specs.TruncationTables.{table_of, truncation_on};

use crate::{EventTable, SummaryTable, Table, TableKind};

/// A table that is truncated.
#[derive(Clone, Copy, Debug, PartialEq, Eq)]
pub enum Truncation {
    /// One of a kind's five summaries.
    Summary(TableKind, SummaryTable),
    /// The summary of statements by their digests.
    DigestSummary,
    /// The current events of a kind, its history, or its long history.
    Events(TableKind, EventTable),
    Accounts,
    Users,
    Hosts,
    SetupActors,
    SetupObjects,
}

impl Truncation {
    /// The table.
    pub fn table(self) -> Table
        ensures { result ≡ table_of self }
    {
        match self {
            Truncation::Events(kind, table) => Table::Events(kind, table),
            Truncation::Summary(kind, table) => Table::Summary(kind, table),
            Truncation::DigestSummary => Table::DigestSummary,
            Truncation::Accounts => Table::Accounts,
            Truncation::Users => Table::Users,
            Truncation::Hosts => Table::Hosts,
            Truncation::SetupActors => Table::SetupActors,
            Truncation::SetupObjects => Table::SetupObjects,
        }
    }

    /// The truncation of a table; None where it isn't truncated.
    pub fn on(table: Table) -> Option<Truncation>
        ensures { result ≡ truncation_on table }
    {
        match table {
            Table::Summary(kind, table) => Some(Truncation::Summary(kind, table)),
            Table::Events(kind, table) => Some(Truncation::Events(kind, table)),
            Table::DigestSummary => Some(Truncation::DigestSummary),
            Table::Accounts => Some(Truncation::Accounts),
            Table::Users => Some(Truncation::Users),
            Table::Hosts => Some(Truncation::Hosts),
            Table::SetupActors => Some(Truncation::SetupActors),
            Table::SetupObjects => Some(Truncation::SetupObjects),
            Table::SetupInstruments | Table::SetupConsumers | Table::Threads => None,
        }
    }
}
