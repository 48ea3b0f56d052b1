//! What the rows of each table are ordered by.
ghost use Rattle.std.specs.Prelude.{◌≡◌};
ghost use Rattle.pfs_catalogue.specs.TableCommands.{table_key};

use pfs_rows::{EventTable, SummaryTable, Table};

/// A number that orders rows and that no column shows.
#[derive(Clone, Copy, Debug, PartialEq, Eq)]
pub enum KeyNumber {
    /// The number of a class, in the order of their registration.
    ClassId,
    /// The bit of a consumer.
    ConsumerBit,
    /// The ticket of an event in the long history.
    Ticket,
    /// The row of a digest on the board.
    DigestRow,
}

/// What the rows of a table are ordered by, ascending: their first columns, and then a number. Texts order by their
/// bytes, and NULL goes first.
#[derive(Clone, Copy, Debug, PartialEq, Eq)]
pub struct TableKey {
    /// How many columns, from the first on.
    pub columns: u64,
    /// The number that decides between rows that are equal there.
    pub number: Option<KeyNumber>,
}

/// What the rows of the table are ordered by. This order is our own.
pub fn key_of(table: Table) -> TableKey
    ensures { result ≡ table_key table }
{
    let (columns, number) = match table {
        Table::SetupActors | Table::SetupObjects => (3, None),
        Table::SetupInstruments => (0, Some(KeyNumber::ClassId)),
        Table::SetupConsumers => (0, Some(KeyNumber::ConsumerBit)),
        Table::Threads | Table::Users | Table::Hosts => (1, None),
        Table::Accounts => (2, None),
        Table::Events(_, EventTable::Current | EventTable::History) => (2, None),
        Table::Events(_, EventTable::HistoryLong) => (0, Some(KeyNumber::Ticket)),
        Table::Summary(_, SummaryTable::Global) => (0, Some(KeyNumber::ClassId)),
        Table::Summary(_, SummaryTable::ByAccount) => (2, Some(KeyNumber::ClassId)),
        Table::Summary(_, SummaryTable::ByThread | SummaryTable::ByUser | SummaryTable::ByHost) => {
            (1, Some(KeyNumber::ClassId))
        }
        Table::DigestSummary => (0, Some(KeyNumber::DigestRow)),
    };
    TableKey { columns, number }
}
