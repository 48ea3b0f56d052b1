//! Why a command was not done.
ghost use Rattle.std.specs.Prelude.{◌≡◌};
ghost use Rattle.pfs_sql.specs.declared.faults.SqlFault.TheVariants.{NoMemory};
ghost use Rattle.pfs_sql.specs.Errors.{number_of};

use std::alloc::{AllocError, AllocFailed};
use thiserror::Error;

/// What is wrong with a command, by MySQL's names. Parsing answers `Parse` alone; the others, and `Parse` for a wrong
/// type, are for a command's plan and for who carries it out.
#[derive(Clone, Copy, Debug, PartialEq, Eq, Error)]
pub enum SqlError {
    /// The text is no command, or a value is not of its column's type.
    #[error("the text is no command")]
    Parse,
    /// No table has the name.
    #[error("there is no such table")]
    NoSuchTable,
    /// The command is not allowed on the table.
    #[error("the command is not allowed on the table")]
    CommandDenied,
    /// The table has no column of the name.
    #[error("there is no such column")]
    UnknownColumn,
    /// A column may not be changed, or not to the value.
    #[error("the change is not allowed")]
    WrongUsage,
    /// A row with the key is there.
    #[error("a row with this key is there")]
    DuplicateEntry,
    /// The table has no room for another row.
    #[error("the table is full")]
    TableFull,
}

impl SqlError {
    /// MySQL's number for the error.
    pub fn number(self) -> u16
        ensures { result ≡ number_of self }
    {
        match self {
            SqlError::Parse => 1064,
            SqlError::NoSuchTable => 1146,
            SqlError::CommandDenied => 1142,
            SqlError::UnknownColumn => 1054,
            SqlError::WrongUsage => 1683,
            SqlError::DuplicateEntry => 1062,
            SqlError::TableFull => 1114,
        }
    }
}

/// Why a command was not read or not done: an error of its own, or memory.
#[derive(Clone, Copy, Debug, PartialEq, Eq, Error)]
pub enum SqlFault {
    /// The command is wrong.
    #[error("the command is refused: {0}")]
    Error(SqlError),
    /// Memory ran out.
    #[error("memory ran out")]
    NoMemory,
}

impl From<AllocError> for SqlFault {
    ghost from_gives = { λ _ e. e ≡ NoMemory };

    fn from(_e: AllocError) -> SqlFault {
        SqlFault::NoMemory
    }
}

impl<T: Drop> From<AllocFailed<T>> for SqlFault {
    ghost from_gives = { λ _ e. e ≡ NoMemory };

    fn from(_e: AllocFailed<T>) -> SqlFault {
        SqlFault::NoMemory
    }
}
