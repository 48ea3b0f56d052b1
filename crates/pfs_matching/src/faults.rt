//! Why a row was refused, and how rows are changed.
use thiserror::Error;

/// Why a row was not inserted.
#[derive(Clone, Copy, Debug, PartialEq, Eq, Error)]
pub enum MatchFault {
    /// A row with an equal key is there. This is tested first.
    #[error("a row with this key is there")]
    Duplicate,
    /// There are 100 rows.
    #[error("there are 100 rows")]
    Full,
}

/// New values for the two flags of a row. None leaves a flag as it is.
#[derive(Clone, Copy, Debug, PartialEq, Eq)]
pub struct FlagChange {
    pub first: Option<bool>,
    pub second: Option<bool>,
}
