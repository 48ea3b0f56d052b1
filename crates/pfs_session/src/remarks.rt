//! What a session's journal tells of a text of SQL beside its changes and readings.

/// A remark of a journal on a text of SQL.
#[derive(Clone, Copy, Debug, PartialEq, Eq)]
pub enum Remark {
    /// A SELECT begins; its readings follow, then its answer.
    Query,
    /// A SELECT is answered by so many rows, which stand in no journal.
    Rows(u64),
    /// The text is refused, and is no action: the number of its error.
    Refused(u64),
}
