//! Names for the rows of the shared board, for its tables and its readings, the limits, and which tables are truncated.
#![tactic(auto)]

pub mod laws;
mod limits;
mod place;
mod table;
pub mod table_truncations;
mod truncations;

pub use limits::{BadLimits, Layout, Limit, Limits};
pub use place::{
    CELLS, CURRENT_PLACES, DIGEST_NULL, HISTORY_PLACES, LONG_HISTORY, LONG_PLACES, Place,
    READ_ONLY_CELL, READ_WRITE_CELL, RING_PLACES, RINGS, ROWS, THREAD_CELLS, WORDS, place_of,
    row_of,
};
pub use table::{EventTable, Reading, Seen, SummaryTable, Table, TableKind};
pub use truncations::Truncation;
