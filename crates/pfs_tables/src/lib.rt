//! The rows that tables show by readings of the board and of switch words.
#![tactic(auto)]

mod events;
pub mod laws;
mod listing;
mod orders;
mod plain;
mod rows;

pub use listing::listed;
pub use orders::RowKey;
pub use plain::plain_rows;

/// Memory ran out.
pub type NoMemory = std::alloc::AllocError;
