//! The rows that the summaries and the digest table show by the readings of a SELECT.
#![tactic(auto)]

mod contents;
mod digests;
mod heads;
pub mod laws;
mod numbers;
mod rows;
mod summaries;
mod tallies;

pub use digests::digest_rows;
pub use heads::{Head, RowKey};
pub use numbers::Numbers;
pub use summaries::summary_rows;
pub use tallies::Tally;

/// Memory ran out.
pub type NoMemory = std::alloc::AllocError;
