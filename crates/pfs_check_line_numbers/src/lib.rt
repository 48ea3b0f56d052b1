//! The numbers of a report's lines: how far its parts reach, and on which line an entry stands.
#![tactic(auto)]

mod line_counts;
mod searches;

pub use line_counts::{behind, behind_block, behind_entries, behind_results};
pub use searches::entry_line;

/// Memory ran out.
pub type NoMemory = std::alloc::AllocError;
