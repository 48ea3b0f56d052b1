//! The tables and counters that a report shows at a phase's end.
#![tactic(auto)]

mod counters;
mod finals;

pub use counters::{Counter, LostCounters, lost_rows};
pub use finals::{FINAL_TABLES, add_table, final_tables, shown_rows};

/// Memory ran out.
pub type NoMemory = std::alloc::AllocError;
