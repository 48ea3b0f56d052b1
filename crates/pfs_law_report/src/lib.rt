//! What stands under a phase's end is what the journals so far make of it, and a report can have it.
#![tactic(auto)]

mod counts;
pub mod ends;
pub mod report_values;

pub use counts::{LostEvents, count_lost};
