//! The deeds of a report: that the numbers of actions never fall along a row, or the first line where they do.
#![tactic(auto)]

mod collecting;
mod deeds;
mod judging;

pub use deeds::deed_in;
pub use judging::{collect_deeds, judge_falls};

/// Memory ran out.
pub type NoMemory = std::alloc::AllocError;
