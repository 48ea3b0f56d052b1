//! Where events are brought in a report: each to its summary row, its digest's row and the places of rings that its
//! flags ask for, on the lines right behind its start or its end.
#![tactic(auto)]

mod bringing;
mod dues;
mod ends;
mod histories;
mod judging;
mod offers;
mod paying;
mod rows;
mod starts;

pub use judging::{DueRule, judge_dues};

/// Memory ran out.
pub type NoMemory = std::alloc::AllocError;
