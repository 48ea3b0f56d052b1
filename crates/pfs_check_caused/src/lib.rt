//! The causes of what a report says was held, busy, late or FREE: those of the ninth rule of its judge, and those of
//! the tenth.
#![tactic(auto)]

mod asking;
mod collecting;
mod judging;

pub use judging::{CauseRule, judge_causes, judge_query_causes};

/// Memory ran out.
pub type NoMemory = std::alloc::AllocError;
