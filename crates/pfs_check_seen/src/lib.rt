//! The fifth rule of a report's judge: what a line names was there, and isn't below what its session must have seen.
#![tactic(auto)]

mod collecting;
mod judging;
mod seeing;

pub use judging::{SeenRule, collect_sights, judge_seen};

/// Memory ran out.
pub type NoMemory = std::alloc::AllocError;
