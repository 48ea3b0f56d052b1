//! The eighth rule of a report's judge: each action changes just the rows that it asks for.
#![tactic(auto)]

mod collecting;
mod comparing;
mod dues;
mod faults;
mod finds;
mod judging;
mod printed;

pub use judging::{MovesRule, judge_fallen, judge_moves};

/// Memory ran out.
pub type NoMemory = std::alloc::AllocError;
