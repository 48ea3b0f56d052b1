//! The seventh rule of a report's judge: the numbers of events, the places of a connect, and what a change is
//! answered.
#![tactic(auto)]

mod answers;
mod judging;
mod numbering;

pub use judging::{NumbersRule, judge_numbers};

/// Memory ran out.
pub type NoMemory = std::alloc::AllocError;
