//! The fourth rule of a report's judge: each action sets the switch words that it asks for, each at its next version.
#![tactic(auto)]

mod collecting;
mod dues;
mod faults;
mod judging;
mod printed;
mod sets;

pub use judging::{SetupRule, judge_setup};

/// Memory ran out.
pub type NoMemory = std::alloc::AllocError;
