//! The ninth rule of a report's judge: each event is brought where its flags ask for, by the tickets that were drawn,
//! and what was held has its cause.
#![tactic(auto)]

mod judging;
mod least;

pub use judging::{RingRule, judge_rings};

/// Memory ran out.
pub type NoMemory = std::alloc::AllocError;
