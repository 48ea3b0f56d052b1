//! The entries of a report, one after another, with a rule that is asked of each: where it is kept by all, or the first
//! place where it isn't.
#![tactic(auto)]

mod numbers;
mod visits;

pub use numbers::EventNumbers;
pub use visits::{Spot, Track, Visit, visit_part};

/// Memory ran out.
pub type NoMemory = std::alloc::AllocError;
