//! The order in which the changes of a report are replayed, and the contents that they make.
#![tactic(auto)]

mod contents;
mod turns;

pub use contents::contents_of;

/// Memory ran out.
pub type NoMemory = std::alloc::AllocError;
