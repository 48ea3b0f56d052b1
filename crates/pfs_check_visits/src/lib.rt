//! A rule asked of all entries of a report, one after another in its order, each with what its session's entries before
//! it tell.
#![tactic(auto)]

mod asking;
mod block_visits;
mod parts;
mod report_visits;
mod sessions;
mod tracks;
mod visited;

pub use asking::ask_report;
pub use report_visits::{visit_numbers, visit_report};
pub use visited::Visited;

/// Memory ran out.
pub type NoMemory = std::alloc::AllocError;
