//! A phase of a script over a board, from its sessions' seats to its report.
#![tactic(auto)]

pub mod laws;
mod phase;
mod results;
mod sessions;

pub use crate::phase::{BoardRun, run_phase};
pub use std::alloc::AllocError as NoMemory;
