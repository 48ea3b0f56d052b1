//! A journal cut into the parts of its lines, or its first misfit.
#![tactic(auto)]

mod asks;
mod cuts;
mod items;
mod journals;

pub use journals::{Cut, cut_journal};

/// Memory ran out.
pub type NoMemory = std::alloc::AllocError;
