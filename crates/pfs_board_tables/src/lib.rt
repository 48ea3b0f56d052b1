//! A report's tables at the end of a phase over a board.
#![tactic(auto)]

mod tables;

pub use tables::{EndRead, read_tables};

/// Memory ran out.
pub type NoMemory = std::alloc::AllocError;
