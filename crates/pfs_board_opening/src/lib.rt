//! The tables of a run over a board, opened for its setting, and their root; and how such a run is named.
#![tactic(auto)]

mod naming;
mod opening;
mod rows;

pub use naming::{Picked, Run};
pub use opening::{RunWords, Tables, open_tables, open_words};

/// Memory ran out.
pub type NoMemory = std::alloc::AllocError;
