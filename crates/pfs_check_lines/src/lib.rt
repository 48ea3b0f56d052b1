//! The lines of a script's block as the journals of its session go by them: each repeat written out, each text of SQL as
//! what it asks for, and what each line starts.
#![tactic(auto)]

mod block_lines;
mod repeats;
mod subjects;

pub use block_lines::{line_in, lines_in};

/// Memory ran out.
pub type NoMemory = std::alloc::AllocError;
