//! A phase of a run over a board: its sessions at once, each over seats that the root splits off, and takes in again.
#![tactic(auto)]

mod board;

pub use board::{Ran, run_board};

/// Memory ran out.
pub type NoMemory = std::alloc::AllocError;
