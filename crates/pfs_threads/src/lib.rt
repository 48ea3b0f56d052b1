//! A run of a script, the sessions of each phase at once.
#![tactic(auto)]

mod run;

pub use crate::run::{Recorded, run_threads};
pub use pfs_board_session::{Gate, OpenGate};
pub use pfs_board_store::Seats;

/// Memory ran out.
pub type NoMemory = std::alloc::AllocError;
