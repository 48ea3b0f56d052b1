//! The top calls of the engine: words, a source and a sink in, a status out.
#![tactic(auto)]

mod commands;
mod ends;
mod loads;
mod runs;
mod scripts;
mod statuses;
mod texts;
mod words;

pub use commands::{pfs, pfs_gated, pfs_plain};
pub use ends::RunEnd;
pub use pfs_board_store::Seats;
pub use pfs_threads::{Gate, OpenGate};
pub use statuses::Status;
pub use std::alloc::AllocError as NoMemory;
