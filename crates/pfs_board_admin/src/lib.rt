//! The administration and the writer of the switch words, as the one value that a board keeps between actions.
#![tactic(auto)]

mod actions;
mod desk;
pub mod laws;

pub use actions::{connect, empty_action};
pub use desk::{Desk, Shared};

/// Memory ran out.
pub type NoMemory = std::alloc::AllocError;
