//! The greatest version that a row got up to a number, such as an action's or a phase's.
#![tactic(auto)]

mod tops;

pub use tops::{Given, Tops, tops_of};

/// Memory ran out.
pub type NoMemory = std::alloc::AllocError;
