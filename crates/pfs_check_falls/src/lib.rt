//! What actions did to rows, or to switch words: that the numbers of the actions never fall along a row, or the first
//! place where they do.
#![tactic(auto)]

mod falls;
pub mod laws;

pub use falls::{PlacedDeed, first_fall};

/// Memory ran out.
pub type NoMemory = std::alloc::AllocError;
