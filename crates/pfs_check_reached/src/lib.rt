//! What the changes of a report make of its rows, in whatever order they stand.
#![tactic(auto)]

mod reached;
mod reaching;
mod shelves;
mod waiting;

pub use reached::Reached;
pub use reaching::reach;
pub use shelves::shelf_of;

/// Memory ran out.
pub type NoMemory = std::alloc::AllocError;
