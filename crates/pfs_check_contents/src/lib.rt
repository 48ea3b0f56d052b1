//! The contents of the rows of a report, kept change by change as its changes are replayed.
#![tactic(auto)]

mod changes;
mod held;
pub mod laws;
mod replays;
mod shelf;

pub use changes::{Effect, RowChange};
pub use held::{HeldAmounts, HeldAt};
pub use replays::{replay, words_behind};
pub use shelf::Shelf;

/// Memory ran out.
pub type NoMemory = std::alloc::AllocError;
