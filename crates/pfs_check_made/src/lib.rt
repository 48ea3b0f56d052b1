//! The changes of a report's rows as values, each with what it makes of the content before it.
#![tactic(auto)]

mod making;
mod tags;

pub use making::{Here, Made, made_of, note_held};
pub use tags::{TagAt, TagWords};

/// Memory ran out.
pub type NoMemory = std::alloc::AllocError;
