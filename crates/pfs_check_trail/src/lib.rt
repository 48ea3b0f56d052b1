//! What a session's printed entries tell of it, kept as they are read.
#![tactic(auto)]

mod open_events;
mod trail;

pub use open_events::OpenEvents;
pub use trail::{Trail, subject_in};

/// Memory ran out.
pub type NoMemory = std::alloc::AllocError;
