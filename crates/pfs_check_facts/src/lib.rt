//! What a script says of the events of its sessions: when each starts, how long it takes, and a statement's numbers.
#![tactic(auto)]

mod blocks;
mod closings;
mod courses;
mod events;
mod moments;
mod script;

pub use events::EventFacts;
pub use script::ScriptFacts;

/// Memory ran out.
pub type NoMemory = std::alloc::AllocError;
