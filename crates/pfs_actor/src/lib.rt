//! Whole actions as calls of their store, which has the administration inside: the one way into every store.
#![tactic(auto)]

mod actor;
mod plain;

pub use actor::Actor;
pub use plain::PlainActor;

/// Memory ran out.
pub type NoMemory = std::alloc::AllocError;
