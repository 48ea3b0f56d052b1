//! The administration lines of a script's sessions: what the action of each label changes.
#![tactic(auto)]

mod actions;
mod changes;
mod listing;
mod repeats;

pub use actions::Actions;
pub use listing::list_actions;

/// Memory ran out.
pub type NoMemory = std::alloc::AllocError;
