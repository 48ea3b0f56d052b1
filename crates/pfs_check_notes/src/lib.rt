//! What is kept of each session as a report is walked over, beside its track: what its context tells and a track doesn't.
#![tactic(auto)]

mod notes;
mod outers;
mod writings;

pub use notes::SessionNotes;
pub use writings::writing_of;

/// Memory ran out.
pub type NoMemory = std::alloc::AllocError;
