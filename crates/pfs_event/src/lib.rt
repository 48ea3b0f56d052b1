//! What a session records: its events and their words, the verdict of each, the entries of its
//! journal, and the nest of its open events.
#![tactic(auto)]

mod entry;
mod event;
mod form;
mod kind;
pub mod laws;
mod log;
mod nest;
mod open;
mod packed;
mod short;
mod verdict;

pub use entry::Entry;
pub use event::Event;
pub use kind::EventKind;
pub use log::Log;
pub use nest::{Nest, Refused};
pub use open::Open;
pub use verdict::Verdict;

/// Memory ran out.
pub type NoMemory = std::alloc::AllocError;
