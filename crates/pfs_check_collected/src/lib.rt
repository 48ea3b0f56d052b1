//! All changes of a report's rows as values, collected by one walk.
#![tactic(auto)]

mod collected;
mod collecting;
mod contents;
mod sessions;

pub use collected::Collected;
pub use contents::collect_changes;

/// Memory ran out.
pub type NoMemory = std::alloc::AllocError;
