//! The first seven rules of a report's judge, asked one after another, and what they find for those behind them.
#![tactic(auto)]

mod asking;
mod finding;
mod grounds;

pub use finding::find_grounds;
pub use grounds::{Grounds, Stop};

/// Memory ran out.
pub type NoMemory = std::alloc::AllocError;
