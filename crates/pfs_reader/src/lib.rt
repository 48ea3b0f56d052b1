//! What tables read of a store.
#![tactic(auto)]

pub mod laws;
mod reader;
mod reading_list;

pub use reader::{Reader, read_table};
pub use reading_list::ReadingList;

/// Memory ran out.
pub type NoMemory = std::alloc::AllocError;
