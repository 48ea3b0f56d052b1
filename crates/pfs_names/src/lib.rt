//! Interned names: each text has one id, the number of texts interned before it.
#![tactic(auto)]

mod interned;
pub mod laws;

pub use interned::{NameFault, NameId, Names};

/// Memory ran out.
pub type NoMemory = std::alloc::AllocError;
