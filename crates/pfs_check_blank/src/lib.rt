//! A store that holds nothing and finds everything: what an administration asks for over it is all that it may ask for.
#![tactic(auto)]

mod asking;
mod blank;
pub mod laws;
mod opening;

pub use asking::{ask_connect, ask_delete, ask_insert, ask_quit, ask_truncation, ask_update};
pub use blank::Blank;

/// Memory ran out.
pub type NoMemory = std::alloc::AllocError;
