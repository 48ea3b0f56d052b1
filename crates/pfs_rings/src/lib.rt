//! Events written to the current places, the history and the long history, over any store.
#![tactic(auto)]

pub mod laws;
mod puts;
mod rings;

pub use puts::{Put, put_event};
pub use rings::Ring;
