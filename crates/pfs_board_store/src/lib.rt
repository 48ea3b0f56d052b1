//! An actor's seats on the shared board, the setup words and the tickets, as a store.
#![tactic(auto)]

mod hold;
mod holding;
pub mod laws;
mod rows;

pub use hold::BoardHold;
pub use rows::{BoardRows, Seats};
