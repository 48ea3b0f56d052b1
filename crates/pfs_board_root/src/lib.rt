//! The root of a run over a board: actors' seats are split off it and taken in again, and once it is alone it settles
//! the phase, and reads.
#![tactic(auto)]

pub mod laws;
mod readings;
mod root;

pub use readings::{Began, Reading};
pub use root::Root;
