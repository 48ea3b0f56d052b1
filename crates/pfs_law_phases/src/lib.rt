//! A script's sessions at once over a board, phase by phase, from nothing on to the whole.
#![tactic(auto)]

pub mod laws;
