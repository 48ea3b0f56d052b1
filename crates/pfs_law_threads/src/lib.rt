//! Sessions of a script at once, on whatever store, are a run of the script.
#![tactic(auto)]

pub mod laws;
