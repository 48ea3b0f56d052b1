//! A change of any script that connects a session gives names of the script's setting.
#![tactic(auto)]

pub mod laws;
