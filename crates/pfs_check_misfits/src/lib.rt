//! What it means that a report's cut stops at a line.
#![tactic(auto)]

pub mod laws;
