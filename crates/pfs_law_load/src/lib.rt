//! That all runs of a generated script show the same at a load's end.
#![tactic(auto)]

pub mod laws;
