//! The numbers of a run's events by its journals are those of the brackets over its script's lines.
#![tactic(auto)]

pub mod laws;
