//! Changes of a report that keeps its rules can be replayed: laws alone.
#![tactic(auto)]

pub mod laws;
