//! What the changes of a report make of its rows is what is kept of them: laws alone.
#![tactic(auto)]

pub mod laws;
