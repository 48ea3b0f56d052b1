//! What an entry's context is, by the entries before it: laws alone.
#![tactic(auto)]

pub mod laws;
