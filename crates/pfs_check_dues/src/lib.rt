//! The puts that are due at starts and ends of events: where they are brought, and the first line on which one isn't.
#![tactic(auto)]

pub mod laws;
