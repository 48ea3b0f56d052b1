//! What the root of a board that keeps a desk knows of the actors of its phases.
#![tactic(auto)]

pub mod laws;
