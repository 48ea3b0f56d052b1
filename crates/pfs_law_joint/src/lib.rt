//! What the actors on one board have in common, as whoever records their calls needs it.
#![tactic(auto)]

pub mod laws;
