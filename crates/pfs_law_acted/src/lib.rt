//! What an action does stands in two parts: its other changes, and then its sets. A law alone.
#![tactic(auto)]

pub mod laws;
