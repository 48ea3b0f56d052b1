//! Sessions at once, whatever their store: what their journals keep by what they have in common.
#![tactic(auto)]

pub mod laws;
