//! What is wrong with a report: the rules of a run one by one, and of each the lines at which it fails. The definitions
//! stand in `specs/`.
#![tactic(auto)]

pub mod laws;
mod rules;

pub use rules::{Judgement, Rule};
