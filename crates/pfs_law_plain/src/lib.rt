//! Sessions one after another on one plain store keep the rules of a run, and tell the script's facts and answers.
#![tactic(auto)]

pub mod answers;
pub mod facts;
pub mod journals;
pub mod rules;
