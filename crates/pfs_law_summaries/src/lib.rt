//! What a summary row or a ring shows under a phase's end is what counts there, for each run of a script.
#![tactic(auto)]

pub mod order;
pub mod ranges;
pub mod summaries;
