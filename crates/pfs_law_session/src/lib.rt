//! What a session does at its lines: the parts of its journal, and that its actions do just what the
//! administration asks for.
#![tactic(auto)]

pub mod actions;
pub mod journal;
pub mod rings;
