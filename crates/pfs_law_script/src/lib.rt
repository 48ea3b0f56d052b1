//! The blocks of any script may be played, and block by block they give a run.
#![tactic(auto)]

pub mod blocks;
pub mod runs;
