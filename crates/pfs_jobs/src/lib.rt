//! The sessions of a phase at once, each block in a thread of its own, over any actors.
#![tactic(auto)]

mod jobs;

pub use crate::jobs::{Job, play_all, play_at_once};
