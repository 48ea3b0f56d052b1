//! Blocks of a script, each played in its session, over any store that begins actions.
#![tactic(auto)]

mod blocks;

pub use crate::blocks::play_block;
