//! The first rule of a report's judge: a report cut into the blocks of its script, or the first line that no report of
//! the script has there.
#![tactic(auto)]

mod blocks;
mod phases;
mod sessions;

pub use blocks::{CutBlock, CutPhase, ShapeFault};
pub use phases::cut_report;

/// Memory ran out.
pub type NoMemory = std::alloc::AllocError;
