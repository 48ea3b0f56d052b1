//! Whether a SELECT of a script is answered rightly in a report, or the first of its entries and rows that is wrong.
#![tactic(auto)]

mod answered;
mod answers;
mod block_lines;
mod blocks;
mod comparing;
mod counting;
mod readings;
mod shows;
mod versions;
mod walking;

pub use answered::Answered;
pub use answers::{judge_held, judge_stored};
pub use blocks::judge_block;
pub use shows::Shows;
pub use versions::Versions;

/// Memory ran out.
pub type NoMemory = std::alloc::AllocError;
