//! What each row and each switch word of a report shows at the end of each phase, for the eleventh rule of a report's
//! judge.
#![tactic(auto)]

mod collecting;
mod ends;
mod standing;

pub use ends::{Ends, ends_of};

/// Memory ran out.
pub type NoMemory = std::alloc::AllocError;
