//! The sixth rule of a report's judge: each verdict is that of the flags that its start saw. And the flags of the switch
//! words at their versions, by the sets that a report prints.
#![tactic(auto)]

mod collecting;
mod deciding;
mod flags;
mod judging;
mod verdicts;

pub use flags::PrintedFlags;
pub use judging::{VerdictRule, collect_flags, judge_verdicts};

/// Memory ran out.
pub type NoMemory = std::alloc::AllocError;
