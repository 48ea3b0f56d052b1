//! The eleventh and the twelfth rule of a report's judge: the tables at each phase's end, and the counters of what was
//! lost.
#![tactic(auto)]

mod comparing;
mod final_lines;
mod losing;
mod lost;
mod rules;
mod standing;
mod tables;

pub use lost::judge_lost;
pub use rules::EndRule;
pub use standing::Standing;
pub use tables::judge_tables;

/// Memory ran out.
pub type NoMemory = std::alloc::AllocError;
