//! The second and the third rule of a report's judge: the numbers of its actions and the versions of its rows, each
//! once, with what later rules want of them: where each change stands, and the labels of the actions.
#![tactic(auto)]

mod changes;
mod counts;
mod gathering;
mod judging;
mod labelling;
mod line_counts;
mod links;
mod rising;

pub use changes::{Chained, Made, PlacedChange, change_in};
pub use gathering::gather;
pub use judging::{ActionRule, ActionsFound, ChainRule, Versions, judge_actions, judge_chain};

/// Memory ran out.
pub type NoMemory = std::alloc::AllocError;
