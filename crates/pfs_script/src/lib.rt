//! The script reader: what a line says, whether it may stand where it does, and the whole script with
//! its first faulty line. One pass over the bytes.
#![tactic(auto)]

mod block_lines;
pub mod blocks;
mod commands;
mod courses;
mod drafts;
mod finds;
pub mod forms;
mod fronts;
mod heading;
mod heading_lines;
mod known;
pub mod laws;
mod likes;
mod numerals;
mod open_kinds;
mod places;
mod reading;
mod reasons;
mod saying;
mod scripts;
mod starts;
mod texts;
mod totals;
mod words;

pub use blocks::{
    Access, Block, BlockLine, BlockLineList, BlockList, Connect, Phase, PhaseList, StatementNumbers,
};
pub use reading::ScriptFault;
pub use reasons::Reason;
pub use scripts::Script;
