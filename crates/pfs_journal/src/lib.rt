//! The report of a run as plain values: its spelling in lines, and its reading back.
#![tactic(auto)]

mod blocks;
mod checks;
mod guess;
pub mod laws;
mod line;
mod lines;
mod parts;
mod phases;
mod reading;
mod report;
mod values;
mod writing;

pub use blocks::{AnswerList, BlockList, BlockReport, EntryList};
pub use phases::read;
pub use reading::ReadStop;
pub use report::{PhaseList, PhaseParts, PhaseReport, Report, ReportParts};
pub use std::alloc::AllocError as NoMemory;
pub use values::{LostList, LostReport, TableList, TableReport};
pub use writing::{write, write_table};
