//! A report as tables that people read: each column under its heading, times with units.
#![tactic(auto)]

mod answers;
mod cells;
mod columns;
mod grids;
pub mod laws;
mod lines;
mod options;
mod phases;
mod refusals;
mod replies;
mod script_lines;
mod scripts;
#[cfg(test)]
mod tests;
mod texts;
mod times;
mod viewing;

pub use columns::{Headings, Times};
pub use grids::Grid;
pub use lines::{Layout, is_right};
pub use options::{Asked, choose};
pub use phases::{Choice, counter_rows, headings_of, show};
pub use viewing::{Rendering, Status, view};

/// Memory ran out.
pub type NoMemory = std::alloc::AllocError;
