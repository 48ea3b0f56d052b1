//! The slot board: rows of seventeen words that many actors read and change, with no lock but the row's own word.
#![tactic(auto)]

mod actions;
mod answers;
mod board;
pub mod laws;
mod rules;
mod steps;
mod view;
mod words;

pub use answers::{Content, FinalRow, Opening, Seen, Taken};
pub use board::{Board, BoardSeat, FinalRows, NoMemory};
pub use rules::Kept;
pub use view::{Change, Corner, Entered, Finished, Label, Sight, Stage, View};
pub use words::Openings;
