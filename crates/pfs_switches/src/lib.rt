//! The setup words: flags with a version each, which one writer sets and any number of seats load.
#![tactic(auto)]

mod both;
mod rules;
mod switches;
mod view;
mod words;

pub use switches::{FlagRows, NoMemory, Spent, SwitchSeat, Switches, Writer};
pub use view::{Loaded, Met, Setting, View};
