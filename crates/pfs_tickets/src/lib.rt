//! The tickets of the long places: four words that any number of seats draw from, each ticket once.
#![tactic(auto)]

pub mod laws;
mod rules;
mod tickets;
mod view;

pub use tickets::{NoMemory, TicketSeat, Tickets};
pub use view::{Drawn, View};
