//! The tickets of the long histories in a report: each of a kind once, each at its own place, rising along a session,
//! and none over a greater one.
#![tactic(auto)]

mod asking;
mod collecting;
mod counting;
mod judging;
pub mod laws;
mod puts;
mod rising;
mod showing;

pub use judging::{TicketRule, judge_tickets};

/// Memory ran out.
pub type NoMemory = std::alloc::AllocError;
