//! The sessions of a run between their blocks, each in its seat.
#![tactic(auto)]

mod seats;

pub use crate::seats::{empty_seats, keep_seat, take_seat};
pub use std::alloc::AllocError as NoMemory;
