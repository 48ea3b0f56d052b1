//! Playing the lines of a script in their session, over any actor.
#![tactic(auto)]

mod costs;
mod events;
mod lines;
mod queries;
mod repeats;
mod requests;

pub use costs::written_cost;
pub use lines::{play_line, play_lines};
pub use repeats::{play_times, play_written};

/// Memory ran out.
pub type NoMemory = std::alloc::AllocError;
