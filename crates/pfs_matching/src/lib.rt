//! The rows of `setup_actors` and `setup_objects`, and what they decide.
#![tactic(auto)]

mod actor_rows;
mod faults;
mod keyed_rows;
pub mod laws;
mod object_rows;
mod places;

pub use actor_rows::{ActorRow, Actors};
pub use faults::{FlagChange, MatchFault};
pub use object_rows::{ObjectKind, ObjectRow, Objects};

/// Memory ran out.
pub type NoMemory = std::alloc::AllocError;
