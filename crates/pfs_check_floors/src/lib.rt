//! What a line of a report may name of rows and switch words, by what its session must have seen.
#![tactic(auto)]

mod changes;
mod collecting;
mod floors;
mod loads;
mod releases;
mod rows;
mod sights;

pub use changes::{release_in, row_change};
pub use collecting::{Collected, Givens, push_given};
pub use floors::{Floors, Seat, SessionRow};
pub use loads::{Load, Loads, loads_in};
pub use releases::{Releases, opens_free};
pub use rows::RowFloors;
pub use sights::{Sights, is_there};

/// Memory ran out.
pub type NoMemory = std::alloc::AllocError;
