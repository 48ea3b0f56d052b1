//! The shared store as an actor sees it, a plain store, and the moves of numbers from row to row.
#![tactic(auto)]

pub mod answers;
pub mod flushes;
pub mod laws;
pub mod moves;
pub mod places;
pub mod plain;
pub(crate) mod slots;
pub mod store;

pub use answers::{Added, RingPut, Word};
pub use flushes::{Source, flush, flush_cells};
pub use moves::{clear, move_up, purge};
pub use pfs_board::{Content, Label};
pub use pfs_event::Log;
pub use places::{Level, NumberList, Places, Targets, Up, UpList};
pub use plain::PlainRows;
pub use store::{Acts, Hold, Readable, Rows};

/// Memory ran out.
pub type NoMemory = std::alloc::AllocError;
