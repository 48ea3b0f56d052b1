//! The administration: connections, and what an action changes in the shared store.
#![tactic(auto)]

mod admin;
mod cells;
mod changes;
mod charges;
mod emptying;
mod freeing;
pub mod laws;
mod naming;
mod opening;
mod remaining;
mod setups;
mod signs;
mod summaries;
mod tags;
mod threads;
mod truncations;

pub use admin::{Admin, Placed};
pub use changes::{Change, Reply, SetupStatement};
pub use naming::Named;
pub use opening::opening_flags;
pub use pfs_containers::Lost;
pub use pfs_rows::Truncation;

/// Memory ran out.
pub type NoMemory = std::alloc::AllocError;
