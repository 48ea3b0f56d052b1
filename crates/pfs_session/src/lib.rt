//! A session over any store: its open events, what it holds back, and its journal.
#![tactic(auto)]

mod adding;
mod events;
mod inquiries;
mod nexts;
mod opening;
mod outcomes;
mod paused;
mod paying;
mod putting;
mod remarks;
mod session;
mod setup;
mod statements;

pub use events::Numbers;
pub use nexts::Nexts;
pub use outcomes::{End, Ended, LastAction, Started};
pub use paused::Paused;
pub use pfs_rings::Put;
pub use remarks::Remark;
pub use session::Session;
pub use setup::Setup;

/// Memory ran out.
pub type NoMemory = std::alloc::AllocError;
