//! Who is connected where: thread slots, accounts, users and hosts, and what found no room.
#![tactic(auto)]

mod containers;
pub mod info_rows;
mod infos;
pub mod laws;
mod places;
mod state;

pub use containers::{Account, Connection, Containers, Lost, Seated};
pub use infos::{AccountInfo, Content, NameInfo, ThreadInfo};

/// Memory ran out.
pub type NoMemory = std::alloc::AllocError;
