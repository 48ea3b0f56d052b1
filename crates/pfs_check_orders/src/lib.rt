//! The administration replayed by the numbers of the actions: what each may ask for, where it finds room, and what it
//! is answered.
#![tactic(auto)]

mod asking;
mod copies;
mod held;
mod infos;
pub mod laws;
mod orders;
mod replaying;
mod shows;

pub use held::HeldTables;
pub use infos::Info;
pub use orders::{Order, Orders};
pub use replaying::replay;
pub use shows::HeldCopies;

/// Memory ran out.
pub type NoMemory = std::alloc::AllocError;
