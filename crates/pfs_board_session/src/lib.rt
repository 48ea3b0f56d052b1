//! A session's actions over a board that keeps a desk, each from its beginning to its end, and its pause there.
#![tactic(auto)]

mod actions;
mod desks;
mod gates;
mod seated;
mod showing;

pub use actions::{act, connect, pause, quit, truncate};
pub use gates::{Gate, OpenGate};
pub use seated::Seated;
pub use showing::show_held;

/// Memory ran out.
pub type NoMemory = std::alloc::AllocError;
