//! What a run is, said of finished journals: which entries a session's lines ask for, what each entry may name, and
//! what the tables show of them. The definitions stand in `specs/`; the laws in `laws` are theorems about them.
#![tactic(auto)]

mod changes;
pub mod laws;
mod lines;
mod shapes;

pub use changes::Change;
pub use lines::{Line, Opened, Subject};
pub use shapes::{Ask, Item, Often};
