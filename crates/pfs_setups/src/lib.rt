//! What UPDATE, INSERT and DELETE change: rows of the setup tables, and flags of the switch words; and what a SELECT on
//! the held tables answers.
#![tactic(auto)]

mod deletes;
pub mod held_tables;
mod inserts;
pub mod laws;
mod meeting;
mod names;
mod rows;
mod showing;
mod shown;
mod updates;
mod words;

pub use deletes::delete;
pub use inserts::insert;
pub use names::RowNames;
pub use showing::show;
pub use updates::update;
pub use words::{flags_behind, flags_by_answer, flags_by_rows};

/// Memory ran out.
pub type NoMemory = std::alloc::AllocError;
