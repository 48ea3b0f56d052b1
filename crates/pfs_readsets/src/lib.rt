//! Which rows of the board and which switch words a SELECT on a table reads, one after another.
#![tactic(auto)]

pub mod laws;
mod places;
mod read_set;
mod target;

pub use places::{has_long, has_ring, is_class_of, is_kind_cell, table_kind};
pub use read_set::ReadSet;
pub use target::Target;
