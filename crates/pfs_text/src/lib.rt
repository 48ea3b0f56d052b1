//! Texts as lists of bytes: decimal numbers, `LIKE`, quoting, conditions of a `WHERE`, and the values that tables show.
#![tactic(auto)]

mod conditions;
pub mod laws;
mod numbers;
mod pattern;
mod quoting;
mod texts;
mod values;

pub use conditions::{Comparison, Literal, Shown, Test, TestKind, meets};
pub use numbers::{put_u64, read_u64};
pub use pattern::like;
pub use quoting::{quote, unquote};
pub use texts::Text;
pub use values::{Row, RowValue, Rowset};

/// Memory ran out.
pub type NoMemory = std::alloc::AllocError;
