//! What an event adds to a summary row, and the words that a put of it writes.
#![tactic(auto)]

mod amounts;
mod seen;
mod words;

pub use amounts::EventTerms;
pub use words::{Outer, Writing};
