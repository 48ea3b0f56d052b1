//! What the changes of a report make of its rows: a replay of them, change after change, has the contents, and there
//! are no others. Definitions and laws alone.
#![tactic(auto)]

pub mod laws;
