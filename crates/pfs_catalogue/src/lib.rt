//! The catalogue: which columns each table has, what may be done with it, and how its names are read.
#![tactic(auto)]

mod columns;
mod commands;
mod keys;
pub mod laws;
mod tables;

pub use columns::{Column, ColumnKind, column_at, column_count, column_kind, find_column};
pub use commands::{CommandKind, Flag, allows, flag_at, flag_place};
pub use keys::{KeyNumber, TableKey, key_of};
pub use tables::{TABLES, find_table};
