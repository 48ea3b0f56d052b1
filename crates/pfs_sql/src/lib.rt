//! The commands of SQL that the tables take, read from their text.
#![tactic(auto)]

mod clauses;
mod command;
mod commands;
mod distinct;
mod faults;
mod kinds;
pub mod laws;
mod lexer;
mod lists;
mod names;
mod parsing;
mod token;
mod words;

pub use command::{
    Assignment, Command, DeleteCommand, InsertCommand, NamedOrder, NamedTest, SelectCommand,
    TruncateCommand, UpdateCommand,
};
pub use faults::{SqlError, SqlFault};
pub use lists::{AssignmentList, NamedOrderList, NamedTestList, TextList};
pub use parsing::parse;

/// Memory ran out.
pub type NoMemory = std::alloc::AllocError;
