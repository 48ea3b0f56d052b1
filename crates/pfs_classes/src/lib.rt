//! Instrument classes: their kinds, the built-in list, and the register that a script adds to.
#![tactic(auto)]

mod builtin;
mod classes;
mod kind;
pub mod laws;
mod setting;

pub use builtin::{BUILTINS, Builtin, TRANSACTION_NAME};
pub use classes::{
    Class, ClassFault, ClassId, ClassRef, Classes, LostClass, Registered, TRANSACTION,
};
pub use kind::Kind;
pub use setting::{DigestList, DigestText, Setting, TableList, TableName};

/// Memory ran out.
pub type NoMemory = std::alloc::AllocError;
