//! Scripts made from numbers: for each number one script, and the same at every call.
#![tactic(auto)]

pub mod laws;
mod numbers;
mod script;
mod units;

pub use script::script_of;
pub use std::alloc::AllocError as NoMemory;
