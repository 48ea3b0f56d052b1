//! A run of a script on one thread: phase after phase its blocks, each in its session, over a plain store.
#![tactic(auto)]

mod naming;
mod run;
mod runner;

pub use run::run_plain;
pub use std::alloc::AllocError as NoMemory;
