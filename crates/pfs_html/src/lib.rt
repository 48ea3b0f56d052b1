//! A report as a page: who was connected, what took most time, each table under its headings, the journals folded.
#![tactic(auto)]

mod cells;
mod escapes;
mod journals;
pub mod laws;
mod pages;
mod phases;
mod rankings;
mod ranks;
mod tables;
#[cfg(test)]
mod tests;

pub use pages::Page;

/// Memory ran out.
pub type NoMemory = std::alloc::AllocError;
