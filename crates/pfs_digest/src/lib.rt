//! The digest text of a statement, and its digest.
//!
//! The digest text is the statement's tokens with one space between each two. Keywords stand in upper case and
//! names in backquotes. Values are left out, and so are the lengths of lists of values.
#![tactic(auto)]

mod digests;
mod keywords;
mod pieces;
mod printing;
mod stack;

pub use digests::{DigestFault, digest, digest_text};

/// Memory ran out.
pub type NoMemory = std::alloc::AllocError;
