//! The answers of the rules of phases' ends.

/// The answer of a rule of what stands at phases' ends.
#[derive(Clone, Copy, Debug, PartialEq, Eq)]
pub enum EndRule {
    /// It is kept.
    Kept,
    /// The first line at which it fails, counted from 1.
    Wrong(u64),
}
