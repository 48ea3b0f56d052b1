//! What is told of a SELECT's answer.

/// The answer of a SELECT, judged.
#[derive(Clone, Copy, Debug, PartialEq, Eq)]
pub enum Answered {
    /// It is answered rightly.
    Kept,
    /// The first place that is wrong: its entries are counted, from 0, and then the printed rows; where a row is
    /// missing it is the place behind the last one.
    Wrong(u64),
}
