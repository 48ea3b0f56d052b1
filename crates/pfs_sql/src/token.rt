//! The tokens of a command's text.
use pfs_text::{Comparison, Text};

/// What a text is cut into.
#[derive(Debug, Drop)]
pub enum Token {
    /// Letters, digits, `_` and `.` that stand together: a keyword, a name or a number.
    Word(Text),
    /// The text between two `'`, a `'` inside it doubled.
    Quoted(Text),
    /// `=`, `<>`, `!=`, `<`, `<=`, `>` or `>=`.
    Compares(Comparison),
    Comma,
    Open,
    Close,
    Star,
    Semicolon,
}
