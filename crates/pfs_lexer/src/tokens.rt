//! What the lexer gives: tokens by their spans, and faults by their places.
#![tactic(auto)]

use thiserror::Error;

/// The kinds of token. Which operator it is, its bytes say.
#[derive(Clone, Copy, Debug, PartialEq, Eq)]
pub enum TokenKind {
    /// Text between `'` or between `"`.
    String,
    /// A name between backquotes.
    QuotedName,
    /// `0x` with hexadecimal digits, or a decimal number.
    Number,
    /// A letter, `_` or `$`, and the letters, digits, `_` and `$` behind it.
    Word,
    /// One of the operators, the longest that stands there.
    Operator,
}

/// A slice of the text, from its byte `start` up to its byte `end`. The first byte of the text is 0.
#[derive(Clone, Copy, Debug, PartialEq, Eq)]
pub struct Token {
    pub kind: TokenKind,
    pub start: usize,
    pub end: usize,
}

/// Why the text has no more tokens, with the place of the byte, counted from 0.
#[derive(Clone, Copy, Debug, PartialEq, Eq, Error)]
pub enum LexFault {
    /// A string or a quoted name begins there and has no end.
    #[error("the text between quotes from byte {0} on has no end")]
    OpenString(usize),
    /// A comment begins there with `/*` and has no `*/`.
    #[error("the comment from byte {0} on has no end")]
    OpenComment(usize),
    /// The byte begins no token, no comment and is no white space.
    #[error("byte {0} begins no token")]
    BadByte(usize),
}
