//! What stands at the front of a text.
#![tactic(auto)]

ghost use Rattle.std.specs.Prelude.{◌≡◌, ◌<◌, drop, length, slice_index};
ghost use Rattle.pfs_lexer.specs.Fronts as spec;
ghost use Rattle.pfs_lexer.specs.QuotePairs as quotes;

use crate::classes::{is_blank, is_word_start, line_run, word_run};
use crate::comments::{begins_comment, begins_line_comment, comment_len};
use crate::numbers::number_len;
use crate::operators::operator_len;
use crate::quotes::quoted_len;
use crate::tokens::TokenKind;

/// What stands at the front, with its number of bytes, or why there is none.
#[derive(Clone, Copy)]
pub(crate) enum Front {
    /// White space, or a comment.
    Blank(usize),
    /// A token.
    Piece(TokenKind, usize),
    /// A string or a quoted name without an end.
    OpenString,
    /// A comment without an end.
    OpenComment,
    /// A byte that begins nothing.
    BadByte,
}

/// What stands at the front of the bytes.
#[tactic(auto, unfolding(crate::specs::Fronts::front_of))]
pub(crate) fn front_of(bytes: &[u8]) -> Front
    requires { 0 < length bytes.now }
    ensures front { result ≡ spec.front_of bytes.now }
    ensures within { spec.IsWithin (length bytes.now) result }
{
    if is_blank(bytes[0]) {
        Front::Blank(1)
    } else if begins_line_comment(bytes) {
        Front::Blank(1 + line_run(&bytes[1..]))
    } else if begins_comment(bytes) {
        match comment_len(&bytes[2..]) {
            Some(len) => Front::Blank(2 + len),
            None => Front::OpenComment,
        }
    } else {
        token_of(bytes)
    }
}

// The token at the front of the bytes, where no white space and no comment stands there.
#[tactic(auto, unfolding(crate::specs::Fronts::token_of))]
fn token_of(bytes: &[u8]) -> Front
    requires { 0 < length bytes.now }
    ensures front { result ≡ spec.token_of bytes.now }
    ensures within { spec.IsWithin (length bytes.now) result }
{
    match bytes[0] {
        b'\'' | b'"' => quoted(TokenKind::String, bytes),
        b'`' => quoted(TokenKind::QuotedName, bytes),
        b'0'..=b'9' => Front::Piece(TokenKind::Number, number_len(bytes)),
        byte if is_word_start(byte) => Front::Piece(TokenKind::Word, 1 + word_run(&bytes[1..])),
        _ => match operator_len(bytes) {
            0 => Front::BadByte,
            len => Front::Piece(TokenKind::Operator, len),
        },
    }
}

// The token that begins with the quote at the front.
fn quoted(kind: TokenKind, bytes: &[u8]) -> Front
    requires { 0 < length bytes.now }
    ensures within { spec.IsWithin (length bytes.now) result }
    ensures front { result ≡ spec.closed kind (quotes.quoted_len (slice_index bytes.now 0) (drop 1 bytes.now)) }
{
    match quoted_len(&bytes[1..], bytes[0]) {
        Some(len) => Front::Piece(kind, 1 + len),
        None => Front::OpenString,
    }
}
