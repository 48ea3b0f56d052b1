//! The pieces of a digest text.
#![tactic(auto)]

ghost use Rattle.std.specs.Prelude.{◌≡◌};
ghost use Rattle.pfs_digest.specs.TokenPieces as spec;

use pfs_lexer::{Token, TokenKind};

/// What stands in the place of values.
#[derive(Clone, Copy, Debug, PartialEq, Eq)]
pub enum Shape {
    /// `?`, a value.
    Value,
    /// `(?)`, a value in brackets.
    Single,
    /// `(...)`, several values in brackets.
    Several,
}

/// A piece of a digest text.
#[derive(Clone, Copy, Debug, PartialEq, Eq)]
pub enum Piece {
    /// The shape once.
    One(Shape),
    /// The shape at least twice, with `,` between.
    Run(Shape),
    /// `(`
    Open,
    /// `)`
    Close,
    /// `,`
    Comma,
    /// `;`
    Semicolon,
    /// A word, a quoted name or another operator.
    Plain(Token),
}

/// The bytes of a token.
pub(crate) fn slice_of(text: &[u8], token: Token) -> &[u8]
    ensures { result.now ≡ spec.slice_of text.now token }
{
    let end = token.end.min(text.len());
    let start = token.start.min(end);
    &text[start..end]
}

/// The piece that a token is before the lists of values are made short.
#[tactic(auto, unfolding(crate::specs::TokenPieces::piece_of))]
pub(crate) fn piece_of(text: &[u8], token: Token) -> Piece
    ensures { result ≡ spec.piece_of text.now token }
{
    match token.kind {
        TokenKind::String | TokenKind::Number => Piece::One(Shape::Value),
        TokenKind::QuotedName | TokenKind::Word => Piece::Plain(token),
        TokenKind::Operator => match slice_of(text, token) {
            b"?" => Piece::One(Shape::Value),
            b"(" => Piece::Open,
            b")" => Piece::Close,
            b"," => Piece::Comma,
            b";" => Piece::Semicolon,
            _ => Piece::Plain(token),
        },
    }
}
