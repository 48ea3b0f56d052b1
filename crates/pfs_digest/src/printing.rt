//! The bytes of a digest text.
#![tactic(auto)]

ghost use Rattle.std.specs.Prelude.{◌≡◌, ◌++◌, IfOk, OnOk};
ghost use Rattle.pfs_digest.specs.Keywords as words;
ghost use Rattle.pfs_digest.specs.TokenPieces as slices;
ghost use Rattle.pfs_digest.specs.PieceBytes as spec;

use crate::NoMemory;
use crate::keywords::keyword_of;
use crate::pieces::{Piece, Shape, slice_of};
use pfs_lexer::{Token, TokenKind};
use std::alloc::Global;

/// The text of the pieces, with one space between each two.
pub(crate) fn spelled(alloc: Global, text: &[u8], pieces: &[Piece]) -> Result<Vec<u8>, NoMemory>
    ensures { IfOk result (λ bytes. bytes.items ≡ spec.spelled text.now pieces.now) }
{
    let mut out = Vec::new(alloc);
    let [first, others @ ..] = pieces else {
        return Ok(out);
    };
    print_piece(&mut out, text, *first)?;
    for piece in others {
        out.push(b' ')?;
        print_piece(&mut out, text, *piece)?;
    }
    Ok(out)
}

// Appends the text of a piece.
#[tactic(auto, unfolding(crate::specs::PieceBytes::printed))]
fn print_piece(out: &mut Vec<u8>, text: &[u8], piece: Piece) -> Result<(), NoMemory>
    ensures { OnOk result (out.new.items ≡ out.old.items ++ spec.printed text.now piece) }
{
    match piece {
        Piece::One(Shape::Value) => out.extend_from_slice(b"?"),
        Piece::One(Shape::Single) => out.extend_from_slice(b"(?)"),
        Piece::One(Shape::Several) => out.extend_from_slice(b"(...)"),
        Piece::Run(Shape::Value) => out.extend_from_slice(b"?, ..."),
        Piece::Run(Shape::Single) => out.extend_from_slice(b"(?) /* , ... */"),
        Piece::Run(Shape::Several) => out.extend_from_slice(b"(...) /* , ... */"),
        Piece::Open => out.extend_from_slice(b"("),
        Piece::Close => out.extend_from_slice(b")"),
        Piece::Comma => out.extend_from_slice(b","),
        Piece::Semicolon => out.extend_from_slice(b";"),
        Piece::Plain(token) => print_token(out, text, token),
    }
}

// Appends a token that is no value: a word, or what stands as it is written.
fn print_token(out: &mut Vec<u8>, text: &[u8], token: Token) -> Result<(), NoMemory>
    ensures { OnOk result (out.new.items ≡ out.old.items
        ++ spec.token_text token.kind (slices.slice_of text.now token)) }
{
    let bytes = slice_of(text, token);
    match token.kind {
        TokenKind::Word => print_word(out, bytes),
        _ => out.extend_from_slice(bytes),
    }
}

// Appends a keyword in upper case, or another word in backquotes.
fn print_word(out: &mut Vec<u8>, word: &[u8]) -> Result<(), NoMemory>
    ensures { OnOk result (out.new.items ≡ out.old.items ++ words.word_text word.now) }
{
    match keyword_of(word) {
        Some(keyword) => out.extend_from_slice(keyword.as_bytes()),
        None => print_name(out, word),
    }
}

// Appends a word in backquotes.
fn print_name(out: &mut Vec<u8>, word: &[u8]) -> Result<(), NoMemory>
    ensures { OnOk result (out.new.items ≡ out.old.items ++ words.keyword_or_name word.now None) }
{
    out.push(b'`')?;
    out.extend_from_slice(word)?;
    out.push(b'`')?;
    Ok(())
}
