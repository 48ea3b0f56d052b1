//! The lexer.
#![tactic(auto)]

ghost use Rattle.std.specs.Prelude.{◌≡◌, ◌-◌, ◌<◌, ◌≤◌, [], ◌++◌, length, drop, IsNone};
ghost use Rattle.std.specs.Option.{option_to_list};
ghost use Rattle.pfs_lexer.specs.Accounts.{Accounts};
ghost use Rattle.pfs_lexer.specs.Fronts as spec;
ghost use Rattle.pfs_lexer.specs.TextItems.{items_from, items_of};

use crate::fronts::{Front, front_of};
use crate::tokens::{LexFault, Token};
use std::marker::Model;

/// Gives the tokens of a text in order. Contracts see what it has still to give.
#[derive(Drop)]
pub struct Lexer<'a> {
    text: &'a [u8],
    place: usize,
}

impl<'a> Model for Lexer<'a> {
    ghost use Rattle.std.specs.Prelude.{◌≤◌, List, Result, length, drop};
    ghost use Rattle.pfs_lexer.specs.declared.tokens.Token.{Token};
    ghost use Rattle.pfs_lexer.specs.declared.tokens.LexFault.{LexFault};
    ghost use Rattle.pfs_lexer.specs.TextItems.{items_from};

    ghost Value = { List (Result Token LexFault) };

    ghost view = { λ l. items_from l.place 0 (drop l.place l.text.now) };

    ghost invariant = { λ l. l.place ≤ length l.text.now };
}

impl<'a> Lexer<'a> {
    /// The lexer at the front of the text.
    #[tactic(auto, using(crate::proofs::Accounts::accounts))]
    pub fn new(text: &'a str) -> Lexer<'a>
        ensures items { result ≡ items_of text.now }
        // Each byte stands in white space, in a comment or in one token, the longest there, or behind a fault.
        ensures accounted { Accounts 0 text.now result }
    {
        Lexer {
            text: text.as_bytes(),
            place: 0,
        }
    }

    /// The next token, or the fault that stands in its place. None at the end of the text and after a fault.
    pub fn next(&mut self) -> Option<Result<Token, LexFault>>
        ensures first { self.old ≡ option_to_list result ++ self.new }
        ensures none { IsNone result → self.old ≡ [] }
    {
        let (item, place) = item_from(self.text, self.place);
        self.place = place;
        item
    }
}

// The first item from a place on, and the place behind it. The end of the text lies behind a fault.
fn item_from(text: &[u8], from: usize) -> (Option<Result<Token, LexFault>>, usize)
    requires { from ≤ length text.now }
    ensures item { items_from from 0 (drop from text.now)
        ≡ option_to_list result.0 ++ items_from result.1 0 (drop result.1 text.now) }
    ensures within { result.1 ≤ length text.now }
    ensures none { IsNone result.0 → items_from from 0 (drop from text.now) ≡ [] }
{
    let mut place = from;
    'blanks: while place < text.len() {
        let len = match front_at(text, place) {
            Front::Blank(len) => len,
            Front::Piece(kind, len) => {
                let end = place + len;
                let token = Token {
                    kind,
                    start: place,
                    end,
                };
                return (Some(Ok(token)), end);
            }
            Front::OpenString => return (Some(Err(LexFault::OpenString(place))), text.len()),
            Front::OpenComment => return (Some(Err(LexFault::OpenComment(place))), text.len()),
            Front::BadByte => return (Some(Err(LexFault::BadByte(place))), text.len()),
        };
        place += len;
    }
    (None, text.len())
}

// What stands at a place.
fn front_at(text: &[u8], place: usize) -> Front
    requires { place < length text.now }
    ensures front { result ≡ spec.front_of (drop place text.now) }
    ensures within { spec.IsWithin (length text.now - place) result }
{
    front_of(&text[place..])
}
