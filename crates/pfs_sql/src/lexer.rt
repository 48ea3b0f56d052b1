//! Cutting a text into tokens.
ghost use Rattle.std.specs.Prelude.{◌≡◌, ◌≤◌, ◌<◌, ◌+◌, List, IfOk, IfSome, MatchResult, drop, length};
ghost use Rattle.std.specs.List.{prefix_len};
ghost use Rattle.std.specs.Option.{option_map};
ghost use Rattle.pfs_sql.specs.declared.token.Token.{Token};
ghost use Rattle.pfs_sql.specs.TextCuts as cutting;
ghost use Rattle.pfs_sql.specs.Grammar.{Refuses};
ghost use Rattle.pfs_sql.specs.TokenReaders as reading;
ghost use Rattle.pfs_sql.specs.Tokens as spec;

use crate::faults::SqlFault;
use crate::token::Token;
use crate::words::{REFUSED, is_name_byte};
use pfs_text::{Comparison, Text};
use std::alloc::Global;

fn is_blank(byte: u8) -> bool
    ensures { result ≡ spec.is_blank byte }
{
    byte == b' ' || byte == b'\t'
}

fn is_word_byte(byte: u8) -> bool
    ensures { result ≡ spec.is_word_byte byte }
{
    is_name_byte(byte) || byte == b'.'
}

fn blank_run(bytes: &[u8]) -> usize
    ensures run { result ≡ prefix_len spec.is_blank bytes.now }
    ensures within { result ≤ length bytes.now }
{
    bytes.iter().take_while(|byte| is_blank(**byte)).count()
}

fn word_run(bytes: &[u8]) -> usize
    ensures run { result ≡ prefix_len spec.is_word_byte bytes.now }
    ensures within { result ≤ length bytes.now }
{
    bytes.iter().take_while(|byte| is_word_byte(**byte)).count()
}

fn skip_blanks(bytes: &[u8]) -> &[u8]
    ensures skipped { result.now ≡ drop (prefix_len spec.is_blank bytes.now) bytes.now }
    ensures within { length result.now ≤ length bytes.now }
{
    &bytes[blank_run(bytes)..]
}

// The word at the front.
fn word_at(alloc: Global, bytes: &[u8]) -> Result<(Token, &[u8]), SqlFault>
    ensures read { reading.Gives (λ x. (x.0, x.1.now)) result (cutting.word_of bytes.now) }
    ensures within { IfOk result (λ x. length x.1.now + prefix_len spec.is_word_byte bytes.now ≡ length bytes.now) }
{
    let (word, rest) = bytes.split_at(word_run(bytes));
    Ok((Token::Word(Text::from_slice(alloc, word)?), rest))
}

// The next byte of a quoted text, a doubled `'` taken for one, or None at its closing `'` and where none comes.
#[tactic(auto, unfolding(crate::specs::TextCuts::inner_of))]
fn inner_at(bytes: &[u8]) -> Option<(u8, &[u8])>
    ensures read { option_map (λ x. (x.0, x.1.now)) result ≡ cutting.inner_of bytes.now }
    ensures shorter { IfSome result (λ x. length x.1.now < length bytes.now) }
{
    match bytes {
        [b'\'', b'\'', rest @ ..] => Some((b'\'', rest)),
        [] | [b'\'', ..] => None,
        [byte, rest @ ..] => Some((*byte, rest)),
    }
}

// The text, if its closing `'` stands here, and what stands behind that.
fn closed_at(text: Vec<u8>, bytes: &[u8]) -> Result<(Token, &[u8]), SqlFault>
    ensures read { reading.Gives (λ x. (x.0, x.1.now)) result (cutting.closed_of text.items bytes.now) }
    ensures within { IfOk result (λ x. length x.1.now ≤ length bytes.now) }
{
    match bytes {
        [b'\'', rest @ ..] => Ok((Token::Quoted(Text::new(text)), rest)),
        _ => Err(REFUSED),
    }
}

// The text up to the closing `'`.
fn quoted_at(alloc: Global, bytes: &[u8]) -> Result<(Token, &[u8]), SqlFault>
    ensures read { reading.Gives (λ x. (x.0, x.1.now)) result (cutting.quoted_of bytes.now) }
    ensures within { IfOk result (λ x. length x.1.now ≤ length bytes.now) }
{
    let mut text = Vec::new(alloc);
    let mut rest = bytes;
    'bytes: loop {
        match inner_at(rest) {
            Some((byte, more)) => {
                text.push(byte)?;
                rest = more;
            }
            None => return closed_at(text, rest),
        }
    }
}

// The comparison at the front.
fn sign_at(bytes: &[u8]) -> Option<(Comparison, &[u8])>
    ensures read { option_map (λ x. (x.0, x.1.now)) result ≡ cutting.sign_of bytes.now }
    ensures shorter { IfSome result (λ x. length x.1.now < length bytes.now) }
{
    match bytes {
        [b'=', rest @ ..] => Some((Comparison::Equal, rest)),
        [b'!', b'=', rest @ ..] | [b'<', b'>', rest @ ..] => Some((Comparison::Unequal, rest)),
        [b'<', b'=', rest @ ..] => Some((Comparison::AtMost, rest)),
        [b'<', rest @ ..] => Some((Comparison::Less, rest)),
        [b'>', b'=', rest @ ..] => Some((Comparison::AtLeast, rest)),
        [b'>', rest @ ..] => Some((Comparison::Greater, rest)),
        _ => None,
    }
}

// The token of one or two marks at the front.
fn mark_at(bytes: &[u8]) -> Result<(Token, &[u8]), SqlFault>
    ensures read { reading.Gives (λ x. (x.0, x.1.now)) result (cutting.mark_of bytes.now) }
    ensures shorter { IfOk result (λ x. length x.1.now < length bytes.now) }
{
    match bytes {
        [b',', rest @ ..] => Ok((Token::Comma, rest)),
        [b'(', rest @ ..] => Ok((Token::Open, rest)),
        [b')', rest @ ..] => Ok((Token::Close, rest)),
        [b'*', rest @ ..] => Ok((Token::Star, rest)),
        [b';', rest @ ..] => Ok((Token::Semicolon, rest)),
        _ => match sign_at(bytes) {
            Some((comparison, rest)) => Ok((Token::Compares(comparison), rest)),
            None => Err(REFUSED),
        },
    }
}

// The token at the front, the longest that stands there.
#[tactic(auto, unfolding(crate::specs::TextCuts::token_of))]
fn token_at(alloc: Global, bytes: &[u8]) -> Result<(Token, &[u8]), SqlFault>
    ensures read { reading.Gives (λ x. (x.0, x.1.now)) result (cutting.token_of bytes.now) }
    ensures shorter { IfOk result (λ x. length x.1.now < length bytes.now) }
{
    match bytes {
        [] => Err(REFUSED),
        [b'\'', rest @ ..] => quoted_at(alloc, rest),
        [byte, ..] if is_word_byte(*byte) => word_at(alloc, bytes),
        _ => mark_at(bytes),
    }
}

/// The tokens of the text, or the refusal where it is not made of tokens and blanks alone.
pub(crate) fn tokens_of(alloc: Global, text: &[u8]) -> Result<Vec<Token>, SqlFault>
    ensures { MatchResult result (λ tokens. spec.AreTokens text.now tokens.items)
        (λ fault. Refuses fault ((tokens : List Token) → ¬ spec.AreTokens text.now tokens)) }
{
    let mut tokens = Vec::new(alloc);
    let mut rest = skip_blanks(text);
    'tokens: while !rest.is_empty() {
        let (token, after) = token_at(alloc, rest)?;
        tokens.push(token)?;
        rest = skip_blanks(after);
    }
    Ok(tokens)
}
