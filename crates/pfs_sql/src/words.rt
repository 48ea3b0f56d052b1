//! Single tokens: keywords, marks, names, numbers and texts.
ghost use Rattle.std.specs.Prelude.{◌≡◌, ◌<◌, IfOk, IfSome, length};
ghost use Rattle.std.specs.Option.{option_copied};
ghost use Rattle.std.specs.List.{list_all};
ghost use Rattle.pfs_sql.specs.Tokens as lexing;
ghost use Rattle.pfs_sql.specs.TokenWords as words;
ghost use Rattle.pfs_sql.specs.TokenReaders as reading;

use crate::faults::{SqlError, SqlFault};
use crate::token::Token;
use pfs_text::{Comparison, Text, read_u64};
use std::alloc::Global;

/// The answer where the text is no command.
pub(crate) const REFUSED: SqlFault = SqlFault::Error(SqlError::Parse);

/// The token is the keyword, in any case.
pub(crate) fn is_key(token: &Token, key: &[u8]) -> bool
    ensures { result ≡ words.is_key key.now token.now }
{
    match token {
        Token::Word(word) => word.as_bytes().eq_ignore_ascii_case(key),
        _ => false,
    }
}

/// The tokens behind the keyword, if it stands first.
pub(crate) fn after_key<'a>(tokens: &'a [Token], key: &[u8]) -> Option<&'a [Token]>
    ensures read { option_copied result ≡ reading.after_key key.now tokens.now }
    ensures shorter { IfSome result (λ rest. length rest.now < length tokens.now) }
{
    match tokens {
        [first, rest @ ..] if is_key(first, key) => Some(rest),
        _ => None,
    }
}

/// The tokens behind the keyword, which has to stand first.
pub(crate) fn expect_key<'a>(tokens: &'a [Token], key: &[u8]) -> Result<&'a [Token], SqlFault>
    ensures read { reading.Gives (λ rest. rest.now) result (reading.after_key key.now tokens.now) }
    ensures shorter { IfOk result (λ rest. length rest.now < length tokens.now) }
{
    match after_key(tokens, key) {
        Some(rest) => Ok(rest),
        None => Err(REFUSED),
    }
}

pub(crate) fn after_comma(tokens: &[Token]) -> Option<&[Token]>
    ensures read { option_copied result ≡ reading.after words.is_comma tokens.now }
    ensures shorter { IfSome result (λ rest. length rest.now < length tokens.now) }
{
    match tokens {
        [Token::Comma, rest @ ..] => Some(rest),
        _ => None,
    }
}

pub(crate) fn after_star(tokens: &[Token]) -> Option<&[Token]>
    ensures { option_copied result ≡ reading.after words.is_star tokens.now }
{
    match tokens {
        [Token::Star, rest @ ..] => Some(rest),
        _ => None,
    }
}

pub(crate) fn after_open(tokens: &[Token]) -> Option<&[Token]>
    ensures { option_copied result ≡ reading.after words.is_open tokens.now }
{
    match tokens {
        [Token::Open, rest @ ..] => Some(rest),
        _ => None,
    }
}

pub(crate) fn expect_open(tokens: &[Token]) -> Result<&[Token], SqlFault>
    ensures { reading.Gives (λ rest. rest.now) result (reading.after words.is_open tokens.now) }
{
    match tokens {
        [Token::Open, rest @ ..] => Ok(rest),
        _ => Err(REFUSED),
    }
}

pub(crate) fn expect_close(tokens: &[Token]) -> Result<&[Token], SqlFault>
    ensures { reading.Gives (λ rest. rest.now) result (reading.after words.is_close tokens.now) }
{
    match tokens {
        [Token::Close, rest @ ..] => Ok(rest),
        _ => Err(REFUSED),
    }
}

pub(crate) fn expect_equal(tokens: &[Token]) -> Result<&[Token], SqlFault>
    ensures read { reading.Gives (λ rest. rest.now) result (reading.after reading.is_equal tokens.now) }
    ensures shorter { IfOk result (λ rest. length rest.now < length tokens.now) }
{
    match tokens {
        [Token::Compares(Comparison::Equal), rest @ ..] => Ok(rest),
        _ => Err(REFUSED),
    }
}

/// No token is left, or one `;`.
pub(crate) fn ends(tokens: &[Token]) -> bool
    ensures { result ≡ reading.ends tokens.now }
{
    matches!(tokens, [] | [Token::Semicolon])
}

/// A letter, a digit or `_`.
pub(crate) fn is_name_byte(byte: u8) -> bool
    ensures { result ≡ lexing.is_name_byte byte }
{
    byte.is_ascii_alphabetic() || byte.is_ascii_digit() || byte == b'_'
}

fn is_name(word: &[u8]) -> bool
    ensures { result ≡ words.is_name word.now }
{
    !word.is_empty() && all_name_bytes(word)
}

fn all_name_bytes(word: &[u8]) -> bool
    ensures { result ≡ list_all lexing.is_name_byte word.now }
{
    word.iter().all(|byte| is_name_byte(*byte))
}

/// The length of `performance_schema.`.
const SCHEMA_LEN: usize = 19;

// The word begins with the schema's name and a dot, in any case.
fn has_schema(word: &[u8]) -> bool
    ensures { result ≡ words.has_schema word.now }
{
    word.len() >= SCHEMA_LEN && word[..SCHEMA_LEN].eq_ignore_ascii_case(b"performance_schema.")
}

// What is left of the word behind the schema, if it begins with it.
fn after_schema(word: &[u8]) -> &[u8]
    ensures { words.table_of word.now ≡ words.name_of result.now }
{
    if has_schema(word) {
        &word[SCHEMA_LEN..]
    } else {
        word
    }
}

// A copy of the word where it is a name.
pub(crate) fn named(alloc: Global, word: &[u8]) -> Result<Text, SqlFault>
    ensures { reading.Gives (λ name. name) result (words.name_of word.now) }
{
    if is_name(word) {
        Ok(Text::from_slice(alloc, word)?)
    } else {
        Err(REFUSED)
    }
}

/// The table that the word names, without its schema.
pub(crate) fn table_named(alloc: Global, word: &[u8]) -> Result<Text, SqlFault>
    ensures { reading.Gives (λ name. name) result (words.table_of word.now) }
{
    named(alloc, after_schema(word))
}

/// The number that the word writes.
pub(crate) fn number_of(word: &[u8]) -> Option<u64>
    ensures { result ≡ words.number_of word.now }
{
    read_u64(word)
}
