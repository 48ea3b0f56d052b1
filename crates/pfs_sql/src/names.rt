//! Names, numbers and texts at the front of tokens, and lists of them.
ghost use Rattle.std.specs.Prelude.{◌≡◌, ◌<◌, IfOk, length};
ghost use Rattle.pfs_sql.specs.TokenReaders as reading;
ghost use Rattle.pfs_sql.specs.TokenWords as words;

use crate::faults::SqlFault;
use crate::lists::TextList;
use crate::token::Token;
use crate::words::{REFUSED, after_comma, after_star, named, number_of, table_named};
use pfs_text::{Literal, Text};
use std::alloc::Global;

/// A column's name.
pub(crate) fn name_at(alloc: Global, tokens: &[Token]) -> Result<(Text, &[Token]), SqlFault>
    ensures read { reading.Gives (λ x. (x.0, x.1.now)) result (reading.name_at tokens.now) }
    ensures shorter { IfOk result (λ x. length x.1.now < length tokens.now) }
{
    match tokens {
        [Token::Word(word), rest @ ..] => Ok((named(alloc, word.as_bytes())?, rest)),
        _ => Err(REFUSED),
    }
}

/// A table's name, without its schema.
pub(crate) fn table_at(alloc: Global, tokens: &[Token]) -> Result<(Text, &[Token]), SqlFault>
    ensures { reading.Gives (λ x. (x.0, x.1.now)) result (reading.table_at tokens.now) }
{
    match tokens {
        [Token::Word(word), rest @ ..] => Ok((table_named(alloc, word.as_bytes())?, rest)),
        _ => Err(REFUSED),
    }
}

/// A quoted text.
pub(crate) fn text_at(tokens: &[Token]) -> Result<(Text, &[Token]), SqlFault>
    ensures read { reading.Gives (λ x. (x.0, x.1.now)) result (reading.text_at tokens.now) }
    ensures shorter { IfOk result (λ x. length x.1.now < length tokens.now) }
{
    match tokens {
        [Token::Quoted(text), rest @ ..] => Ok((text.clone()?, rest)),
        _ => Err(REFUSED),
    }
}

/// A number.
pub(crate) fn number_at(tokens: &[Token]) -> Result<(u64, &[Token]), SqlFault>
    ensures { reading.Gives (λ x. (x.0, x.1.now)) result (reading.one words.number_in tokens.now) }
{
    match tokens {
        [Token::Word(word), rest @ ..] => match number_of(word.as_bytes()) {
            Some(number) => Ok((number, rest)),
            None => Err(REFUSED),
        },
        _ => Err(REFUSED),
    }
}

/// A number or a text to compare with.
pub(crate) fn literal_at(tokens: &[Token]) -> Result<(Literal, &[Token]), SqlFault>
    ensures read { reading.Gives (λ x. (x.0, x.1.now)) result (reading.one words.literal_in tokens.now) }
    ensures shorter { IfOk result (λ x. length x.1.now < length tokens.now) }
{
    match tokens {
        [Token::Quoted(text), rest @ ..] => Ok((Literal::Text(text.clone()?), rest)),
        [Token::Word(word), rest @ ..] => match number_of(word.as_bytes()) {
            Some(number) => Ok((Literal::Number(number), rest)),
            None => Err(REFUSED),
        },
        _ => Err(REFUSED),
    }
}

/// Columns with commas between them.
pub(crate) fn names_at(alloc: Global, tokens: &[Token]) -> Result<(TextList, &[Token]), SqlFault>
    ensures { reading.Gives (λ x. (x.0, x.1.now)) result (reading.names_at tokens.now) }
{
    let mut names = Vec::new(alloc);
    let mut rest = tokens;
    'items: loop {
        let (name, behind) = name_at(alloc, rest)?;
        names.push(name)?;
        match after_comma(behind) {
            Some(more) => rest = more,
            None => return Ok((TextList::new(names), behind)),
        }
    }
}

/// Quoted texts with commas between them.
pub(crate) fn texts_at(alloc: Global, tokens: &[Token]) -> Result<(TextList, &[Token]), SqlFault>
    ensures { reading.Gives (λ x. (x.0, x.1.now)) result (reading.texts_at tokens.now) }
{
    let mut texts = Vec::new(alloc);
    let mut rest = tokens;
    'items: loop {
        let (text, behind) = text_at(rest)?;
        texts.push(text)?;
        match after_comma(behind) {
            Some(more) => rest = more,
            None => return Ok((TextList::new(texts), behind)),
        }
    }
}

/// `*`, which is no list, or columns with commas between them.
#[tactic(auto, unfolding(crate::specs::TokenReaders::columns_at))]
pub(crate) fn columns_at(
    alloc: Global,
    tokens: &[Token],
) -> Result<(Option<TextList>, &[Token]), SqlFault>
    ensures { reading.Gives (λ x. (x.0, x.1.now)) result (reading.columns_at tokens.now) }
{
    match after_star(tokens) {
        Some(rest) => Ok((None, rest)),
        None => {
            let (names, rest) = names_at(alloc, tokens)?;
            Ok((Some(names), rest))
        }
    }
}
