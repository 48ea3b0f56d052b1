//! The numbers of a line.

ghost use Rattle.std.specs.Prelude.{◌≡◌};
ghost use Rattle.std.specs.List.{list_all};
ghost use Rattle.pfs_script.specs.Numerals.{is_digit, is_numeral, number_of, first_of, numbers_of};

use crate::forms::{Number, Numbers};
use crate::texts::Text;
use crate::words::split_word;
use pfs_text::read_u64;

fn is_digit(byte: u8) -> bool
    ensures { result ≡ is_digit byte }
{
    byte.is_ascii_digit()
}

fn all_digits(text: &[u8]) -> bool
    ensures { result ≡ list_all is_digit text.now }
{
    text.iter().all(|byte| is_digit(*byte))
}

#[tactic(auto, unfolding(crate::specs::Numerals::is_numeral))]
fn is_numeral(text: &[u8]) -> bool
    ensures { result ≡ is_numeral text.now }
{
    text.len() > 0 && all_digits(text)
}

/// The number that a word is, where it is one.
#[tactic(auto, unfolding(crate::specs::Numerals::number_of))]
pub fn parse_number(word: &[u8]) -> Option<Number>
    ensures { result ≡ number_of word.now }
{
    if is_numeral(word) {
        Some(read_u64(word))
    } else {
        None
    }
}

/// A number, and what stands behind it on its line.
#[derive(Drop)]
struct First<'a> {
    number: Number,
    rest: Text<'a>,
}

/// The number that the first word is, where it is one and a space stands behind it.
#[tactic(auto, unfolding(crate::specs::Numerals::first_of))]
fn parse_first(words: &[u8]) -> Option<First<'_>>
    ensures { result ≡ first_of words.now }
{
    let (word, rest) = split_word(words);
    let number = parse_number(word)?;
    let rest = rest?;
    Some(First {
        number,
        rest: Text::new(rest),
    })
}

/// The six numbers that the words are.
#[tactic(auto, unfolding(crate::specs::Numerals::numbers_of))]
pub fn parse_numbers(words: &[u8]) -> Option<Numbers>
    ensures { result ≡ numbers_of words.now }
{
    let lock = parse_first(words)?;
    let errors = parse_first(lock.rest.bytes())?;
    let warnings = parse_first(errors.rest.bytes())?;
    let affected = parse_first(warnings.rest.bytes())?;
    let sent = parse_first(affected.rest.bytes())?;
    let examined = parse_number(sent.rest.bytes())?;
    Some(Numbers {
        lock: lock.number,
        errors: errors.number,
        warnings: warnings.number,
        affected: affected.number,
        sent: sent.number,
        examined,
    })
}
