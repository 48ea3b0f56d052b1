//! The lines of a block, but for those that start events: sessions, times, ends, commands, repeats.

ghost use Rattle.std.specs.Prelude.{◌≡◌};
ghost use Rattle.pfs_script.specs.Forms.{connect_form, session_form, spend_form, end_form, sql_form, repeat_form};

use crate::forms::{Form, Number};
use crate::numerals::{parse_number, parse_numbers};
use crate::texts::{AsciiText, Text};
use crate::words::{is_name, is_word, split_word};

/// `session K` or `session K USER HOST`, from K on.
#[tactic(auto, unfolding(crate::specs::Forms::session_form))]
pub fn parse_session(words: &[u8]) -> Option<Form<'_>>
    ensures { result ≡ session_form words.now }
{
    let (session, names) = split_word(words);
    let session = parse_number(session)?;
    match names {
        None => Some(Form::Resume { session }),
        Some(names) => parse_connect(session, names),
    }
}

/// The same, from USER on.
#[tactic(auto, unfolding(crate::specs::Forms::connect_form))]
fn parse_connect(session: Number, names: &[u8]) -> Option<Form<'_>>
    ensures { result ≡ connect_form session names.now }
{
    let (user, host) = split_word(names);
    let host = host?;
    if is_name(32, user) && is_name(60, host) {
        Some(Form::Connect {
            session,
            user: AsciiText::new(user),
            host: AsciiText::new(host),
        })
    } else {
        None
    }
}

/// `spend N`, from N on.
#[tactic(auto, unfolding(crate::specs::Forms::spend_form))]
pub fn parse_spend<'a>(word: &[u8]) -> Option<Form<'a>>
    ensures { result ≡ spend_form word.now }
{
    let time = parse_number(word)?;
    Some(Form::Spend { time })
}

/// `end L E W A S X`, from L on.
#[tactic(auto, unfolding(crate::specs::Forms::end_form))]
pub fn parse_end<'a>(words: &[u8]) -> Option<Form<'a>>
    ensures { result ≡ end_form words.now }
{
    let numbers = parse_numbers(words)?;
    Some(Form::EndStatement { numbers })
}

/// `sql TEXT`, from TEXT on.
#[tactic(auto, unfolding(crate::specs::Forms::sql_form))]
pub fn parse_sql(text: &[u8]) -> Option<Form<'_>>
    ensures { result ≡ sql_form text.now }
{
    if is_word(text) {
        Some(Form::Sql {
            text: Text::new(text),
        })
    } else {
        None
    }
}

/// `repeat N`, from N on.
#[tactic(auto, unfolding(crate::specs::Forms::repeat_form))]
pub fn parse_repeat<'a>(word: &[u8]) -> Option<Form<'a>>
    ensures { result ≡ repeat_form word.now }
{
    let times = parse_number(word)?;
    Some(Form::Repeat { times })
}
