//! The lines before the first phase: limits, classes, consumers and instruments.

ghost use Rattle.std.specs.Prelude.{◌≡◌};
ghost use Rattle.pfs_script.specs.Forms.{limit_form, class_kind_of, class_form, consumer_form, instrument_form};

use crate::forms::Form;
use crate::numerals::parse_number;
use crate::texts::Text;
use crate::words::{is_text, is_word, parse_switch, parse_switches, split_word};
use pfs_classes::Kind;

/// `limit NAME N`, from NAME on.
#[tactic(auto, unfolding(crate::specs::Forms::limit_form))]
pub fn parse_limit(words: &[u8]) -> Option<Form<'_>>
    ensures { result ≡ limit_form words.now }
{
    let (name, value) = split_word(words);
    let value = parse_number(value?)?;
    if is_word(name) {
        Some(Form::Limit {
            name: Text::new(name),
            value,
        })
    } else {
        None
    }
}

/// `class NAME YES|NO YES|NO`, from NAME on.
#[tactic(auto, unfolding(crate::specs::Forms::class_form))]
pub fn parse_class(words: &[u8]) -> Option<Form<'_>>
    ensures { result ≡ class_form words.now }
{
    let (name, switches) = split_word(words);
    let switches = parse_switches(switches?)?;
    let kind = class_kind(name)?;
    Some(Form::Class {
        name: Text::new(name),
        kind,
        enabled: switches.enabled,
        timed: switches.timed,
    })
}

/// The kind of a class of that name; None for a kind's bare name, `transaction` too.
#[tactic(auto, unfolding(crate::specs::Forms::class_kind_of))]
fn class_kind(name: &[u8]) -> Option<Kind>
    ensures { result ≡ class_kind_of name.now }
{
    if is_text(name, b"transaction") {
        None
    } else {
        Kind::of_name(name)
    }
}

/// `consumer NAME YES|NO`, from NAME on.
#[tactic(auto, unfolding(crate::specs::Forms::consumer_form))]
pub fn parse_consumer(words: &[u8]) -> Option<Form<'_>>
    ensures { result ≡ consumer_form words.now }
{
    let (name, on) = split_word(words);
    let on = parse_switch(on?)?;
    if is_word(name) {
        Some(Form::Consumer {
            name: Text::new(name),
            on,
        })
    } else {
        None
    }
}

/// `instrument PATTERN YES|NO YES|NO`, from PATTERN on.
#[tactic(auto, unfolding(crate::specs::Forms::instrument_form))]
pub fn parse_instrument(words: &[u8]) -> Option<Form<'_>>
    ensures { result ≡ instrument_form words.now }
{
    let (pattern, switches) = split_word(words);
    let switches = parse_switches(switches?)?;
    if is_word(pattern) {
        Some(Form::Instrument {
            pattern: Text::new(pattern),
            enabled: switches.enabled,
            timed: switches.timed,
        })
    } else {
        None
    }
}
