//! The forms that a line can have, and what a line of each form says.

ghost use Rattle.std.specs.Prelude.{◌≡◌, IfOk, true};
ghost use Rattle.std.specs.List.{list_all};
ghost use Rattle.pfs_script.specs.ScriptWords.{is_script_byte};
ghost use Rattle.pfs_script.specs.Forms.{is_silent, words_form, form, bare_form, long_form, block_form, HasItsKind};

use crate::block_lines::{parse_end, parse_repeat, parse_session, parse_spend, parse_sql};
use crate::blocks::Access;
use crate::heading_lines::{parse_class, parse_consumer, parse_instrument, parse_limit};
use crate::reasons::Reason;
use crate::starts::{parse_stage, parse_start};
use crate::texts::{AsciiText, Text};
use crate::words::{is_clean, is_text, split_word};
use pfs_classes::Kind;
use pfs_classes::laws::computed_kind;

/// A number of a line; None where it is over 2^64 - 1.
pub type Number = Option<u64>;

/// The numbers of an `end` that ends a statement, in the line's order.
#[derive(Clone, Copy, Debug, PartialEq, Eq)]
pub struct Numbers {
    /// The lock time, in picoseconds.
    pub lock: Number,
    pub errors: Number,
    pub warnings: Number,
    /// Rows affected, sent and examined.
    pub affected: Number,
    pub sent: Number,
    pub examined: Number,
}

/// What a line says by its bytes alone. Whether it may stand where it does is another question.
#[derive(Debug, PartialEq, Eq, Drop)]
pub enum Form<'a> {
    /// An empty line, or a comment.
    Silent,
    /// `limit NAME N`; the name may be any word.
    Limit {
        name: Text<'a>,
        value: Number,
    },
    /// `class NAME YES|NO YES|NO`; the name is a class name of the kind.
    Class {
        name: Text<'a>,
        kind: Kind,
        enabled: bool,
        timed: bool,
    },
    /// `consumer NAME YES|NO`; the name may be any word.
    Consumer {
        name: Text<'a>,
        on: bool,
    },
    /// `instrument PATTERN YES|NO YES|NO`; the pattern may be any word.
    Instrument {
        pattern: Text<'a>,
        enabled: bool,
        timed: bool,
    },
    /// `phase`.
    Phase,
    /// `session K USER HOST`; user and host keep the rules of their names.
    Connect {
        session: Number,
        user: AsciiText<'a>,
        host: AsciiText<'a>,
    },
    /// `session K`.
    Resume {
        session: Number,
    },
    /// `start CLASS`, of kind mutex, rwlock, cond, file or socket.
    Wait {
        class: Text<'a>,
    },
    /// `start CLASS SCHEMA.NAME`, of kind wait/io/table or wait/lock/table.
    TableWait {
        class: Text<'a>,
        schema: Text<'a>,
        name: Text<'a>,
    },
    /// `start CLASS TEXT`, of kind statement; the text is empty where the line ends behind the class.
    Statement {
        class: Text<'a>,
        text: AsciiText<'a>,
    },
    /// `start transaction rw` or `start transaction ro`.
    Transaction {
        access: Access,
    },
    /// `stage NAME`, of kind stage.
    Stage {
        class: Text<'a>,
    },
    /// `stage -`.
    StageEnd,
    /// `spend N`: N picoseconds.
    Spend {
        time: Number,
    },
    /// `end`.
    End,
    /// `end L E W A S X`.
    EndStatement {
        numbers: Numbers,
    },
    /// `sql TEXT`; the text isn't empty.
    Sql {
        text: Text<'a>,
    },
    /// `quit`.
    Quit,
    /// `repeat N`.
    Repeat {
        times: Number,
    },
    /// `done`.
    Done,
}

/// What a line says, by its bytes without the line feed. BadByte comes where a byte is none of a
/// script's, and BadForm where the line has none of the forms or a name breaks its rule.
#[tactic(auto, unfolding(crate::specs::Forms::form))]
pub fn parse_line(bytes: &[u8]) -> Result<Form<'_>, Reason>
    ensures form { result ≡ form bytes.now }
    ensures kind { IfOk result HasItsKind }
{
    computed_kind();
    if !is_clean(bytes) {
        return Err(Reason::BadByte);
    }
    if is_silent(bytes) {
        return Ok(Form::Silent);
    }
    match parse_words(bytes) {
        Some(form) => Ok(form),
        None => Err(Reason::BadForm),
    }
}

#[tactic(auto, unfolding(crate::specs::Forms::is_silent))]
fn is_silent(bytes: &[u8]) -> bool
    ensures { result ≡ is_silent bytes.now }
{
    bytes.len() == 0 || bytes[0] == b'#'
}

#[tactic(auto, unfolding(crate::specs::Forms::words_form))]
fn parse_words(bytes: &[u8]) -> Option<Form<'_>>
    requires { list_all is_script_byte bytes.now ≡ true }
    ensures { result ≡ words_form bytes.now }
{
    let (word, rest) = split_word(bytes);
    match rest {
        None => parse_bare(word),
        Some(rest) => parse_long(word, rest),
    }
}

/// A line of one word.
#[tactic(auto, unfolding(crate::specs::Forms::bare_form))]
fn parse_bare<'a>(word: &[u8]) -> Option<Form<'a>>
    ensures { result ≡ bare_form word.now }
{
    if is_text(word, b"phase") {
        Some(Form::Phase)
    } else if is_text(word, b"end") {
        Some(Form::End)
    } else if is_text(word, b"quit") {
        Some(Form::Quit)
    } else if is_text(word, b"done") {
        Some(Form::Done)
    } else {
        None
    }
}

/// A line of a word and what stands behind it.
#[tactic(auto, unfolding(crate::specs::Forms::long_form))]
fn parse_long<'a>(word: &[u8], rest: &'a [u8]) -> Option<Form<'a>>
    requires { list_all is_script_byte rest.now ≡ true }
    ensures { result ≡ long_form word.now rest.now }
{
    if is_text(word, b"limit") {
        parse_limit(rest)
    } else if is_text(word, b"class") {
        parse_class(rest)
    } else if is_text(word, b"consumer") {
        parse_consumer(rest)
    } else if is_text(word, b"instrument") {
        parse_instrument(rest)
    } else if is_text(word, b"session") {
        parse_session(rest)
    } else if is_text(word, b"start") {
        parse_start(rest)
    } else {
        parse_block(word, rest)
    }
}

/// Such a line that stands in a block alone, but for `start`.
#[tactic(auto, unfolding(crate::specs::Forms::block_form))]
fn parse_block<'a>(word: &[u8], rest: &'a [u8]) -> Option<Form<'a>>
    ensures { result ≡ block_form word.now rest.now }
{
    if is_text(word, b"stage") {
        parse_stage(rest)
    } else if is_text(word, b"spend") {
        parse_spend(rest)
    } else if is_text(word, b"end") {
        parse_end(rest)
    } else if is_text(word, b"sql") {
        parse_sql(rest)
    } else if is_text(word, b"repeat") {
        parse_repeat(rest)
    } else {
        None
    }
}
