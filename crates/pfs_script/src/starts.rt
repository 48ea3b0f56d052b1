//! The lines that start an event: waits, statements, transactions and stages.

ghost use Rattle.std.specs.Prelude.{◌≡◌, true};
ghost use Rattle.std.specs.List.{list_all};
ghost use Rattle.pfs_script.specs.ScriptWords.{is_script_byte};
ghost use Rattle.pfs_script.specs.Forms.{start_form, start_class, start_class_with, start_of_kind, start_of_kind_with, transaction_form, table_wait_form, stage_form};

use crate::blocks::Access;
use crate::forms::Form;
use crate::texts::{AsciiText, Text};
use crate::words::{is_table_name, is_text, split_table, split_word};
use pfs_classes::Kind;

/// `start CLASS`, from CLASS on, with what stands behind it.
#[tactic(auto, unfolding(crate::specs::Forms::start_form))]
pub fn parse_start(words: &[u8]) -> Option<Form<'_>>
    requires { list_all is_script_byte words.now ≡ true }
    ensures { result ≡ start_form words.now }
{
    let (class, more) = split_word(words);
    match more {
        None => parse_start_class(class),
        Some(more) => parse_start_class_with(class, more),
    }
}

/// `start CLASS` with nothing behind it.
#[tactic(auto, unfolding(crate::specs::Forms::start_class))]
fn parse_start_class(class: &[u8]) -> Option<Form<'_>>
    ensures { result ≡ start_class class.now }
{
    let kind = Kind::of_name(class)?;
    start_of_kind(class, kind)
}

fn start_of_kind(class: &[u8], kind: Kind) -> Option<Form<'_>>
    ensures { result ≡ start_of_kind class.now kind }
{
    match kind {
        Kind::Mutex | Kind::Rwlock | Kind::Cond | Kind::File | Kind::Socket => Some(Form::Wait {
            class: Text::new(class),
        }),
        Kind::Statement => Some(Form::Statement {
            class: Text::new(class),
            text: AsciiText::new(b""),
        }),
        Kind::TableIo | Kind::TableLock | Kind::Stage | Kind::Transaction => None,
    }
}

/// `start CLASS` with more behind it.
#[tactic(auto, unfolding(crate::specs::Forms::start_class_with))]
fn parse_start_class_with<'a>(class: &'a [u8], more: &'a [u8]) -> Option<Form<'a>>
    requires { list_all is_script_byte more.now ≡ true }
    ensures { result ≡ start_class_with class.now more.now }
{
    if is_text(class, b"transaction") {
        return parse_transaction(more);
    }
    let kind = Kind::of_name(class)?;
    start_of_kind_with(class, more, kind)
}

fn start_of_kind_with<'a>(class: &'a [u8], more: &'a [u8], kind: Kind) -> Option<Form<'a>>
    requires { list_all is_script_byte more.now ≡ true }
    ensures { result ≡ start_of_kind_with class.now more.now kind }
{
    match kind {
        Kind::TableIo | Kind::TableLock => parse_table_wait(class, more),
        Kind::Statement => Some(Form::Statement {
            class: Text::new(class),
            text: AsciiText::new(more),
        }),
        Kind::Mutex
        | Kind::Rwlock
        | Kind::Cond
        | Kind::File
        | Kind::Socket
        | Kind::Stage
        | Kind::Transaction => None,
    }
}

/// What the transaction may do.
#[tactic(auto, unfolding(crate::specs::Forms::transaction_form))]
fn parse_transaction<'a>(access: &[u8]) -> Option<Form<'a>>
    ensures { result ≡ transaction_form access.now }
{
    if is_text(access, b"rw") {
        Some(Form::Transaction {
            access: Access::ReadWrite,
        })
    } else if is_text(access, b"ro") {
        Some(Form::Transaction {
            access: Access::ReadOnly,
        })
    } else {
        None
    }
}

/// `SCHEMA.NAME` behind a class of table waits.
#[tactic(auto, unfolding(crate::specs::Forms::table_wait_form))]
fn parse_table_wait<'a>(class: &'a [u8], table: &'a [u8]) -> Option<Form<'a>>
    ensures { result ≡ table_wait_form class.now table.now }
{
    let (schema, name) = split_table(table);
    let name = name?;
    if is_table_name(schema) && is_table_name(name) {
        Some(Form::TableWait {
            class: Text::new(class),
            schema: Text::new(schema),
            name: Text::new(name),
        })
    } else {
        None
    }
}

/// `stage NAME` or `stage -`, from NAME on.
#[tactic(auto, unfolding(crate::specs::Forms::stage_form))]
pub fn parse_stage(word: &[u8]) -> Option<Form<'_>>
    ensures { result ≡ stage_form word.now }
{
    if is_text(word, b"-") {
        return Some(Form::StageEnd);
    }
    match Kind::of_name(word) {
        Some(Kind::Stage) => Some(Form::Stage {
            class: Text::new(word),
        }),
        _ => None,
    }
}
