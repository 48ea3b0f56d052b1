//! The five commands.
ghost use Rattle.std.specs.Prelude.{◌≡◌};
ghost use Rattle.pfs_sql.specs.TokenReaders as reading;

use crate::clauses::{assignments_at, limit_at, order_at};
use crate::command::{
    Command, DeleteCommand, InsertCommand, SelectCommand, TruncateCommand, UpdateCommand,
};
use crate::faults::SqlFault;
use crate::kinds::conditions_at;
use crate::lists::TextList;
use crate::names::{columns_at, names_at, table_at, texts_at};
use crate::token::Token;
use crate::words::{REFUSED, after_key, after_open, ends, expect_close, expect_key, expect_open};
use std::alloc::Global;

// Behind SELECT.
#[tactic(auto, unfolding(crate::specs::TokenReaders::select_at))]
fn select_at(alloc: Global, tokens: &[Token]) -> Result<(Command, &[Token]), SqlFault>
    ensures { reading.Gives (λ x. (x.0, x.1.now)) result (reading.select_at tokens.now) }
{
    let (columns, rest) = columns_at(alloc, tokens)?;
    let rest = expect_key(rest, b"from")?;
    let (table, rest) = table_at(alloc, rest)?;
    let (tests, rest) = conditions_at(alloc, rest)?;
    let (order, rest) = order_at(alloc, rest)?;
    let (limit, rest) = limit_at(rest)?;
    let select = SelectCommand {
        columns,
        table,
        tests,
        order,
        limit,
    };
    Ok((Command::Select(select), rest))
}

// Behind UPDATE.
#[tactic(auto, unfolding(crate::specs::TokenReaders::update_at))]
fn update_at(alloc: Global, tokens: &[Token]) -> Result<(Command, &[Token]), SqlFault>
    ensures { reading.Gives (λ x. (x.0, x.1.now)) result (reading.update_at tokens.now) }
{
    let (table, rest) = table_at(alloc, tokens)?;
    let rest = expect_key(rest, b"set")?;
    let (sets, rest) = assignments_at(alloc, rest)?;
    let (tests, rest) = conditions_at(alloc, rest)?;
    Ok((Command::Update(UpdateCommand { table, sets, tests }), rest))
}

// The columns of INSERT between `(` and `)`, or None where they are left out.
fn listed_at(alloc: Global, tokens: &[Token]) -> Result<(Option<TextList>, &[Token]), SqlFault>
    ensures { reading.Gives (λ x. (x.0, x.1.now)) result (reading.listed_at tokens.now) }
{
    match after_open(tokens) {
        Some(rest) => {
            let (names, rest) = names_at(alloc, rest)?;
            let rest = expect_close(rest)?;
            Ok((Some(names), rest))
        }
        None => Ok((None, tokens)),
    }
}

// The values of INSERT between `(` and `)`.
fn values_at(alloc: Global, tokens: &[Token]) -> Result<(TextList, &[Token]), SqlFault>
    ensures { reading.Gives (λ x. (x.0, x.1.now)) result (reading.values_at tokens.now) }
{
    let rest = expect_key(tokens, b"values")?;
    let rest = expect_open(rest)?;
    let (values, rest) = texts_at(alloc, rest)?;
    let rest = expect_close(rest)?;
    Ok((values, rest))
}

// Behind INSERT.
#[tactic(auto, unfolding(crate::specs::TokenReaders::insert_at))]
fn insert_at(alloc: Global, tokens: &[Token]) -> Result<(Command, &[Token]), SqlFault>
    ensures { reading.Gives (λ x. (x.0, x.1.now)) result (reading.insert_at tokens.now) }
{
    let rest = expect_key(tokens, b"into")?;
    let (table, rest) = table_at(alloc, rest)?;
    let (columns, rest) = listed_at(alloc, rest)?;
    let (values, rest) = values_at(alloc, rest)?;
    let insert = InsertCommand {
        table,
        columns,
        values,
    };
    Ok((Command::Insert(insert), rest))
}

// Behind DELETE.
#[tactic(auto, unfolding(crate::specs::TokenReaders::delete_at))]
fn delete_at(alloc: Global, tokens: &[Token]) -> Result<(Command, &[Token]), SqlFault>
    ensures { reading.Gives (λ x. (x.0, x.1.now)) result (reading.delete_at tokens.now) }
{
    let rest = expect_key(tokens, b"from")?;
    let (table, rest) = table_at(alloc, rest)?;
    let (tests, rest) = conditions_at(alloc, rest)?;
    Ok((Command::Delete(DeleteCommand { table, tests }), rest))
}

// Behind the word TABLE. Where the text ends behind that, it is the table's name and is not passed.
#[tactic(auto, unfolding(crate::specs::TokenReaders::past_table))]
fn past_table(tokens: &[Token]) -> &[Token]
    ensures { result.now ≡ reading.past_table tokens.now }
{
    match after_key(tokens, b"table") {
        Some(rest) => { if ends(rest) { tokens } else { rest } }
        None => tokens,
    }
}

// Behind TRUNCATE.
#[tactic(auto, unfolding(crate::specs::TokenReaders::truncate_at))]
fn truncate_at(alloc: Global, tokens: &[Token]) -> Result<(Command, &[Token]), SqlFault>
    ensures { reading.Gives (λ x. (x.0, x.1.now)) result (reading.truncate_at tokens.now) }
{
    let (table, rest) = table_at(alloc, past_table(tokens))?;
    Ok((Command::Truncate(TruncateCommand { table }), rest))
}

// DELETE or TRUNCATE.
#[tactic(auto, unfolding(crate::specs::TokenReaders::removal_at))]
fn removal_at(alloc: Global, tokens: &[Token]) -> Result<(Command, &[Token]), SqlFault>
    ensures { reading.Gives (λ x. (x.0, x.1.now)) result (reading.removal_at tokens.now) }
{
    match after_key(tokens, b"delete") {
        Some(rest) => delete_at(alloc, rest),
        None => {
            let rest = expect_key(tokens, b"truncate")?;
            truncate_at(alloc, rest)
        }
    }
}

// UPDATE, INSERT, DELETE or TRUNCATE.
#[tactic(auto, unfolding(crate::specs::TokenReaders::change_at))]
fn change_at(alloc: Global, tokens: &[Token]) -> Result<(Command, &[Token]), SqlFault>
    ensures { reading.Gives (λ x. (x.0, x.1.now)) result (reading.change_at tokens.now) }
{
    if let Some(rest) = after_key(tokens, b"update") {
        update_at(alloc, rest)
    } else if let Some(rest) = after_key(tokens, b"insert") {
        insert_at(alloc, rest)
    } else {
        removal_at(alloc, tokens)
    }
}

// A command, and what stands behind it.
#[tactic(auto, unfolding(crate::specs::TokenReaders::command_at))]
fn command_at(alloc: Global, tokens: &[Token]) -> Result<(Command, &[Token]), SqlFault>
    ensures { reading.Gives (λ x. (x.0, x.1.now)) result (reading.command_at tokens.now) }
{
    match after_key(tokens, b"select") {
        Some(rest) => select_at(alloc, rest),
        None => change_at(alloc, tokens),
    }
}

/// The command that the tokens are, all of them.
#[tactic(auto, unfolding(crate::specs::TokenReaders::whole))]
pub(crate) fn whole(alloc: Global, tokens: &[Token]) -> Result<Command, SqlFault>
    ensures { reading.Gives (λ command. command) result (reading.whole tokens.now) }
{
    let (command, rest) = command_at(alloc, tokens)?;
    if ends(rest) {
        Ok(command)
    } else {
        Err(REFUSED)
    }
}
