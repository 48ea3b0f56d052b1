//! What a line says to the session of its block.

ghost use Rattle.std.specs.Prelude.{◌≡◌, IfOk, option_map, option_and_then};
ghost use Rattle.pfs_script.specs.declared.blocks.BlockLine.TheVariants as said;
ghost use Rattle.pfs_script.specs.Blocks.{Sense, statement_numbers, block_line};
ghost use Rattle.pfs_script.specs.Senses.{class_in, number_in, IsPlain};

use crate::blocks::{BlockLine, StatementNumbers};
use crate::forms::{Form, Numbers};
use pfs_classes::{ClassRef, NoMemory};
use pfs_text::Text;
use std::alloc::Global;

/// What the line says, where its class stands for this one, and its table or digest text has this number;
/// none where it says nothing.
pub fn block_line(
    alloc: Global,
    line: &Form,
    class: Option<ClassRef>,
    number: Option<usize>,
) -> Result<Option<BlockLine>, NoMemory>
    ensures { IfOk result (λ said. (sense : Sense) → class ≡ class_in sense.class line.now
        → number ≡ number_in sense.tables sense.digests line.now → said ≡ block_line sense line.now) }
{
    let said = match line {
        Form::Sql { text } => Some(BlockLine::Sql(Text::from_slice(alloc, text.bytes())?)),
        Form::Wait { .. } => class.map(BlockLine::Wait),
        Form::Stage { .. } => class.map(BlockLine::Stage),
        Form::Statement { .. } => statement(class, number),
        Form::TableWait { .. } => table_wait(class, number),
        line => plain_line(line),
    };
    Ok(said)
}

fn statement(class: Option<ClassRef>, place: Option<usize>) -> Option<BlockLine>
    ensures { result ≡ option_map (λ ref. said.Statement ref place) class }
{
    let class = class?;
    let digest = place.map(|place| place as u64);
    Some(BlockLine::Statement { class, digest })
}

fn table_wait(class: Option<ClassRef>, table: Option<usize>) -> Option<BlockLine>
    ensures { result ≡ option_and_then (λ ref. option_map (said.TableWait ref) table) class }
{
    let class = class?;
    let table = table? as u64;
    Some(BlockLine::TableWait { class, table })
}

// The same for a line that names nothing.
fn plain_line(line: &Form) -> Option<BlockLine>
    ensures { (sense : Sense) → IsPlain line.now → result ≡ block_line sense line.now }
{
    match line {
        Form::Transaction { access } => Some(BlockLine::Transaction(*access)),
        Form::StageEnd => Some(BlockLine::StageEnd),
        Form::Spend { time } => time.map(BlockLine::Spend),
        Form::End => Some(BlockLine::End),
        Form::EndStatement { numbers } => {
            Some(BlockLine::EndStatement(statement_numbers(numbers)))
        }
        Form::Quit => Some(BlockLine::Quit),
        Form::Repeat { times } => times.map(BlockLine::Repeat),
        Form::Done => Some(BlockLine::Done),
        _ => None,
    }
}

// The numbers of a statement's end; one that is over 2^64 - 1 stands on no line of a script.
fn statement_numbers(numbers: &Numbers) -> StatementNumbers
    ensures { result ≡ statement_numbers numbers.now }
{
    StatementNumbers {
        lock: numbers.lock.unwrap_or(0),
        errors: numbers.errors.unwrap_or(0),
        warnings: numbers.warnings.unwrap_or(0),
        affected: numbers.affected.unwrap_or(0),
        sent: numbers.sent.unwrap_or(0),
        examined: numbers.examined.unwrap_or(0),
    }
}
