//! Whether a command names each column once, and has a value for each.
ghost use Rattle.std.specs.Prelude.{◌≡◌, IfOk, map};
ghost use Rattle.std.specs.Char.{to_ascii_lowercase};
ghost use Rattle.pfs_sql.specs.Grammar as grammar;

use crate::NoMemory;
use crate::command::{Assignment, Command, InsertCommand};
use pfs_text::Text;
use std::alloc::Global;
use std::collections::BTreeSet;

// The text in lower case.
fn lowered(alloc: Global, text: &[u8]) -> Result<Text, NoMemory>
    ensures { IfOk result (λ low. low ≡ map to_ascii_lowercase text.now) }
{
    let bytes: Vec<u8> = text
        .iter()
        .map(|byte| byte.to_ascii_lowercase())
        .collect(alloc)?;
    Ok(Text::new(bytes))
}

// No name stands there twice, in any case.
fn are_apart(alloc: Global, names: &[Text]) -> Result<bool, NoMemory>
    ensures { IfOk result (λ apart. apart ≡ grammar.are_apart names.now) }
{
    let mut seen = BTreeSet::new(alloc);
    'names: for name in names {
        let low = lowered(alloc, name.as_bytes())?;
        let added = seen.insert(low)?;
        if !added {
            return Ok(false);
        }
    }
    Ok(true)
}

// The columns of the assignments.
fn columns_of(alloc: Global, sets: &[Assignment]) -> Result<Vec<Text>, NoMemory>
    ensures { IfOk result (λ columns. columns.items ≡ map (λ a. a.column) sets.now) }
{
    let mut columns = Vec::new(alloc);
    'sets: for set in sets {
        columns.push(set.column.clone()?)?;
    }
    Ok(columns)
}

// INSERT names no column twice and has a value for each, or all five.
fn has_values(alloc: Global, insert: &InsertCommand) -> Result<bool, NoMemory>
    ensures { IfOk result (λ proper. proper ≡ grammar.has_values insert.now) }
{
    let values = insert.values.as_slice();
    match &insert.columns {
        None => Ok(values.len() == ALL_COLUMNS),
        Some(columns) => {
            let columns = columns.as_slice();
            let apart = are_apart(alloc, columns)?;
            Ok(apart && columns.len() == values.len())
        }
    }
}

/// How many columns the tables have that take INSERT.
const ALL_COLUMNS: usize = 5;

/// SET and INSERT name no column twice, and INSERT has a value for each column.
pub(crate) fn is_proper(alloc: Global, command: &Command) -> Result<bool, NoMemory>
    ensures { IfOk result (λ proper. proper ≡ grammar.is_proper command.now) }
{
    match command {
        Command::Update(update) => {
            let columns = columns_of(alloc, update.sets.as_slice())?;
            are_apart(alloc, &columns)
        }
        Command::Insert(insert) => has_values(alloc, insert),
        _ => Ok(true),
    }
}
