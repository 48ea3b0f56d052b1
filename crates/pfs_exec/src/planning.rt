//! From a command to what is to be done.
ghost use Rattle.std.specs.Prelude.{◌≡◌, IfOk, MatchOption};
ghost use Rattle.pfs_catalogue.specs.LetterCases.{IsTableName};
ghost use Rattle.pfs_exec.specs.Plans.{IsPlanned, IsPlannedOn, IsUnknownTable, plan_of, table_text};

use crate::building::{insert_of, orders_of, places_of, tests_of, update_of};
use crate::checking::fault_of;
use crate::{Change, Delete, NoMemory, Plan, Select};
use pfs_catalogue::find_table;
use pfs_rows::Table;
use pfs_sql::{Command, SelectCommand, SqlError, SqlFault};
use std::alloc::Global;

/// The plan of a command, with its names resolved. Refused with the first of these that holds: no table has the name
/// (`NoSuchTable`); the table doesn't allow the command (`CommandDenied`); a named column isn't the table's
/// (`UnknownColumn`); a number is compared with a text column or a text with a number column, or LIKE names a number
/// column (`Parse`); SET names a column that may not be changed, a flag isn't YES or NO, or an OBJECT_TYPE isn't one
/// of the five (`WrongUsage`). A missing column of an INSERT is `%`, `TABLE` or `YES`. The cases are our own, the
/// numbers MySQL's. There is no other error but `NoMemory`.
pub fn plan(alloc: Global, command: Command) -> Result<Plan, SqlFault>
    ensures { IsPlanned command result }
{
    match table_of(&command) {
        Some(table) => plan_on(alloc, table, command),
        None => Err(SqlFault::Error(SqlError::NoSuchTable)),
    }
}

fn plan_on(alloc: Global, table: Table, command: Command) -> Result<Plan, SqlFault>
    ensures { IsPlannedOn table command result }
{
    if let Some(error) = fault_of(table, &command) {
        return Err(SqlFault::Error(error));
    }
    match planned(alloc, table, command) {
        Ok(plan) => Ok(plan),
        Err(_) => Err(SqlFault::NoMemory),
    }
}

fn table_of(command: &Command) -> Option<Table>
    ensures { MatchOption result (IsUnknownTable command.now) (λ table. IsTableName table (table_text command.now)) }
{
    find_table(table_named(command))
}

fn table_named(command: &Command) -> &[u8]
    ensures { result.now ≡ table_text command.now }
{
    match command {
        Command::Select(select) => select.table.as_bytes(),
        Command::Update(update) => update.table.as_bytes(),
        Command::Insert(insert) => insert.table.as_bytes(),
        Command::Delete(delete) => delete.table.as_bytes(),
        Command::Truncate(truncate) => truncate.table.as_bytes(),
    }
}

// The plan of a command that isn't refused.
fn planned(alloc: Global, table: Table, command: Command) -> Result<Plan, NoMemory>
    ensures { IfOk result (λ plan. plan ≡ plan_of table command) }
{
    match command {
        Command::Select(select) => {
            let query = query_of(alloc, table, select)?;
            Ok(Plan::Select(query))
        }
        Command::Update(update) => {
            let update = update_of(alloc, table, update)?;
            Ok(Plan::Change(Change::Update(update)))
        }
        Command::Insert(insert) => {
            let insert = insert_of(alloc, table, &insert)?;
            Ok(Plan::Change(Change::Insert(insert)))
        }
        Command::Delete(delete) => {
            let tests = tests_of(alloc, table, delete.tests)?;
            Ok(Plan::Change(Change::Delete(Delete { table, tests })))
        }
        Command::Truncate(_) => Ok(Plan::Change(Change::Truncate(table))),
    }
}

fn query_of(alloc: Global, table: Table, select: SelectCommand) -> Result<Select, NoMemory>
    ensures { IfOk result (λ query. Plan.Select query ≡ plan_of table (Command.Select select)) }
{
    let columns = places_of(alloc, table, &select.columns)?;
    let tests = tests_of(alloc, table, select.tests)?;
    let order = orders_of(alloc, table, &select.order)?;
    Ok(Select {
        table,
        columns,
        tests,
        order,
        limit: select.limit,
    })
}
