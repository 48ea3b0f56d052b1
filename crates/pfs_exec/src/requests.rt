//! From a text of SQL to what it asks for.

ghost use Rattle.std.specs.Prelude.{◌≡◌, IfOk};
ghost use Rattle.pfs_exec.specs.Requests.{asks_change as spec_asks_change, asks_rows as spec_asks_rows, refused as spec_refused, request_of, truncating};

use crate::{Change, Delete, Insert, NoMemory, Plan, Select, Update, plan};
use pfs_rows::{Table, Truncation};
use pfs_sql::{SqlError, SqlFault, parse};
use std::alloc::{AllocError, Global};

/// What a text of SQL asks for.
#[derive(Debug, Drop)]
pub enum Request {
    /// It is refused with the number of this error, and is no action.
    Refused(u64),
    /// A SELECT whose rows are read of the store; no action.
    Query(Select),
    /// A SELECT on `setup_actors` or `setup_objects`, an action.
    Show(Select),
    /// A TRUNCATE, an action.
    Truncate(Truncation),
    /// An UPDATE of rows of a setup table or of `threads`, an action.
    Update(Update),
    /// An INSERT of a row into `setup_actors` or `setup_objects`, an action.
    Insert(Insert),
    /// A DELETE of rows of `setup_actors` or `setup_objects`, an action.
    Delete(Delete),
}

/// What a text asks for: it is read, its table is found, and it is planned there. Refused with the first reason that
/// holds, by MySQL's numbers: 1064, 1146, 1142, 1054, 1064 and 1683 in this order, which is our own. Err is `NoMemory`
/// alone.
pub fn request_of(alloc: Global, text: &[u8]) -> Result<Request, NoMemory>
    ensures { IfOk result (λ request. request ≡ request_of text.now) }
{
    pfs_catalogue::laws::one_table();
    let command = match parse(alloc, text) {
        Ok(command) => command,
        Err(SqlFault::Error(error)) => return Ok(refused(error)),
        Err(SqlFault::NoMemory) => return Err(AllocError),
    };
    match plan(alloc, command) {
        Ok(Plan::Select(select)) => Ok(asks_rows(select)),
        Ok(Plan::Change(change)) => Ok(asks_change(change)),
        Err(SqlFault::Error(error)) => Ok(refused(error)),
        Err(SqlFault::NoMemory) => Err(AllocError),
    }
}

fn refused(error: SqlError) -> Request
    ensures { result ≡ spec_refused error }
{
    Request::Refused(u64::from(error.number()))
}

// The rows of the two rule tables are the administration's own.
fn asks_rows(select: Select) -> Request
    ensures { result ≡ spec_asks_rows select.table select }
{
    match select.table {
        Table::SetupActors | Table::SetupObjects => Request::Show(select),
        _ => Request::Query(select),
    }
}

fn asks_change(change: Change) -> Request
    ensures { result ≡ spec_asks_change change }
{
    match change {
        Change::Truncate(table) => truncating(Truncation::on(table)),
        Change::Update(update) => Request::Update(update),
        Change::Insert(insert) => Request::Insert(insert),
        Change::Delete(delete) => Request::Delete(delete),
    }
}

fn truncating(what: Option<Truncation>) -> Request
    ensures { result ≡ truncating what }
{
    match what {
        Some(what) => Request::Truncate(what),
        None => refused(SqlError::Parse),
    }
}
