//! What an administration line changes.

ghost use Rattle.std.specs.Prelude.{◌≡◌, IfOk};
ghost use Rattle.std.specs.Option.{option_to_list};
ghost use Rattle.pfs_runs.specs.ScriptLines.{changes_on, connect_changes, sql_changes};

use crate::NoMemory;
use pfs_admin::{Change, SetupStatement};
use pfs_exec::{Request, request_of};
use pfs_script::{BlockLine, Connect};
use std::alloc::Global;

/// A block's connect; None where it has none.
pub(crate) fn connect_change(connect: &Option<Connect>) -> Option<Change>
    ensures { option_to_list result ≡ connect_changes connect.now }
{
    match connect {
        Some(names) => Some(Change::Connect {
            user: names.user,
            host: names.host,
        }),
        None => None,
    }
}

// What a text asks the administration to change; None where it is no action.
fn sql_change(what: Request) -> Option<Change>
    ensures { option_to_list result ≡ sql_changes what }
{
    match what {
        Request::Truncate(what) => Some(Change::Truncate(what)),
        Request::Update(update) => Some(Change::Setup(SetupStatement::Update(update))),
        Request::Insert(insert) => Some(Change::Setup(SetupStatement::Insert(insert))),
        Request::Delete(delete) => Some(Change::Setup(SetupStatement::Delete(delete))),
        Request::Show(_) => Some(Change::Setup(SetupStatement::Show)),
        Request::Refused(_) | Request::Query(_) => None,
    }
}

/// What a line of a block changes; None where it is no action. A text of SQL is read here. Err is NoMemory alone.
pub(crate) fn change_of(alloc: Global, said: &BlockLine) -> Result<Option<Change>, NoMemory>
    ensures { IfOk result (λ change. option_to_list change ≡ changes_on said.now) }
{
    match said {
        BlockLine::Quit => Ok(Some(Change::Quit)),
        BlockLine::Sql(text) => {
            let what = request_of(alloc, text.as_bytes())?;
            Ok(sql_change(what))
        }
        _ => Ok(None),
    }
}
