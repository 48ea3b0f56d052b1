//! Copies of a row that a statement adds: an administration takes it for its own, and a repeat may add it again.

ghost use Rattle.std.specs.Prelude.{◌≡◌, IfOk};

use crate::NoMemory;
use pfs_exec::{Insert, NewRow};
use pfs_matching::{ActorRow, ObjectRow};

fn copy_actor(row: &ActorRow) -> Result<ActorRow, NoMemory>
    ensures { IfOk result (λ copy. copy ≡ row.now) }
{
    let host = row.host.clone()?;
    let user = row.user.clone()?;
    let role = row.role.clone()?;
    Ok(ActorRow {
        host,
        user,
        role,
        enabled: row.enabled,
        history: row.history,
    })
}

fn copy_object(row: &ObjectRow) -> Result<ObjectRow, NoMemory>
    ensures { IfOk result (λ copy. copy ≡ row.now) }
{
    let schema = row.schema.clone()?;
    let name = row.name.clone()?;
    Ok(ObjectRow {
        kind: row.kind,
        schema,
        name,
        enabled: row.enabled,
        timed: row.timed,
    })
}

/// A copy of a statement that adds a row.
pub(crate) fn copy_insert(insert: &Insert) -> Result<Insert, NoMemory>
    ensures { IfOk result (λ copy. copy ≡ insert.now) }
{
    let row = match &insert.row {
        NewRow::Actor(row) => NewRow::Actor(copy_actor(row)?),
        NewRow::Object(row) => NewRow::Object(copy_object(row)?),
    };
    Ok(Insert {
        table: insert.table,
        row,
    })
}
