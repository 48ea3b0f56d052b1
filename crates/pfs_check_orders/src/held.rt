//! Copies of the rows of `setup_actors` and `setup_objects`, a value for each column.

ghost use Rattle.std.specs.Prelude.{◌≡◌, IfOk, map};
ghost use Rattle.pfs_setups.specs.HeldRows.{actor_values, object_values};
ghost use Rattle.pfs_tables.specs.PlaceTables.{flag_value};
ghost use Rattle.pfs_text.specs.declared.values.RowValue.TheVariants as value;
ghost use Rattle.pfs_check_orders.specs.HeldCopies.{AreHeld};

use crate::NoMemory;
use pfs_admin::Admin;
use pfs_matching::{ActorRow, Actors, ObjectRow, Objects};
use pfs_text::{Row, RowValue, Rowset, Text};
use std::alloc::Global;

/// The rows of the two setup tables as they stood at one time, in the order of their keys.
#[derive(Drop)]
pub struct HeldTables {
    pub actors: Rowset,
    pub objects: Rowset,
}

fn text_value(alloc: Global, bytes: &[u8]) -> Result<RowValue, NoMemory>
    ensures { IfOk result (λ v. v ≡ value.Text bytes.now) }
{
    let text = Text::from_slice(alloc, bytes)?;
    Ok(RowValue::Text(text))
}

fn flag_value(alloc: Global, flag: bool) -> Result<RowValue, NoMemory>
    ensures { IfOk result (λ v. v ≡ flag_value flag) }
{
    if flag {
        text_value(alloc, b"YES")
    } else {
        text_value(alloc, b"NO")
    }
}

fn actor_row(alloc: Global, actor: &ActorRow) -> Result<Row, NoMemory>
    ensures { IfOk result (λ row. row ≡ actor_values actor.now) }
{
    let mut row = Row::new(Vec::new(alloc));
    row.push(text_value(alloc, actor.host.as_bytes())?)?;
    row.push(text_value(alloc, actor.user.as_bytes())?)?;
    row.push(text_value(alloc, actor.role.as_bytes())?)?;
    row.push(flag_value(alloc, actor.enabled)?)?;
    row.push(flag_value(alloc, actor.history)?)?;
    Ok(row)
}

fn object_row(alloc: Global, object: &ObjectRow) -> Result<Row, NoMemory>
    ensures { IfOk result (λ row. row ≡ object_values object.now) }
{
    let mut row = Row::new(Vec::new(alloc));
    row.push(text_value(alloc, object.kind.name().as_bytes())?)?;
    row.push(text_value(alloc, object.schema.as_bytes())?)?;
    row.push(text_value(alloc, object.name.as_bytes())?)?;
    row.push(flag_value(alloc, object.enabled)?)?;
    row.push(flag_value(alloc, object.timed)?)?;
    Ok(row)
}

fn actor_rows(alloc: Global, actors: &Actors) -> Result<Rowset, NoMemory>
    ensures { IfOk result (λ rows. rows ≡ map actor_values actors.now) }
{
    let mut rows = Rowset::new(Vec::new(alloc));
    for place in 0..actors.count() {
        let row = actor_row(alloc, actors.row(place))?;
        rows.push(row)?;
    }
    Ok(rows)
}

fn object_rows(alloc: Global, objects: &Objects) -> Result<Rowset, NoMemory>
    ensures { IfOk result (λ rows. rows ≡ map object_values objects.now) }
{
    let mut rows = Rowset::new(Vec::new(alloc));
    for place in 0..objects.count() {
        let row = object_row(alloc, objects.row(place))?;
        rows.push(row)?;
    }
    Ok(rows)
}

/// A copy of the rows of both tables as they stand.
pub(crate) fn copy_tables(alloc: Global, admin: &Admin) -> Result<HeldTables, NoMemory>
    ensures { IfOk result (AreHeld admin.now) }
{
    Ok(HeldTables {
        actors: actor_rows(alloc, admin.actors())?,
        objects: object_rows(alloc, admin.objects())?,
    })
}
