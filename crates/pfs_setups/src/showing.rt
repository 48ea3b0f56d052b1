//! The answer of a SELECT over the rows that the administration holds.

ghost use Rattle.std.specs.Prelude.{IfOk};
ghost use Rattle.pfs_exec.specs.Selections.{IsAnswer};
ghost use Rattle.pfs_setups.specs.HeldRows.{IsHeld, held_rows};

use crate::NoMemory;
use crate::rows::{actor_rows, object_rows};
use pfs_exec::{Select, select};
use pfs_matching::{Actors, Objects};
use pfs_rows::Table;
use pfs_text::Rowset;
use std::alloc::Global;

/// The answer of a query on `setup_actors` or `setup_objects` over the rows as they stand. The board has no row of
/// these tables: they are shown inside an action, where they can't change. It is refused only where memory runs out.
pub fn show(
    alloc: Global,
    query: &Select,
    actors: &Actors,
    objects: &Objects,
) -> Result<Rowset, NoMemory>
    requires held { IsHeld query.now.table }
    ensures answer { IfOk result (IsAnswer query.now (held_rows query.now.table actors.now objects.now)) }
{
    let rows = match query.table {
        Table::SetupActors => actor_rows(alloc, actors)?,
        Table::SetupObjects => object_rows(alloc, objects)?,
        _ => unreachable!(),
    };
    select(alloc, query, &rows)
}
