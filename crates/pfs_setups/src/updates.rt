//! An UPDATE: which rows are met, and the flags of those that the administration holds.

ghost use Rattle.std.specs.Prelude.{◌≡◌, ◌≤◌, ◌+◌, ◌++◌, map, take, drop, count_by, length};
ghost use Rattle.std.specs.List.{slice_index_or};
ghost use Rattle.pfs_setups.specs.SetupRows.{actor_meets as spec_actor_meets, held_met, object_meets as spec_object_meets, rows_met};
ghost use Rattle.pfs_setups.specs.Updates.{actors_updated, objects_updated, updated_actor, updated_object};

use crate::RowNames;
use crate::meeting::{actor_meets, consumers_met, flags_at, object_meets, words_met};
use pfs_containers::Containers;
use pfs_exec::Update;
use pfs_matching::{Actors, FlagChange, Objects};
use pfs_rows::Table;
use pfs_text::Test;

/// Gives the flags that are named their new values in each row of `setup_actors` or `setup_objects` that is met, and
/// answers how many rows are met, of any of the five tables: by the flags of the 160 words as they stand before, which
/// [flags_behind](crate::flags_behind) changes.
#[tactic(auto, unfolding(crate::specs::SetupRows::rows_met))]
pub fn update(
    names: &RowNames,
    containers: &Containers,
    actors: &mut Actors,
    objects: &mut Objects,
    flags: &[u16],
    update: &Update,
) -> u64
    ensures answer { result ≡ rows_met names.now containers.now.now.places.threads actors.old objects.old flags.now
        update.now.table update.now.tests }
    ensures actors { actors.new ≡ actors_updated update.now.table update.now.tests update.now.change actors.old }
    ensures objects { objects.new ≡ objects_updated update.now.table update.now.tests update.now.change objects.old }
{
    let tests = update.tests.as_slice();
    match update.table {
        Table::SetupConsumers => consumers_met(tests, flags_at(flags, 0)),
        Table::SetupInstruments | Table::Threads => {
            words_met(names, containers, update.table, tests, flags)
        }
        table => update_held(actors, objects, table, tests, &update.change),
    }
}

#[tactic(auto, unfolding(crate::specs::SetupRows::held_met))]
fn update_held(
    actors: &mut Actors,
    objects: &mut Objects,
    table: Table,
    tests: &[Test],
    change: &FlagChange,
) -> u64
    ensures answer { result ≡ held_met table tests.now actors.old objects.old }
    ensures actors { actors.new ≡ actors_updated table tests.now change.now actors.old }
    ensures objects { objects.new ≡ objects_updated table tests.now change.now objects.old }
{
    match table {
        Table::SetupActors => update_actors(actors, tests, change),
        Table::SetupObjects => update_objects(objects, tests, change),
        _ => 0,
    }
}

fn update_actors(actors: &mut Actors, tests: &[Test], change: &FlagChange) -> u64
    ensures answer { result ≡ count_by (spec_actor_meets tests.now) actors.old }
    ensures rows { actors.new ≡ map (updated_actor tests.now change.now) actors.old }
{
    let mut met = 0;
    for place in 0..actors.count() {
        if actor_meets(tests, actors.row(place)) {
            actors.update(&[place], change);
            met += 1;
        }
    }
    met
}

fn update_objects(objects: &mut Objects, tests: &[Test], change: &FlagChange) -> u64
    ensures answer { result ≡ count_by (spec_object_meets tests.now) objects.old }
    ensures rows { objects.new ≡ map (updated_object tests.now change.now) objects.old }
{
    let mut met = 0;
    for place in 0..objects.count() {
        if object_meets(tests, objects.row(place)) {
            objects.update(&[place], change);
            met += 1;
        }
    }
    met
}
