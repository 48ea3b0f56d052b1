//! A DELETE.

ghost use Rattle.std.specs.Prelude.{◌≡◌, ◌≤◌, ◌+◌, ◌++◌, not, filter, take, drop, count_by, length};
ghost use Rattle.pfs_setups.specs.SetupRows.{actor_meets as spec_actor_meets, held_met, object_meets as spec_object_meets};
ghost use Rattle.pfs_setups.specs.Deletes.{actors_left, objects_left};

use crate::meeting::{actor_meets, object_meets};
use pfs_exec::Delete;
use pfs_matching::{Actors, Objects};
use pfs_rows::Table;
use pfs_text::Test;

/// Removes each row of `setup_actors` or `setup_objects` that is met, and answers how many there were.
#[tactic(auto, unfolding(crate::specs::SetupRows::held_met))]
pub fn delete(actors: &mut Actors, objects: &mut Objects, delete: &Delete) -> u64
    ensures answer { result ≡ held_met delete.now.table delete.now.tests actors.old objects.old }
    ensures actors { actors.new ≡ actors_left delete.now.table delete.now.tests actors.old }
    ensures objects { objects.new ≡ objects_left delete.now.table delete.now.tests objects.old }
{
    let tests = delete.tests.as_slice();
    match delete.table {
        Table::SetupActors => delete_actors(actors, tests),
        Table::SetupObjects => delete_objects(objects, tests),
        _ => 0,
    }
}

// From the last row to the first, so that the others keep their places.
fn delete_actors(actors: &mut Actors, tests: &[Test]) -> u64
    ensures answer { result ≡ count_by (spec_actor_meets tests.now) actors.old }
    ensures rows { actors.new ≡ filter (λ row. not (spec_actor_meets tests.now row)) actors.old }
{
    let mut met = 0;
    let mut place = actors.count();
    while place > 0 {
        place -= 1;
        if actor_meets(tests, actors.row(place)) {
            actors.delete(&[place]);
            met += 1;
        }
    }
    met
}

fn delete_objects(objects: &mut Objects, tests: &[Test]) -> u64
    ensures answer { result ≡ count_by (spec_object_meets tests.now) objects.old }
    ensures rows { objects.new ≡ filter (λ row. not (spec_object_meets tests.now row)) objects.old }
{
    let mut met = 0;
    let mut place = objects.count();
    while place > 0 {
        place -= 1;
        if object_meets(tests, objects.row(place)) {
            objects.delete(&[place]);
            met += 1;
        }
    }
    met
}
