//! An INSERT.

ghost use Rattle.std.specs.Prelude.{◌≡◌, ◌==◌, if◌then◌else◌, Ok, Err, length};
ghost use Rattle.pfs_matching.specs.ActorRules.{actor_key};
ghost use Rattle.pfs_matching.specs.ObjectRules.{object_key};
ghost use Rattle.pfs_setups.specs.Inserts.{actors_inserted, added, answer_of, answer_on, error_number, insert_answer, objects_inserted};

use pfs_exec::{Insert, NewRow};
use pfs_matching::{ActorRow, Actors, MatchFault, ObjectRow, Objects};

/// Adds a row to the table that it is of, and answers 1; or answers the number of an error, 1062 where a row with its
/// key is there, else 1114 where there are 100 rows, and changes nothing. The numbers are MySQL's, and the limit is our
/// own.
#[tactic(auto, unfolding(crate::specs::Inserts::actors_inserted, crate::specs::Inserts::objects_inserted))]
pub fn insert(actors: &mut Actors, objects: &mut Objects, insert: Insert) -> Result<u64, u16>
    ensures answer { result ≡ insert_answer actors.old objects.old insert.row }
    ensures actors { actors.new ≡ actors_inserted actors.old insert.row }
    ensures objects { objects.new ≡ objects_inserted objects.old insert.row }
{
    match insert.row {
        NewRow::Actor(row) => insert_actor(actors, row),
        NewRow::Object(row) => insert_object(objects, row),
    }
}

fn insert_actor(actors: &mut Actors, row: ActorRow) -> Result<u64, u16>
    ensures answer { result ≡ answer_on actor_key actors.old row }
    ensures rows { actors.new ≡ added actor_key actors.old row }
{
    answer_of(actors.insert(row))
}

fn insert_object(objects: &mut Objects, row: ObjectRow) -> Result<u64, u16>
    ensures answer { result ≡ answer_on object_key objects.old row }
    ensures rows { objects.new ≡ added object_key objects.old row }
{
    answer_of(objects.insert(row))
}

fn answer_of(inserted: Result<(), MatchFault>) -> Result<u64, u16>
    ensures { result ≡ answer_of inserted }
{
    match inserted {
        Ok(()) => Ok(1),
        Err(fault) => Err(number_of(fault)),
    }
}

fn number_of(fault: MatchFault) -> u16
    ensures { result ≡ error_number fault }
{
    match fault {
        MatchFault::Duplicate => 1062,
        MatchFault::Full => 1114,
    }
}
