//! The fifth rule, asked of one entry after another.

ghost use Rattle.std.specs.Prelude.{◌≡◌, ◌++◌, ◌&&◌, List};
ghost use Rattle.pfs_check_faults.specs.EntryFaults.{SeesAt, thread_named};
ghost use Rattle.pfs_check_floors.specs.KnownFloors.{IsSeatOf, Tells};
ghost use Rattle.pfs_check_floors.specs.RowNames.{AreSightsOf};
ghost use Rattle.pfs_check_floors.specs.WordLoads.{loads_list};
ghost use Rattle.pfs_model.specs.Chains.{word_change};
ghost use Rattle.pfs_model.specs.EntryPlaces.{Placed};
ghost use Rattle.pfs_model.specs.SetupFlags.{loads_of};
ghost use Rattle.pfs_check_seen.specs.SeenRules.{slot_test};

use crate::NoMemory;
use pfs_check_floors::{Loads, Seat, Sights, is_there, loads_in};
use pfs_check_walk::{Spot, Track, Visit};
use pfs_event::Entry;
use pfs_model::Line;

/// Asks of each entry whether what it names is there, and isn't below what its session must have seen.
#[derive(Drop)]
pub(crate) struct Seeing {
    pub sights: Sights,
}

fn all_of(one: bool, two: bool, three: bool, four: bool) -> bool
    ensures { result ≡ (one && (two && (three && four))) }
{
    one && (two && (three && four))
}

// The version of its thread's switch word that a start or an end names.
fn thread_named(entry: &Entry) -> Option<u64>
    ensures { result ≡ thread_named entry.now }
{
    match *entry {
        Entry::Start { thread, .. } => thread,
        Entry::End { thread, .. } => thread,
        _ => None,
    }
}

// There are 160 switch words, and slot 158 has the last.
fn is_slot_there(slot: Option<u64>, thread: Option<u64>) -> bool
    ensures { result ≡ slot_test slot thread }
{
    match slot {
        Some(slot) => match thread {
            Some(_) => slot < 159,
            None => true,
        },
        None => true,
    }
}

fn sees(sights: &Sights, seat: Seat, slot: Option<u64>, loads: &Loads, entry: &Entry) -> bool
    ensures { (all : List Placed) → (earlier : List Placed) → (place : Placed) → AreSightsOf all earlier sights.now
        → IsSeatOf seat place → place.context.slot ≡ slot → place.entry ≡ entry.now
        → loads_list loads.now ≡ loads_of place ++ word_change place.entry
        → Tells (SeesAt all earlier place) result }
{
    let rows = sights.rows.names_well(seat, entry);
    let words = sights.words.loads_well(seat, loads);
    let there = is_there(entry);
    let placed = is_slot_there(slot, thread_named(entry));
    all_of(rows, words, there, placed)
}

impl Visit for Seeing {
    ghost use Rattle.pfs_check_faults.specs.EntryFaults.{SeesAt};
    ghost use Rattle.pfs_check_faults.specs.ReportCases.{entries_of};
    ghost use Rattle.pfs_check_floors.specs.RowNames.{AreSightsOf};

    ghost rule = { λ case found earlier place. SeesAt (entries_of found) earlier place };

    ghost knows = { λ visitor case found earlier. AreSightsOf (entries_of found) earlier visitor.sights };

    fn visit<T: Track>(
        &mut self,
        spot: Spot,
        line: &Line,
        track: &T,
        entry: &Entry,
    ) -> Result<bool, NoMemory> {
        let done = track.done();
        let slot = track.slot();
        let seat = Seat {
            phase: spot.phase,
            session: spot.session,
            done,
        };
        let loads = loads_in(line, slot, entry);
        let kept = sees(&self.sights, seat, slot, &loads, entry);
        if !kept {
            return Ok(false);
        }
        self.sights.note(spot.session, &loads, entry)?;
        Ok(true)
    }
}
