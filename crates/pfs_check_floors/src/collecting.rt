//! What the entries of a report give, collected before the rule is asked.

ghost use Rattle.std.specs.Prelude.{◌≡◌, ◌++◌, ◌∷◌, [], List, cond, map, nat_lt, IfOk, OnOk};
ghost use Rattle.std.specs.Option.{option_to_list};
ghost use Rattle.pfs_event.specs.declared.entry.Entry.{Entry};
ghost use Rattle.pfs_model.specs.declared.changes.Change.{Change};
ghost use Rattle.pfs_model.specs.Chains.{AreChained, row_change, word_change};
ghost use Rattle.pfs_model.specs.EntryPlaces.{Placed};
ghost use Rattle.pfs_check_floors.specs.CollectedGivens.{AreCollected, AreGivenBy};
ghost use Rattle.pfs_check_floors.specs.KeyedGivens.{given_at};
ghost use Rattle.pfs_check_floors.specs.declared.floors.SessionRow.{SessionRow};
ghost use Rattle.pfs_check_floors.specs.KnownFloors.{known_at};
ghost use Rattle.pfs_check_floors.specs.ReleasedRows.{AreFreed};
ghost use Rattle.pfs_check_floors.specs.RowNames.{AreSightsOf};

use crate::NoMemory;
use crate::changes::{release_in, row_change, word_change};
use crate::floors::{Floors, SessionRow};
use crate::releases::{Releases, note_freed};
use crate::rows::RowFloors;
use crate::sights::Sights;
use pfs_check_tops::{Given, tops_of};
use pfs_event::Entry;
use pfs_model::Change;
use std::alloc::Global;
use std::collections::BTreeMap;

/// The versions that rows got, or switch words.
#[derive(Debug, Drop)]
pub struct Givens {
    /// Each with its phase.
    pub by_phase: Vec<Given>,
    /// Those that actions gave, each with its action.
    pub by_action: Vec<Given>,
}

/// What entries give of rows and of switch words.
#[derive(Debug, Drop)]
pub struct Collected {
    pub rows: Givens,
    pub words: Givens,
    /// The versions at which actions released rows, each with its action.
    pub releases: Vec<Given>,
    /// The first phase in which a row was released at a version.
    pub freed: BTreeMap<Change, u64>,
}

/// Collects a change, if there is one, with a number. Err where memory runs out.
pub fn push_given(givens: &mut Vec<Given>, at: u64, change: Option<Change>) -> Result<(), NoMemory>
    ensures { OnOk result (givens.new.items ≡ givens.old.items ++ map (given_at at) (option_to_list change)) }
{
    match change {
        Some(change) => {
            givens.push(Given {
                row: change.row as u128,
                at,
                version: change.version,
            })?;
            Ok(())
        }
        None => Ok(()),
    }
}

// Of an action alone; 0 is none.
fn push_acted(givens: &mut Vec<Given>, action: u64, change: Option<Change>) -> Result<(), NoMemory>
    ensures { OnOk result (givens.new.items ≡ givens.old.items
        ++ cond (nat_lt 0 action) (map (given_at action) (option_to_list change)) []) }
{
    if action > 0 {
        return push_given(givens, action, change);
    }
    Ok(())
}

fn none_known(alloc: Global) -> BTreeMap<SessionRow, u64>
    ensures { (seat : SessionRow) → known_at result seat ≡ 0 }
{
    BTreeMap::new(alloc)
}

fn none_freed(alloc: Global) -> BTreeMap<Change, u64>
    ensures { AreFreed [] result }
{
    BTreeMap::new(alloc)
}

impl Givens {
    fn new(alloc: Global) -> Givens
        ensures { (given : Entry → List Change) → AreGivenBy given [] result }
    {
        Givens {
            by_phase: Vec::new(alloc),
            by_action: Vec::new(alloc),
        }
    }

    // One entry more, with the change that it is.
    fn note(&mut self, phase: u64, action: u64, change: Option<Change>) -> Result<(), NoMemory>
        ensures { OnOk result ((given : Entry → List Change) → (places : List Placed) → (place : Placed)
            → place.phase ≡ phase → place.context.action ≡ action → given place.entry ≡ option_to_list change
            → AreGivenBy given places self.old → AreGivenBy given (places ++ place ∷ []) self.new) }
    {
        push_given(&mut self.by_phase, phase, change)?;
        push_acted(&mut self.by_action, action, change)?;
        Ok(())
    }
}

impl Collected {
    /// Of no entries. It takes no memory.
    pub fn new(alloc: Global) -> Collected
        ensures { AreCollected [] result }
    {
        Collected {
            rows: Givens::new(alloc),
            words: Givens::new(alloc),
            releases: Vec::new(alloc),
            freed: none_freed(alloc),
        }
    }

    /// One entry more, in this phase and by this action; 0 is none. Err where memory runs out.
    pub fn note(&mut self, phase: u64, action: u64, entry: &Entry) -> Result<(), NoMemory>
        ensures { OnOk result ((places : List Placed) → (place : Placed) → place.phase ≡ phase
            → place.context.action ≡ action → place.entry ≡ entry.now → AreCollected places self.old
            → AreCollected (places ++ place ∷ []) self.new) }
    {
        let row = row_change(entry);
        let word = word_change(entry);
        let release = release_in(entry);
        self.rows.note(phase, action, row)?;
        self.words.note(phase, action, word)?;
        push_acted(&mut self.releases, action, release)?;
        note_freed(&mut self.freed, phase, release)?;
        Ok(())
    }

    /// What is known before the first entry, where these are of all entries. Err where memory runs out.
    pub fn into_sights(self, alloc: Global) -> Result<Sights, NoMemory>
        ensures { (all : List Placed) → AreCollected all self → AreChained row_change all
            → AreChained word_change all → IfOk result (AreSightsOf all []) }
    {
        let Collected {
            rows,
            words,
            releases,
            freed,
        } = self;
        let released = tops_of(alloc, releases)?;
        let row_phases = tops_of(alloc, rows.by_phase)?;
        let row_actions = tops_of(alloc, rows.by_action)?;
        let word_phases = tops_of(alloc, words.by_phase)?;
        let word_actions = tops_of(alloc, words.by_action)?;
        Ok(Sights {
            rows: RowFloors {
                floors: Floors {
                    phases: row_phases,
                    actions: row_actions,
                    known: none_known(alloc),
                },
                releases: Releases {
                    actions: released,
                    freed,
                },
            },
            words: Floors {
                phases: word_phases,
                actions: word_actions,
                known: none_known(alloc),
            },
        })
    }
}
