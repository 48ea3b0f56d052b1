//! The causes of lines, entry by entry.

ghost use Rattle.std.specs.Prelude.{◌≡◌, ◌++◌, ◌∷◌, [], List, IfOk, OnOk};
ghost use Rattle.pfs_check_causes.specs.CauseIndexes.{AreCauses, AreNoted};
ghost use Rattle.pfs_check_causes.specs.TicketPuts.{NeverFallFrom};
ghost use Rattle.pfs_check_floors.specs.KnownFloors.{IsSeatOf, Tells};
ghost use Rattle.pfs_check_floors.specs.RowNames.{AreRowsOf};
ghost use Rattle.pfs_model.specs.Causes.{ShowsCause};
ghost use Rattle.pfs_model.specs.EntryPlaces.{Placed};

use crate::NoMemory;
use crate::own::{OwnChange, none_made, note_own};
use crate::puts::{PhasedTop, RowTicket, is_late, none_put, note_put};
use crate::vacant::{FreeGivens, FreeRows};
use crate::words::{Words, is_caused};
use pfs_check_floors::{RowFloors, Seat};
use pfs_event::Entry;
use std::alloc::Global;
use std::collections::{BTreeMap, BTreeSet};

/// What entries give of causes, as it is collected.
#[derive(Debug, Drop)]
pub struct CauseGivens {
    pub own: BTreeSet<OwnChange>,
    pub free: FreeGivens,
    pub puts: BTreeMap<RowTicket, Vec<PhasedTop>>,
}

/// What all entries of a report give of causes.
#[derive(Debug, Drop)]
pub struct Causes {
    /// The changes of rows, each with its session.
    pub own: BTreeSet<OwnChange>,
    /// The releases of rows, up to each phase.
    pub free: FreeRows,
    /// The puts of tickets to long histories, up to each phase.
    pub puts: BTreeMap<RowTicket, Vec<PhasedTop>>,
}

impl CauseGivens {
    /// Of no entries. It takes no memory.
    pub fn new(alloc: Global) -> CauseGivens
        ensures { AreNoted [] result }
    {
        CauseGivens {
            own: none_made(alloc),
            free: FreeGivens::new(alloc),
            puts: none_put(alloc),
        }
    }

    /// One entry more, in this phase and in the journal of this session. Err where memory runs out.
    pub fn note(
        &mut self,
        alloc: Global,
        phase: u64,
        session: u64,
        entry: &Entry,
    ) -> Result<(), NoMemory>
        ensures { OnOk result ((places : List Placed) → (place : Placed) → place.phase ≡ phase
            → place.session ≡ session → place.entry ≡ entry.now → AreNoted places self.old
            → AreNoted (places ++ place ∷ []) self.new) }
    {
        note_own(&mut self.own, session, entry)?;
        self.free.note(phase, entry)?;
        note_put(&mut self.puts, alloc, phase, session, entry)?;
        Ok(())
    }

    /// What is known where these are of all entries. Err where memory runs out.
    pub fn into_causes(self, alloc: Global) -> Result<Causes, NoMemory>
        ensures { (all : List Placed) → AreNoted all self → IfOk result (AreCauses all) }
    {
        let CauseGivens { own, free, puts } = self;
        let free = free.into_rows(alloc)?;
        Ok(Causes { own, free, puts })
    }
}

impl Causes {
    /// Whether an entry at a place shows its cause: a `held`, a `busy`, a `late` or a `vacant` line, by what all
    /// entries give and what the session has seen before. The phases of a report never fall.
    pub fn show(&self, rows: &RowFloors, seat: Seat, entry: &Entry) -> bool
        ensures { (all : List Placed) → (earlier : List Placed) → (place : Placed) → AreRowsOf all earlier rows.now
            → AreCauses all self.now → NeverFallFrom 0 all → IsSeatOf seat place
            → Tells (ShowsCause all earlier place entry.now) result }
    {
        match *entry {
            Entry::Held { row, first, second } => {
                is_caused(&self.own, rows, seat, row, Words { first, second })
            }
            Entry::Busy { row, first, second } => {
                is_caused(&self.own, rows, seat, row, Words { first, second })
            }
            Entry::Late {
                row,
                ticket,
                greater,
            } => is_late(&self.puts, rows, seat, RowTicket { row, ticket }, greater),
            Entry::Vacant { row } => self.free.was_free(rows, seat, row),
            _ => true,
        }
    }
}
