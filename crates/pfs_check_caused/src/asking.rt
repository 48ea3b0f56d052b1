//! The causes of lines, asked of one entry after another.

ghost use Rattle.std.specs.Prelude.{◌≡◌, ◌∷◌, ◌||◌, not, List, OnOk};
ghost use Rattle.pfs_check_caused.specs.CauseRules.{AreKnown};
ghost use Rattle.pfs_check_floors.specs.KnownFloors.{Tells};
ghost use Rattle.pfs_check_walk.specs.Walks.{place_of};
ghost use Rattle.pfs_model.specs.Causes.{ShowsCause};
ghost use Rattle.pfs_model.specs.Contexts.{Context};
ghost use Rattle.pfs_model.specs.declared.lines.Line.{Line};
ghost use Rattle.pfs_model.specs.EntryPlaces.{Placed};
ghost use Rattle.pfs_model.specs.Rings.{is_reading_line};

use crate::NoMemory;
use pfs_check_causes::Causes;
use pfs_check_floors::{Seat, Sights, loads_in};
use pfs_check_walk::{Spot, Track, Visit};
use pfs_event::Entry;
use pfs_model::Line;

/// What all entries of a report give of causes, and what each session has seen so far.
#[derive(Drop)]
pub struct Known {
    pub sights: Sights,
    pub causes: Causes,
}

impl Known {
    // Whether an entry shows its cause.
    fn shows<T: Track>(&self, spot: Spot, track: &T, entry: &Entry) -> bool
        ensures { (all : List Placed) → (earlier : List Placed) → (line : Line) → (context : Context)
            → T.tells track.now context → AreKnown all earlier self.now
            → Tells (ShowsCause all earlier (place_of spot line context entry.now) entry.now) result }
    {
        let seat = Seat {
            phase: spot.phase,
            session: spot.session,
            done: track.done(),
        };
        self.causes.show(&self.sights.rows, seat, entry)
    }

    // One entry more.
    fn note<T: Track>(
        &mut self,
        spot: Spot,
        line: &Line,
        track: &T,
        entry: &Entry,
    ) -> Result<(), NoMemory>
        ensures { OnOk result ((all : List Placed) → (earlier : List Placed) → (context : Context)
            → T.tells track.now context → AreKnown all earlier self.old
            → AreKnown all (place_of spot line.now context entry.now ∷ earlier) self.new) }
    {
        let loads = loads_in(line, track.slot(), entry);
        self.sights.note(spot.session, &loads, entry)?;
        Ok(())
    }
}

/// Asks of each entry outside SELECTs that read the store whether it shows its cause.
#[derive(Drop)]
pub(crate) struct Events {
    pub known: Known,
}

/// Asks it of each entry in such a SELECT.
#[derive(Drop)]
pub(crate) struct Queries {
    pub known: Known,
}

fn is_reading(line: &Line) -> bool
    ensures { result ≡ is_reading_line line.now }
{
    match *line {
        Line::Query => true,
        _ => false,
    }
}

fn is_event_shown(line: &Line, shown: bool) -> bool
    ensures { result ≡ (is_reading_line line.now || shown) }
{
    is_reading(line) || shown
}

fn is_query_shown(line: &Line, shown: bool) -> bool
    ensures { result ≡ (not (is_reading_line line.now) || shown) }
{
    !is_reading(line) || shown
}

impl Visit for Events {
    ghost use Rattle.pfs_check_caused.specs.CauseRules.{AreKnown};
    ghost use Rattle.pfs_check_faults.specs.EntryFaults.{EventCauseAt};
    ghost use Rattle.pfs_check_faults.specs.ReportCases.{entries_of};

    ghost rule = { λ case found earlier place. EventCauseAt (entries_of found) earlier place };

    ghost knows = { λ visitor case found earlier. AreKnown (entries_of found) earlier visitor.known };

    fn visit<T: Track>(
        &mut self,
        spot: Spot,
        line: &Line,
        track: &T,
        entry: &Entry,
    ) -> Result<bool, NoMemory> {
        let shown = self.known.shows(spot, track, entry);
        let kept = is_event_shown(line, shown);
        if !kept {
            return Ok(false);
        }
        self.known.note(spot, line, track, entry)?;
        Ok(true)
    }
}

impl Visit for Queries {
    ghost use Rattle.pfs_check_caused.specs.CauseRules.{AreKnown};
    ghost use Rattle.pfs_check_faults.specs.EntryFaults.{QueryCauseAt};
    ghost use Rattle.pfs_check_faults.specs.ReportCases.{entries_of};

    ghost rule = { λ case found earlier place. QueryCauseAt (entries_of found) earlier place };

    ghost knows = { λ visitor case found earlier. AreKnown (entries_of found) earlier visitor.known };

    fn visit<T: Track>(
        &mut self,
        spot: Spot,
        line: &Line,
        track: &T,
        entry: &Entry,
    ) -> Result<bool, NoMemory> {
        let shown = self.known.shows(spot, track, entry);
        let kept = is_query_shown(line, shown);
        if !kept {
            return Ok(false);
        }
        self.known.note(spot, line, track, entry)?;
        Ok(true)
    }
}
