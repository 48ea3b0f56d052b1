//! A rule that is asked of one entry after another.

ghost use Rattle.std.specs.Prelude.{ℕ, ◌≡◌, ◌≤◌, List, length, IfOk, OnOk};
ghost use Rattle.pfs_model.specs.Contexts.{Context, noted, subject_of, after_entries};
ghost use Rattle.pfs_model.specs.EntryPlaces.{Placed, placed_part};
ghost use Rattle.pfs_model.specs.SetupFlags.{is_statement, is_wait, open_through};
ghost use Rattle.pfs_check_faults.specs.ReportCases.{Case, Findings};
ghost use Rattle.pfs_check_walk.specs.Walks.{IsTold, IsTracked, IsVisited, IsWalked, entries_between, first_opened, place_of};

use crate::NoMemory;
use pfs_event::Entry;
use pfs_journal::EntryList;
use pfs_model::{Line, Opened};

/// What a session's printed entries so far tell of it, as far as it is kept.
pub trait Track {
    /// It is kept of a session of which the entries tell this.
    ghost tells: { Self → Context → Type 0 };

    /// How many event numbers the session has drawn.
    fn drawn(&self) -> u64
        ensures { (context : Context) → tells self.now context → result ≡ context.drawn };

    /// The printed thread slot.
    fn slot(&self) -> Option<u64>
        ensures { (context : Context) → tells self.now context → result ≡ context.slot };

    /// The number of its last action that has ended before the line at hand; 0 before its first.
    fn done(&self) -> u64
        ensures { (context : Context) → tells self.now context → result ≡ context.done };

    /// The number of the action of the line at hand; 0 where it has none so far.
    fn action(&self) -> u64
        ensures { (context : Context) → tells self.now context → result ≡ context.action };

    /// The innermost of its open events.
    fn innermost(&self) -> Option<Opened>
        ensures { (context : Context) → tells self.now context → result ≡ first_opened context };

    /// How many let-through statements are open.
    fn statements(&self) -> u64
        ensures { (context : Context) → tells self.now context
            → result ≡ open_through is_statement context.opened };

    /// How many let-through waits are open.
    fn waits(&self) -> u64
        ensures { (context : Context) → tells self.now context → result ≡ open_through is_wait context.opened };

    /// One entry more of a line. Err where memory runs out.
    fn note(&mut self, line: &Line, entry: &Entry) -> Result<(), NoMemory>
        ensures { (context : Context) → tells self.old context
            → OnOk result (IsTold (tells self.new) line.now context entry.now) };
}

/// Where an entry stands.
#[derive(Clone, Copy, Debug, PartialEq, Eq)]
pub struct Spot {
    /// The number of the phase.
    pub phase: u64,
    /// The number of the session.
    pub session: u64,
}

/// A rule that is a fact of an entry and of those before it.
pub trait Visit {
    /// The rule, of a case by what was found: of an entry, behind those entries, the last first.
    ghost rule: { Case → Findings → List Placed → Placed → Type 0 };

    /// What is known behind these entries.
    ghost knows: { Self → Case → Findings → List Placed → Type 0 };

    /// Whether the rule is kept at the next entry. Err where memory runs out.
    fn visit<T: Track>(
        &mut self,
        spot: Spot,
        line: &Line,
        track: &T,
        entry: &Entry,
    ) -> Result<bool, NoMemory>
        ensures { (case : Case) → (found : Findings) → (earlier : List Placed) → (context : Context)
            → T.tells track.now context → knows self.old case found earlier
            → IfOk result (IsVisited (rule case found) earlier (place_of spot line.now context entry.now)
            (knows self.new case found)) };
}

/// Asks a rule of the entries of a line, from a place of the journal to the one behind them: None where all keep it, or
/// the place, counted from that first one, of the first that doesn't. Err where memory runs out.
pub fn visit_part<V: Visit, T: Track>(
    visitor: &mut V,
    spot: Spot,
    line: &Line,
    track: &mut T,
    entries: &EntryList,
    start: usize,
    end: usize,
) -> Result<Option<usize>, NoMemory>
    requires order { start ≤ end }
    requires within { end ≤ length entries.now }
    ensures walked { (case : Case) → (found : Findings) → (earlier : List Placed) → (context : Context)
        → T.tells track.old context → V.knows visitor.old case found earlier
        → IfOk result (IsWalked (V.rule case found) earlier
        (placed_part spot.phase spot.session line.now context (entries_between entries.now start end))
        (V.knows visitor.new case found)) }
    ensures tracked { (context : Context) → T.tells track.old context
        → IfOk result (IsTracked (T.tells track.new)
        (after_entries (subject_of line.now) context (entries_between entries.now start end))) }
{
    for at in start..end {
        let entry = entries.entry(at);
        if !visitor.visit(spot, line, track, &entry)? {
            return Ok(Some(at - start));
        }
        track.note(line, &entry)?;
    }
    Ok(None)
}
