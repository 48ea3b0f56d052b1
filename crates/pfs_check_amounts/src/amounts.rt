//! What an event adds.

ghost use Rattle.std.specs.Prelude.{◌≡◌};
ghost use Rattle.pfs_model.specs.Contents.{Given, amount_of};
ghost use Rattle.pfs_check_facts.specs.SessionFacts.{facts_told};
ghost use Rattle.pfs_check_amounts.specs.EventTerms.{GivesEvents, measured};

use crate::seen::is_timed;
use pfs_check_facts::{EventFacts, ScriptFacts};
use pfs_check_verdicts::PrintedFlags;
use pfs_model::Opened;
use pfs_stat::{Measure, Stat, of_event};

/// What the contents of rows go by of events beside the printed entries: the flags of the switch words at their
/// versions, and the script's facts of the events.
#[derive(Drop)]
pub struct EventTerms {
    pub flags: PrintedFlags,
    pub facts: ScriptFacts,
}

// What an ended event adds.
fn measured(timed: bool, facts: EventFacts) -> Stat
    ensures { result ≡ measured timed (facts_told facts) }
{
    of_event(&Measure {
        timed,
        wait: facts.duration,
        lock: facts.numbers.lock,
        errors: facts.numbers.errors,
        warnings: facts.numbers.warnings,
        affected: facts.numbers.affected,
        sent: facts.numbers.sent,
        examined: facts.numbers.examined,
    })
}

impl EventTerms {
    /// What an event of a session adds when it ends: its time where that counts, and a statement's numbers.
    pub fn amount(&self, session: u64, event: &Opened) -> Stat
        ensures { (given : Given) → GivesEvents given self.now → result ≡ amount_of given session event.now }
    {
        let timed = is_timed(&self.flags, event);
        let facts = self.facts.facts(session, event.index);
        measured(timed, facts)
    }
}
