//! The facts of all events of a script.

ghost use Rattle.std.specs.Prelude.{ℕ, ◌≡◌, [], List, IfOk};
ghost use Rattle.std.specs.BTreeMap.{get};
ghost use Rattle.std.specs.List.{flat_map};
ghost use Rattle.std.specs.Ordering.{nat_cmp};
ghost use Rattle.pfs_script.specs.declared.blocks.BlockLine.{BlockLine};
ghost use Rattle.pfs_script.specs.declared.blocks.Phase.{Phase};
ghost use Rattle.pfs_check_facts.specs.SessionFacts.{AreCoursesOf, AreFactsFor, AreFactsOf, IsCourseFor, facts_told, kept_facts};

use crate::NoMemory;
use crate::closings::facts_along;
use crate::courses::follow_blocks;
use crate::events::{EventFacts, nothing_said};
use crate::moments::Course;
use pfs_script::Phase;
use std::alloc::Global;
use std::collections::BTreeMap;

// The courses of all sessions over all phases.
fn courses_of(alloc: Global, phases: &[Phase]) -> Result<BTreeMap<u64, Course>, NoMemory>
    ensures { IfOk result (AreCoursesOf (flat_map (λ (phase : Phase). phase.blocks) phases.now)) }
{
    let mut courses = BTreeMap::new(alloc);
    for phase in phases {
        follow_blocks(alloc, &mut courses, phase.blocks.as_slice())?;
    }
    Ok(courses)
}

// The facts of each session's events, by its course.
fn facts_by_session(
    alloc: Global,
    mut courses: BTreeMap<u64, Course>,
) -> Result<BTreeMap<u64, Vec<EventFacts>>, NoMemory>
    ensures { IfOk result (λ facts. (session : ℕ) → (lines : List BlockLine)
        → IsCourseFor lines (get nat_cmp courses session) → AreFactsFor lines (get nat_cmp facts session)) }
{
    let mut sessions = BTreeMap::new(alloc);
    while let Some((session, course)) = courses.pop_first() {
        let facts = facts_along(alloc, course.moments.as_slice())?;
        sessions.insert(session, facts)?;
    }
    Ok(sessions)
}

/// What a script says of the events of its sessions.
#[derive(Drop)]
pub struct ScriptFacts {
    pub sessions: BTreeMap<u64, Vec<EventFacts>>,
}

impl ScriptFacts {
    /// Of these phases: each line is followed once, as often as its repeat runs. Err where memory runs out.
    pub fn of(alloc: Global, phases: &[Phase]) -> Result<ScriptFacts, NoMemory>
        ensures { IfOk result (AreFactsOf phases.now) }
    {
        let courses = courses_of(alloc, phases)?;
        let sessions = facts_by_session(alloc, courses)?;
        Ok(ScriptFacts { sessions })
    }

    /// Of a session's event, by its position among the session's starts over all phases, counted from 0; all zeros
    /// where the session has no such event.
    pub fn facts(&self, session: u64, position: u64) -> EventFacts
        ensures { facts_told result ≡ kept_facts self.now session position }
    {
        match self.sessions.get(&session) {
            Some(events) => match events.get(position as usize) {
                Some(facts) => *facts,
                None => nothing_said(),
            },
            None => nothing_said(),
        }
    }
}
