//! What closes events, found from behind.

ghost use Rattle.std.specs.Prelude.{◌≡◌, ◌∷◌, [], List, reverse, drop, IfOk, OnOk};
ghost use Rattle.pfs_check_facts.specs.Closings.{AreClosings, closing_in, facts_along, first_moment};
ghost use Rattle.pfs_check_facts.specs.declared.moments.Moment.{Moment};

use crate::NoMemory;
use crate::events::{EventFacts, facts_between};
use crate::moments::{Moment, Turn};
use pfs_event::EventKind;
use std::alloc::Global;

/// The moments to come that close what is open: the last is that of the innermost event, the one before it that of the
/// next, and so on. What ends a statement ends the stage in it too, so a stage doesn't count among those in between.
#[derive(Drop)]
pub(crate) struct Closings {
    /// Of stages.
    pub stages: Vec<Moment>,
    /// Of all other events.
    pub others: Vec<Moment>,
}

fn put_first(moments: &mut Vec<Moment>, moment: Moment) -> Result<(), NoMemory>
    ensures { OnOk result (reverse moments.new.items ≡ moment ∷ reverse moments.old.items) }
{
    moments.push(moment)?;
    Ok(())
}

fn drop_first(moments: &mut Vec<Moment>)
    ensures { reverse moments.new.items ≡ drop 1 (reverse moments.old.items) }
{
    moments.pop();
}

fn first_of(moments: &[Moment]) -> Option<Moment>
    ensures { result ≡ first_moment (reverse moments.now) }
{
    match moments.last() {
        Some(moment) => Some(*moment),
        None => None,
    }
}

impl Closings {
    /// Nothing is to come. It takes no memory.
    fn new(alloc: Global) -> Closings
        ensures { AreClosings [] result }
    {
        Closings {
            stages: Vec::new(alloc),
            others: Vec::new(alloc),
        }
    }

    /// What closes an event of a kind that opens right before the moments to come.
    fn first(&self, kind: EventKind) -> Option<Moment>
        ensures { (later : List Moment) → AreClosings later self.now → result ≡ closing_in kind 0 later }
    {
        match kind {
            EventKind::Stage => first_of(self.stages.as_slice()),
            EventKind::Wait | EventKind::Statement | EventKind::Transaction => {
                first_of(self.others.as_slice())
            }
        }
    }

    /// One moment before the others.
    fn note(&mut self, moment: Moment) -> Result<(), NoMemory>
        ensures { (later : List Moment) → AreClosings later self.old
            → OnOk result (AreClosings (moment ∷ later) self.new) }
    {
        match moment.turn {
            Turn::Ends => {
                put_first(&mut self.stages, moment)?;
                put_first(&mut self.others, moment)?;
                Ok(())
            }
            Turn::EndsStage | Turn::Opens(EventKind::Stage) => {
                drop_first(&mut self.stages);
                put_first(&mut self.stages, moment)?;
                Ok(())
            }
            Turn::Opens(_) => {
                drop_first(&mut self.stages);
                drop_first(&mut self.others);
                Ok(())
            }
        }
    }
}

// The facts of the event that a moment opens, if it does, behind those of the events to come.
fn put_facts(
    facts: &mut Vec<EventFacts>,
    moment: Moment,
    closings: &Closings,
) -> Result<(), NoMemory>
    ensures { (later : List Moment) → AreClosings later closings.now → reverse facts.old.items ≡ facts_along later
        → OnOk result (reverse facts.new.items ≡ facts_along (moment ∷ later)) }
{
    match moment.turn {
        Turn::Opens(kind) => {
            let closing = closings.first(kind);
            facts.push(facts_between(moment, kind, closing))?;
            Ok(())
        }
        Turn::Ends | Turn::EndsStage => Ok(()),
    }
}

/// The facts of the events that these moments open, in their order: what closes an event stands behind it, so they are
/// read from the last one back.
pub(crate) fn facts_along(alloc: Global, moments: &[Moment]) -> Result<Vec<EventFacts>, NoMemory>
    ensures { IfOk result (λ facts. facts.items ≡ facts_along moments.now) }
{
    let mut closings = Closings::new(alloc);
    let mut facts = Vec::new(alloc);
    let mut place = moments.len();
    while place > 0 {
        place -= 1;
        let moment = moments[place];
        put_facts(&mut facts, moment, &closings)?;
        closings.note(moment)?;
    }
    facts.reverse();
    Ok(facts)
}
