//! The open events of a session.

ghost use Rattle.std.specs.Prelude.{◌≡◌, ◌+◌, ◌&&◌, ◌∷◌, [], cond, drop, reverse, OnOk, OnErr, IfOk};
ghost use Rattle.pfs_event.specs.Verdicts.{is_let_through};
ghost use Rattle.pfs_model.specs.Contexts.{first_of};
ghost use Rattle.pfs_model.specs.EventNumbers.{nesting_of};
ghost use Rattle.pfs_model.specs.SetupFlags.{is_statement, is_wait, open_through};
ghost use Rattle.pfs_check_trail.specs.OpenCounts.{through_behind};

use crate::NoMemory;
use pfs_event::EventKind;
use pfs_model::Opened;
use std::alloc::{AllocError, Global};
use std::marker::Model;

/// The open events, seen with the innermost first. Beside them stand those that are let through and how many of these
/// are statements and waits, so that no question at a start goes over all of them: as many may be open as a script has
/// lines.
#[derive(Drop)]
pub struct OpenEvents {
    items: Vec<Opened>,
    through: Vec<Opened>,
    statements: u64,
    waits: u64,
}

impl Model for OpenEvents {
    ghost use Rattle.std.specs.Prelude.{List, reverse};
    ghost use Rattle.pfs_model.specs.declared.lines.Opened.{Opened};

    ghost Value = { List Opened };

    ghost use Rattle.pfs_check_trail.specs.OpenCounts.{AreCounted};

    ghost view = { λ s. reverse s.items.items };

    ghost invariant = { λ s. AreCounted (reverse s.items.items) (reverse s.through.items) s.statements s.waits };
}

/// So many more. NoMemory where they can't be counted, which no memory holds.
pub(crate) fn plus(count: u64, more: u64) -> Result<u64, NoMemory>
    ensures { IfOk result (λ all. all ≡ count + more) }
{
    match count.checked_add(more) {
        Some(all) => Ok(all),
        None => Err(AllocError),
    }
}

// One where the event is a let-through statement.
fn statements_in(event: &Opened) -> u64
    ensures { result ≡ cond (is_let_through event.now.verdict && is_statement event.now.subject.kind) 1 0 }
{
    if event.verdict.is_let_through() && matches!(event.subject.kind, EventKind::Statement) {
        1
    } else {
        0
    }
}

// One where it is a let-through wait.
fn waits_in(event: &Opened) -> u64
    ensures { result ≡ cond (is_let_through event.now.verdict && is_wait event.now.subject.kind) 1 0 }
{
    if event.verdict.is_let_through() && matches!(event.subject.kind, EventKind::Wait) {
        1
    } else {
        0
    }
}

// An event is put behind the others, and behind those that are let through where it is.
fn push_both(
    items: &mut Vec<Opened>,
    through: &mut Vec<Opened>,
    event: Opened,
) -> Result<(), NoMemory>
    ensures items { OnOk result (reverse items.new.items ≡ event ∷ reverse items.old.items) }
    ensures through { OnOk result (reverse through.new.items
        ≡ cond (is_let_through event.verdict) (event ∷ reverse through.old.items) (reverse through.old.items)) }
    ensures items_stay { OnErr result (items.new.items ≡ items.old.items) }
    ensures through_stay { OnErr result (through.new.items ≡ through.old.items) }
{
    items.reserve(1)?;
    through.reserve(1)?;
    items.push_reserved(event);
    if event.verdict.is_let_through() {
        through.push_reserved(event);
        return Ok(());
    }
    Ok(())
}

fn pop_last(events: &mut Vec<Opened>) -> Option<Opened>
    ensures event { result ≡ first_of (reverse events.old.items) }
    ensures rest { reverse events.new.items ≡ drop 1 (reverse events.old.items) }
{
    events.pop()
}

// The last event is taken, and the last of those that are let through where it is.
fn pop_both(items: &mut Vec<Opened>, through: &mut Vec<Opened>) -> Option<Opened>
    ensures event { result ≡ first_of (reverse items.old.items) }
    ensures items { reverse items.new.items ≡ drop 1 (reverse items.old.items) }
    ensures through { reverse through.new.items ≡ through_behind result (reverse through.old.items) }
{
    match pop_last(items) {
        Some(event) => {
            if event.verdict.is_let_through() {
                let _ended = pop_last(through);
                return Some(event);
            }
            Some(event)
        }
        None => None,
    }
}

fn last_of(events: &[Opened]) -> Option<Opened>
    ensures { result ≡ first_of (reverse events.now) }
{
    match events.last() {
        Some(event) => Some(*event),
        None => None,
    }
}

impl OpenEvents {
    /// None is open. It takes no memory.
    pub(crate) fn new(alloc: Global) -> OpenEvents
        ensures { result ≡ [] }
    {
        OpenEvents {
            items: Vec::new(alloc),
            through: Vec::new(alloc),
            statements: 0,
            waits: 0,
        }
    }

    /// An event starts inside all others.
    pub(crate) fn push(&mut self, event: Opened) -> Result<(), NoMemory>
        ensures { OnOk result (self.new ≡ event ∷ self.old) }
    {
        let statements = plus(self.statements, statements_in(&event))?;
        let waits = plus(self.waits, waits_in(&event))?;
        push_both(&mut self.items, &mut self.through, event)?;
        self.statements = statements;
        self.waits = waits;
        Ok(())
    }

    /// The innermost event ends.
    pub(crate) fn pop(&mut self) -> Option<Opened>
        ensures event { result ≡ first_of self.old }
        ensures rest { self.new ≡ drop 1 self.old }
    {
        match pop_both(&mut self.items, &mut self.through) {
            Some(event) => {
                self.statements -= statements_in(&event);
                self.waits -= waits_in(&event);
                Some(event)
            }
            None => None,
        }
    }

    /// The open events, the innermost last.
    pub fn as_slice(&self) -> &[Opened]
        ensures { reverse result.now ≡ self.now }
    {
        self.items.as_slice()
    }

    /// The innermost of them.
    pub fn innermost(&self) -> Option<Opened>
        ensures { result ≡ first_of self.now }
    {
        last_of(self.as_slice())
    }

    /// How many let-through statements are open.
    pub fn statements(&self) -> u64
        ensures { result ≡ open_through is_statement self.now }
    {
        self.statements
    }

    /// How many let-through waits are open.
    pub fn waits(&self) -> u64
        ensures { result ≡ open_through is_wait self.now }
    {
        self.waits
    }

    /// The innermost event that is let through.
    pub fn nesting(&self) -> Option<Opened>
        ensures { result ≡ nesting_of self.now }
    {
        last_of(self.through.as_slice())
    }
}
