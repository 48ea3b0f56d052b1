//! The open events of a session, each inside the one before it.

ghost use Rattle.std.specs.Prelude.{◌≡◌, ◌≤◌, ◌↔◌, [], length, reverse, IfOk, IsTrue, option_copied};
ghost use Rattle.pfs_event.specs.Nests.{OpenEvents, innermost_of, kind_of, StartGives, EndGives};

use crate::NoMemory;
use crate::kind::{EventKind, may_follow};
use crate::open::Open;
use std::alloc::Global;
use std::marker::Model;
use thiserror::Error;

/// Why an event was not started, or none ended.
#[derive(Clone, Copy, Debug, PartialEq, Eq, Error)]
pub enum Refused {
    /// An event of this kind may not start inside the innermost open event. This is tested first.
    #[error("the event may not start here")]
    WrongOrder,
    /// As many events are open as the nest has room for.
    #[error("too many events are open")]
    TooDeep,
    /// Nothing is open.
    #[error("nothing is open")]
    NothingOpen,
}

/// A session's open events, with room for as many as it was made for. The last to start is the
/// innermost, and the first to end.
#[derive(Drop)]
pub struct Nest {
    events: Vec<Open>,
    depth: usize,
}

impl Model for Nest {
    ghost use Rattle.std.specs.Prelude.{◌≤◌, reverse, vec_len, vec_capacity};
    ghost use Rattle.pfs_event.specs.Nests.{OpenEvents};

    ghost Value = { OpenEvents };

    ghost view = { λ n. record { depth = n.depth; events = reverse n.events.items } };

    ghost invariant = { λ n. (vec_len n.events ≤ n.depth) × (n.depth ≤ vec_capacity n.events) };
}

impl Nest {
    /// No open event, with room for `depth` of them. The room is taken here, and no other call
    /// takes memory.
    pub fn with_depth(alloc: Global, depth: u64) -> Result<Nest, NoMemory>
        ensures { IfOk result (λ nest. nest ≡ record { depth = depth; events = [] }) }
    {
        let depth = depth as usize;
        let events = Vec::with_capacity(alloc, depth)?;
        Ok(Nest { events, depth })
    }

    /// How many events may be open.
    pub fn depth(&self) -> u64
        ensures depth { result ≡ self.now.depth }
        ensures fits { length self.now.events ≤ self.now.depth }
    {
        // Reads the list, so that a clause may speak of its length.
        let _ = &self.events;
        self.depth as u64
    }

    /// Whether no event is open.
    pub fn is_empty(&self) -> bool
        ensures { IsTrue result ↔ (self.now.events ≡ []) }
    {
        self.events.is_empty()
    }

    /// The open events, from the outermost to the innermost.
    pub fn events(&self) -> &[Open]
        ensures { result.now ≡ reverse self.now.events }
    {
        self.events.as_slice()
    }

    /// The innermost open event.
    pub fn innermost(&self) -> Option<&Open>
        ensures { option_copied result ≡ innermost_of self.now.events }
    {
        last_event(self.events.as_slice())
    }

    /// Starts an event inside the innermost open one. A wait may start anywhere, a transaction
    /// where nothing is open, a statement where nothing is open and inside a transaction or a
    /// statement, and a stage inside a statement, so an open stage has to be ended first.
    /// The order is our own. WrongOrder comes exactly where it forbids the event, and is tested before
    /// TooDeep, which comes exactly where as many events are open as the nest was made for. A refusal
    /// changes nothing.
    pub fn start(&mut self, what: Open) -> Result<(), Refused>
        ensures { StartGives self.old what result self.new }
    {
        if !may_follow(what.kind, last_kind(self.events.as_slice())) {
            return Err(Refused::WrongOrder);
        }
        if self.events.len() == self.depth {
            return Err(Refused::TooDeep);
        }
        match self.events.push(what) {
            Ok(()) => Ok(()),
            Err(_) => unreachable!(),
        }
    }

    /// Ends the innermost open event and gives it back as it was started. NothingOpen comes exactly
    /// where nothing is open, and changes nothing.
    pub fn end(&mut self) -> Result<Open, Refused>
        ensures { EndGives self.old result self.new }
    {
        match self.events.pop() {
            Some(what) => Ok(what),
            None => Err(Refused::NothingOpen),
        }
    }
}

fn last_event(events: &[Open]) -> Option<&Open>
    ensures { option_copied result ≡ innermost_of (reverse events.now) }
{
    events.last()
}

fn last_kind(events: &[Open]) -> Option<EventKind>
    ensures { result ≡ kind_of (innermost_of (reverse events.now)) }
{
    match last_event(events) {
        Some(open) => Some(open.kind),
        None => None,
    }
}
