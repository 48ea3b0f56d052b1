//! What a session's printed entries so far tell of it.

ghost use Rattle.std.specs.Prelude.{◌≡◌, ◌+◌, ◌-◌, ◌≤◌, ◌==◌, ◌++◌, cond, length, take, drop, reverse, None, OnOk};
ghost use Rattle.pfs_event.specs.Verdicts.{is_let_through};
ghost use Rattle.pfs_model.specs.Contexts.{after_entries, fresh, noted, subject_of, turned};
ghost use Rattle.pfs_check_trail.specs.Trails.{IsTrailOf, opened_behind};

use crate::NoMemory;
use crate::open_events::{OpenEvents, plus};
use pfs_event::{Entry, Verdict};
use pfs_journal::EntryList;
use pfs_model::{Line, Opened, Subject};
use std::alloc::Global;
use std::collections::BTreeSet;
use std::marker::Model;

/// What a session's printed entries so far tell of it, all but the events that are held: the printed places, the open
/// events, the rows for which something is held, how many events it has started and numbers it has drawn, its last action
/// that has ended, and of the line at hand the event that ended last, its action and the last take of that action.
#[derive(Drop)]
pub struct Trail {
    slot: Option<u64>,
    account: Option<u64>,
    user: Option<u64>,
    host: Option<u64>,
    opened: OpenEvents,
    held: BTreeSet<u64>,
    begun: u64,
    drawn: u64,
    done: u64,
    ended: Option<Opened>,
    action: u64,
    source: Option<u64>,
    source_version: u64,
}

impl Model for Trail {
    ghost use Rattle.std.specs.Prelude.{[]};
    ghost use Rattle.pfs_model.specs.Contexts.{Context};

    ghost Value = { Context };

    ghost view = { λ t. record {
      slot = t.slot;
      account = t.account;
      user = t.user;
      host = t.host;
      opened = t.opened;
      held = t.held.keys;
      waiting = [];
      begun = t.begun;
      drawn = t.drawn;
      done = t.done;
      ended = t.ended;
      action = t.action;
      source = t.source;
      source_version = t.source_version;
    } };
}

/// What a line starts.
pub fn subject_in(line: &Line) -> Option<Subject>
    ensures { result ≡ subject_of line.now }
{
    match line {
        Line::Start { subject } => Some(*subject),
        Line::Stage { subject } => Some(*subject),
        _ => None,
    }
}

// An event starts, where the line starts something; nothing at another entry.
fn open_one(
    opened: &mut OpenEvents,
    subject: Option<Subject>,
    index: u64,
    entry: &Entry,
) -> Result<(), NoMemory>
    ensures { OnOk result (opened.new ≡ opened_behind subject index opened.old entry.now) }
{
    let Entry::Start {
        event,
        verdict,
        consumers,
        thread,
        class,
        table,
    } = *entry
    else {
        return Ok(());
    };
    match subject {
        Some(subject) => opened.push(Opened {
            subject,
            verdict,
            index,
            number: event,
            consumers,
            thread,
            class,
            table,
        }),
        None => Ok(()),
    }
}

// An event that is let through draws a number.
fn numbers_drawn(verdict: Verdict) -> u64
    ensures { result ≡ cond (is_let_through verdict) 1 0 }
{
    if verdict.is_let_through() { 1 } else { 0 }
}

fn last_action(done: u64, action: u64) -> u64
    ensures { result ≡ cond (action == 0) done action }
{
    if action == 0 { done } else { action }
}

impl Trail {
    /// A session that has done nothing. It takes no memory.
    pub fn new(alloc: Global) -> Trail
        ensures { result ≡ fresh }
    {
        Trail {
            slot: None,
            account: None,
            user: None,
            host: None,
            opened: OpenEvents::new(alloc),
            held: BTreeSet::new(alloc),
            begun: 0,
            drawn: 0,
            done: 0,
            ended: None,
            action: 0,
            source: None,
            source_version: 0,
        }
    }

    /// The printed thread slot.
    pub fn slot(&self) -> Option<u64>
        ensures { result ≡ self.now.slot }
    {
        self.slot
    }

    /// The open events.
    pub fn opened(&self) -> &OpenEvents
        ensures { result.now ≡ self.now.opened }
    {
        &self.opened
    }

    /// How many event numbers the session has drawn.
    pub fn drawn(&self) -> u64
        ensures { result ≡ self.now.drawn }
    {
        self.drawn
    }

    /// The number of its last action that has ended; 0 before its first.
    pub fn done(&self) -> u64
        ensures { result ≡ self.now.done }
    {
        self.done
    }

    /// The number of the action of the line at hand; 0 where it has none so far.
    pub fn action(&self) -> u64
        ensures { result ≡ self.now.action }
    {
        self.action
    }

    /// The rows for which something is held.
    pub fn held(&self) -> &BTreeSet<u64>
        ensures { result.now.keys ≡ self.now.held }
    {
        &self.held
    }

    /// A new line: what the line before did has ended.
    pub fn turn(&mut self)
        ensures { self.new ≡ turned self.old }
    {
        self.done = last_action(self.done, self.action);
        self.ended = None;
        self.action = 0;
        self.source = None;
        self.source_version = 0;
    }

    // The start of an event with this verdict.
    fn note_start(
        &mut self,
        subject: Option<Subject>,
        verdict: Verdict,
        entry: &Entry,
    ) -> Result<(), NoMemory>
        ensures { OnOk result (self.new ≡ record self.old {
          opened = opened_behind subject self.old.begun self.old.opened entry.now;
          begun = self.old.begun + 1;
          ended = None;
          drawn = self.old.drawn + cond (is_let_through verdict) 1 0;
        }) }
    {
        let begun = plus(self.begun, 1)?;
        let drawn = plus(self.drawn, numbers_drawn(verdict))?;
        open_one(&mut self.opened, subject, self.begun, entry)?;
        self.begun = begun;
        self.drawn = drawn;
        self.ended = None;
        Ok(())
    }

    /// One entry more, of a line that starts this. NoMemory also where more events start than can be counted.
    pub fn note(&mut self, subject: Option<Subject>, entry: &Entry) -> Result<(), NoMemory>
        ensures { OnOk result (IsTrailOf (noted subject self.old entry.now) self.new) }
    {
        match *entry {
            Entry::Connect {
                action,
                thread,
                account,
                user,
                host,
            } => {
                self.slot = thread;
                self.account = account;
                self.user = user;
                self.host = host;
                self.action = action;
                Ok(())
            }
            Entry::Start { verdict, .. } => self.note_start(subject, verdict, entry),
            Entry::End { .. } => {
                self.ended = self.opened.pop();
                Ok(())
            }
            Entry::Held { row, .. } => {
                self.held.insert(row)?;
                Ok(())
            }
            Entry::Add { row, .. } => {
                self.held.remove(&row);
                Ok(())
            }
            Entry::Settle => {
                self.ended = None;
                Ok(())
            }
            Entry::Act { action } => {
                self.action = action;
                Ok(())
            }
            Entry::Take { row, version } => {
                self.source = Some(row);
                self.source_version = version;
                Ok(())
            }
            _ => Ok(()),
        }
    }

    /// The entries of a line from one place up to another, behind those of the line that were noted already.
    pub fn note_part(
        &mut self,
        line: &Line,
        entries: &EntryList,
        from: usize,
        to: usize,
    ) -> Result<(), NoMemory>
        requires { to ≤ length entries.now }
        ensures { OnOk result (IsTrailOf (after_entries (subject_of line.now) self.old
            (take (to - from) (drop from entries.now))) self.new) }
    {
        let subject = subject_in(line);
        for place in from..to {
            self.note(subject, &entries.entry(place))?;
        }
        Ok(())
    }
}
