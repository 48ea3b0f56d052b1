//! The words that a put of an event writes.

ghost use Rattle.std.specs.Prelude.{ℕ, ◌≡◌, ◌+◌, ◌*◌, ◌≤◌, ◌^◌, Option, MatchOption};
ghost use Rattle.pfs_event.specs.EventForm.{bit_of};
ghost use Rattle.pfs_model.specs.Contents.{Given, Written, if_ended, is_read_only, link_of, or_zero, plus_one, words_at};
ghost use Rattle.pfs_check_facts.specs.SessionFacts.{facts_told};
ghost use Rattle.pfs_check_amounts.specs.EventTerms.{AreWordsTold, GivesEvents, IsWriting, outer_id, outer_type, words_by};

use crate::amounts::EventTerms;
use crate::seen::{is_digested, is_timed};
use pfs_check_facts::EventFacts;
use pfs_event::EventKind;
use pfs_model::Opened;

/// An event in which others lie: its kind, and its EVENT_ID.
#[derive(Clone, Copy, Debug, PartialEq, Eq)]
pub struct Outer {
    pub kind: EventKind,
    pub number: Option<u64>,
}

/// An event as a put finds it: the event, the innermost let-through one in which it lies, and its END_EVENT_ID where it
/// has ended.
#[derive(Clone, Copy, Debug, PartialEq, Eq)]
pub struct Writing {
    pub event: Opened,
    pub outer: Option<Outer>,
    pub last: Option<u64>,
}

fn or_zero(number: Option<u64>) -> u64
    ensures { result ≡ or_zero number }
{
    number.unwrap_or(0)
}

fn plus_one(number: Option<u64>) -> u128
    ensures number { result ≡ plus_one number }
    ensures fits { result ≤ 2 ^ 64 }
{
    match number {
        Some(number) => u128::from(number) + 1,
        None => 0,
    }
}

// A number of 64 bits, if it is one.
fn narrow(wide: u128) -> Option<u64>
    ensures { MatchOption result (2 ^ 64 ≤ wide) (λ number. number ≡ wide) }
{
    if wide > u128::from(u64::MAX) {
        return None;
    }
    Some(wide as u64)
}

// What an event is linked to.
fn link_of(digested: bool, event: &Opened) -> u128
    ensures link { result ≡ link_of digested event.now }
    ensures fits { result ≤ 2 ^ 64 }
{
    if digested {
        plus_one(event.subject.digest)
    } else {
        plus_one(event.subject.table)
    }
}

// The class and the link side by side.
fn class_and_link(digested: bool, event: &Opened) -> u128
    ensures { result ≡ or_zero event.now.subject.class + 64 * link_of digested event.now }
{
    u128::from(or_zero(event.subject.class)) + 64 * link_of(digested, event)
}

fn is_read_only(event: &Opened) -> bool
    ensures { result ≡ is_read_only event.now.subject.kind event.now.subject.cell }
{
    matches!(event.subject.kind, EventKind::Transaction) && event.subject.cell == 63
}

fn bit(flag: bool) -> u64
    ensures { result ≡ bit_of flag }
{
    if flag { 1 } else { 0 }
}

fn nesting_type(outer: Option<Outer>) -> u64
    ensures number { result ≡ outer_type outer }
    ensures fits { result ≤ 4 }
{
    match outer {
        Some(event) => event.kind.nesting_number(),
        None => 0,
    }
}

// Whether its time counts, whether it is a READ ONLY transaction, and the kind of the event that it lies in.
fn flags_word(timed: bool, writing: &Writing) -> u64
    ensures { result ≡ bit_of timed
        + 2 * bit_of (is_read_only writing.now.event.subject.kind writing.now.event.subject.cell)
        + 4 * outer_type writing.now.outer }
{
    let read_only = bit(is_read_only(&writing.event));
    bit(timed) + 2 * read_only + 4 * nesting_type(writing.outer)
}

fn nesting_id(outer: Option<Outer>) -> u64
    ensures { result ≡ outer_id outer }
{
    match outer {
        Some(event) => or_zero(event.number),
        None => 0,
    }
}

fn if_ended(last: Option<u64>, number: u64) -> u64
    ensures { result ≡ if_ended last number }
{
    match last {
        Some(_) => number,
        None => 0,
    }
}

// All sixteen, with those that were put together before.
fn spelled(
    session: u64,
    class: u64,
    flags: u64,
    ticket: u64,
    writing: &Writing,
    facts: EventFacts,
) -> [u64; 16]
    ensures { result ≡ words_by session writing.now.event writing.now.last class flags
        (outer_id writing.now.outer) (facts_told facts) ticket }
{
    let last = writing.last;
    [
        session,
        or_zero(writing.event.number),
        or_zero(last),
        class,
        flags,
        0,
        nesting_id(writing.outer),
        facts.start,
        if_ended(last, facts.duration),
        if_ended(last, facts.numbers.lock),
        if_ended(last, facts.numbers.errors),
        if_ended(last, facts.numbers.warnings),
        if_ended(last, facts.numbers.affected),
        if_ended(last, facts.numbers.sent),
        if_ended(last, facts.numbers.examined),
        ticket,
    ]
}

impl EventTerms {
    /// The words that a put of a session's event writes, in the long history with its ticket. None where a number among
    /// them is none of 64 bits.
    pub fn words(&self, session: u64, ticket: Option<u64>, writing: &Writing) -> Option<[u64; 16]>
        ensures { (given : Given) → (slot : Option ℕ) → (written : Written) → GivesEvents given self.now
            → IsWriting written writing.now → AreWordsTold (words_at given.flags session slot
            (given.facts session written.event.index) ticket written) result }
    {
        let timed = is_timed(&self.flags, &writing.event);
        let digested = is_digested(&self.flags, &writing.event);
        let facts = self.facts.facts(session, writing.event.index);
        let flags = flags_word(timed, writing);
        let Some(class) = narrow(class_and_link(digested, &writing.event)) else {
            return None;
        };
        let Some(number) = narrow(plus_one(ticket)) else {
            return None;
        };
        Some(spelled(session, class, flags, number, writing, facts))
    }
}
