//! The open event that a start makes.

ghost use Rattle.std.specs.Prelude.{◌≡◌, ◌<◌, ◌≤◌, ◌+◌, ◌^◌, IfSome, if◌then◌else◌};
ghost use Rattle.pfs_event.specs.NestingKinds.{nesting_number};
ghost use Rattle.pfs_model.specs.Contents.{plus_one};
ghost use Rattle.pfs_event.specs.Verdicts.{is_let_through};
ghost use Rattle.pfs_session.specs.SessionStates.{around, AreAround};
ghost use Rattle.pfs_session.specs.Starts.{IsOpened, IsClass, link_of};

use pfs_event::{Event, Nest, Open, Verdict};
use pfs_model::Subject;
use pfs_rows::READ_ONLY_CELL;

/// The event that another lies in: the number of its kind, and its EVENT_ID; 0 and 0 where it lies in none.
#[derive(Clone, Copy, Debug, PartialEq, Eq)]
pub struct Outer {
    pub nesting: u64,
    pub parent: u64,
}

// What an event lies in that starts now: the innermost open event, or, where that isn't let through, what that one
// lies in.
fn around(nest: &Nest) -> Outer
    requires { AreAround nest.now.events }
    ensures value { result ≡ around nest.now.events }
    ensures fits { result.nesting ≤ 4 }
{
    match nest.innermost() {
        None => Outer {
            nesting: 0,
            parent: 0,
        },
        Some(what) => around_behind(what),
    }
}

fn around_behind(what: &Open) -> Outer
    ensures value { result ≡ (if is_let_through what.now.verdict
        then record { nesting = nesting_number what.now.kind; parent = what.now.event.number }
        else record { nesting = what.now.event.nesting; parent = what.now.event.parent }) }
    ensures fits { result.nesting ≤ 4 }
{
    if what.verdict.is_let_through() {
        Outer {
            nesting: what.kind.nesting_number(),
            parent: what.event.number,
        }
    } else {
        Outer {
            nesting: what.event.nesting,
            parent: what.event.parent,
        }
    }
}

// The id of a class, and 0 for a lost one.
fn class_number(class: Option<u64>) -> u64
    requires { IfSome class (λ n. n < 63) }
    ensures number { IsClass class result }
    ensures fits { result ≤ 62 }
{
    class.unwrap_or(0)
}

// What an event is linked to: a digested statement to its text's place, any other to its table, each counted from 1.
fn link_of(digested: bool, subject: &Subject) -> u64
    requires table { IfSome subject.now.table (λ n. n < 64) }
    requires digest { IfSome subject.now.digest (λ n. n < 64) }
    ensures number { result ≡ link_of digested subject.now }
    ensures fits { result ≤ 64 }
{
    if digested {
        plus_one(subject.digest)
    } else {
        plus_one(subject.table)
    }
}

fn plus_one(place: Option<u64>) -> u64
    requires { IfSome place (λ n. n < 64) }
    ensures number { result ≡ plus_one place }
    ensures fits { result ≤ 64 }
{
    match place {
        Some(place) => place + 1,
        None => 0,
    }
}

/// The event that starts in a session of this number, which has drawn so many event numbers, at this clock.
pub(crate) fn opened(
    session: u64,
    drawn: u64,
    clock: u64,
    nest: &Nest,
    subject: &Subject,
    verdict: Verdict,
    timed: bool,
    digested: bool,
    placed: bool,
) -> Open
    requires nested { AreAround nest.now.events }
    requires class { IfSome subject.now.class (λ n. n < 63) }
    requires table { IfSome subject.now.table (λ n. n < 64) }
    requires digest { IfSome subject.now.digest (λ n. n < 64) }
    requires early { drawn + 1 < 2 ^ 64 }
    ensures { IsOpened session drawn clock nest.now.events subject.now verdict timed digested placed result }
{
    let outer = around(nest);
    Open {
        kind: subject.kind,
        verdict,
        event: Event {
            session,
            number: drawn + 1,
            last: 0,
            class: class_number(subject.class),
            link: link_of(digested, subject),
            nesting: outer.nesting,
            parent: outer.parent,
            start: clock,
            duration: 0,
            lock: 0,
            errors: 0,
            warnings: 0,
            affected: 0,
            sent: 0,
            examined: 0,
            ticket: 0,
            timed,
            read_only: subject.cell == READ_ONLY_CELL,
        },
        digested,
        placed,
    }
}
