//! What sessions put to rings, where places are free and where they are not to be had.

ghost use Rattle.std.specs.Prelude.{◌≡◌, ◌≤◌, ◌<◌, length};

use super::{Recorded, STATEMENT, behind_connect, end, fresh, session_records, start};
use crate::admin;
use crate::asserts::same;
use crate::levels::said;
use pfs_consumers::Flags;
use pfs_event::{Entry, Event};
use std::alloc::{AllocError, Global};
use std::process::Abort;
use std::test::Fail;

// At first, and with the long history of statements.
const WITH_LONG: u16 = Flags::OPENING.0 | 1 << 5;

// What statements leave by these consumers, and a row, where the store refuses so many puts first.
fn record_statements(
    alloc: Global,
    consumers: u16,
    puts: u64,
    times: &[u64],
    row: u64,
) -> Result<Recorded, Fail>
    requires few { length times.now ≤ 3 }
    requires row { 0 < row }
    requires few_rows { row < 14242 }
{
    let setting = admin::setting_with(alloc, consumers)?;
    let (mut rows, mut admin) = fresh(alloc, &setting, 0, puts)?;
    session_records(alloc, &mut rows, &mut admin, &STATEMENT, times, row)
}

const fn add(row: u64, version: u64) -> Entry {
    Entry::Add { row, version }
}

const fn ring(row: u64, version: u64) -> Entry {
    Entry::Ring { row, version }
}

const fn busy(row: u64) -> Entry {
    Entry::Busy {
        row,
        first: 1,
        second: 1,
    }
}

// A session's statements leave these entries behind its connect's.
fn expect(
    rt: &impl Abort,
    alloc: Global,
    ran: &Recorded,
    entries: &[Entry],
) -> Result<(), AllocError> {
    let list = said(alloc, &ran.log)?;
    let due = behind_connect(alloc, entries)?;
    same(rt, "entries", list.as_slice(), due.as_slice());
    Ok(())
}

#[test]
fn a_statement_stands_in_its_current_place_and_its_history(rt: HostRuntime) -> Result<(), Fail> {
    let ran = record_statements(rt.alloc(), Flags::OPENING.0, 0, &[5], 8486)?;
    let due = [
        start(1),
        ring(8455, 1),
        end(1),
        add(146, 1),
        add(8385, 1),
        ring(8455, 2),
        ring(8486, 1),
    ];
    expect(&rt, rt.alloc(), &ran, &due)?;
    let Some(event) = Event::of_words(&ran.content) else {
        return Err(Fail::from("no event stands there"));
    };
    let numbers = (event.session, event.number, event.last);
    same(&rt, "numbers", numbers, (1, 1, 1));
    let rest = (ran.version, event.class, event.duration);
    same(&rt, "rest", rest, (1, 17, 5));
    Ok(())
}

#[test]
fn a_put_that_is_dropped_leaves_its_place_to_the_next(rt: HostRuntime) -> Result<(), Fail> {
    let ran = record_statements(rt.alloc(), Flags::OPENING.0, 3, &[5, 7], 8486)?;
    let due = [
        start(1),
        busy(8455),
        end(1),
        add(146, 1),
        add(8385, 1),
        busy(8455),
        busy(8486),
        start(2),
        ring(8455, 1),
        end(2),
        add(146, 2),
        add(8385, 2),
        ring(8455, 2),
        ring(8486, 1),
    ];
    expect(&rt, rt.alloc(), &ran, &due)?;
    same(&rt, "event", (ran.version, ran.content[1]), (1, 2));
    Ok(())
}

#[test]
fn a_late_put_of_the_long_history_is_dropped(rt: HostRuntime) -> Result<(), Fail> {
    let ran = record_statements(rt.alloc(), WITH_LONG, 4, &[5, 7], 12_243)?;
    let list = said(rt.alloc(), &ran.log)?;
    let entries = list.as_slice();
    assert_eq!(rt; entries.len(), 6 + 16);
    let late = Entry::Late {
        row: 12_242,
        ticket: 0,
        greater: 1,
    };
    let long = Entry::Long {
        row: 12_243,
        version: 1,
        ticket: 1,
    };
    same(&rt, "entries", (entries[13], entries[21]), (late, long));
    // The ticket stands in word 15, one more.
    let event = (ran.version, ran.content[1], ran.content[15]);
    same(&rt, "event", event, (1, 2, 2));
    Ok(())
}
