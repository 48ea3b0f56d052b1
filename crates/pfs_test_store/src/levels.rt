//! Worked rows, and each call once over a plain store.

ghost use Rattle.std.specs.Prelude.{◌≡◌, IfOk};

use crate::asserts::same;
use pfs_event::{Entry, EventKind};
use pfs_levels::*;
use pfs_rows::{Place, Seen};
use pfs_stat::{Measure, Stat, of_event, zero};
use std::alloc::{AllocError, Global};
use std::test::Fail;

// The entries as they were recorded.
pub(crate) fn said(alloc: Global, log: &Log) -> Result<Vec<Entry>, AllocError>
    ensures { IfOk result (λ list. list.items ≡ log.now.entries) }
{
    let mut list = Vec::new(alloc);
    for at in 0..log.count() {
        list.push(log.entry(at))?;
    }
    Ok(list)
}

fn wait(time: u64) -> Stat {
    of_event(&Measure {
        timed: true,
        wait: time,
        lock: 0,
        errors: 0,
        warnings: 0,
        affected: 0,
        sent: 0,
        examined: 0,
    })
}

#[test]
fn a_move_without_targets_logs_the_take(rt: HostRuntime) -> Result<(), Fail> {
    let alloc = rt.alloc();
    let mut rows = PlainRows::new(alloc, &[0; 160])?;
    let mut log = Log::with_room(alloc, 1)?;
    let nobody = Targets {
        first: None,
        second: None,
    };
    move_up(&mut rows, 129, &nobody, &mut log);
    let due = [Entry::Take {
        row: 129,
        version: 1,
    }];
    assert_eq!(rt; said(alloc, &log)?.as_slice(), due.as_slice());
    Ok(())
}

#[test]
fn a_move_gives_what_it_found(rt: HostRuntime) -> Result<(), Fail> {
    let alloc = rt.alloc();
    let mut rows = PlainRows::new(alloc, &[0; 160])?;
    let mut log = Log::with_room(alloc, 9)?;
    let counted = Added::Counted {
        row: 129,
        version: 1,
    };
    same(&rt, "counted", rows.add_try(129, &wait(5)), counted);
    let both = Targets {
        first: Some(4225),
        second: Some(6273),
    };
    move_up(&mut rows, 129, &both, &mut log);
    clear(&mut rows, 8385, &mut log);
    purge(&mut rows, Place::ThreadInfo(0), &mut log);
    let due = [
        Entry::Take {
            row: 129,
            version: 2,
        },
        Entry::Give {
            row: 4225,
            version: 1,
            source: 129,
        },
        Entry::Give {
            row: 6273,
            version: 1,
            source: 129,
        },
        Entry::Take {
            row: 8385,
            version: 1,
        },
        Entry::Free { row: 1, version: 0 },
    ];
    let list = said(alloc, &log)?;
    same(&rt, "entries", list.as_slice(), due.as_slice());
    let left = Seen::Whole {
        version: 2,
        content: zero().to_words(),
    };
    same(&rt, "left", rows.read(129), left);
    Ok(())
}

#[test]
fn a_plain_store_answers(rt: HostRuntime) -> Result<(), Fail> {
    let alloc = rt.alloc();
    let mut rows = PlainRows::new(alloc, &[3; 160])?;
    same(&rt, "word", rows.load(159), (0, 3));
    same(&rt, "first ticket", rows.ticket(2), 0);
    same(&rt, "second ticket", rows.ticket(2), 1);
    same(&rt, "opening", rows.read(1), Seen::Free { word: 0 });
    same(&rt, "found", rows.take(1), (0, [0; 16]));
    same(&rt, "put", rows.put(1, &[7; 16]), 1);
    same(&rt, "found again", rows.take(1), (1, [7; 16]));
    rows.free(1);
    same(&rt, "freed", rows.read(1), Seen::Free { word: 4 });
    Ok(())
}

#[test]
fn actions_are_counted(rt: HostRuntime) -> Result<(), Fail> {
    let alloc = rt.alloc();
    let mut rows = PlainRows::new(alloc, &[3; 160])?;
    same(&rt, "set", rows.set(33, 1), 1);
    same(&rt, "word", rows.load(33), (1, 1));
    let label = Label {
        session: 1,
        line: 1,
    };
    same(&rt, "first", rows.enter(label), 1);
    rows.leave();
    same(&rt, "second", rows.enter(label), 2);
    Ok(())
}

#[test]
fn a_late_event_is_told_the_greater_ticket(rt: HostRuntime) -> Result<(), Fail> {
    let alloc = rt.alloc();
    let mut rows = PlainRows::new(alloc, &[0; 160])?;
    let mut late = [0; 16];
    late[15] = 1;
    let mut early = [0; 16];
    early[15] = 1001;
    assert_eq!(rt; rows.ring_try(10_242, &early), RingPut::Done { version: 1 });
    assert_eq!(rt;
        rows.ring_try(10_242, &late),
        RingPut::Late {
            ticket: 1000,
            version: 1,
        }
    );
    Ok(())
}

#[test]
fn a_flush_ascends(rt: HostRuntime) -> Result<(), Fail> {
    let alloc = rt.alloc();
    let mut rows = PlainRows::new(alloc, &[0; 160])?;
    let mut log = Log::with_room(alloc, 9)?;
    let up = Up {
        place: 2,
        account: None,
        user: Some(0),
        host: None,
    };
    let threads = vec![in alloc; up]?;
    let statements = vec![in alloc; 3, 5]?;
    let places = Places {
        threads: UpList::new(threads),
        accounts: UpList::new(Vec::new(alloc)),
        users: NumberList::new(Vec::new(alloc)),
        hosts: NumberList::new(Vec::new(alloc)),
        waits: NumberList::new(Vec::new(alloc)),
        stages: NumberList::new(Vec::new(alloc)),
        statements: NumberList::new(statements),
        transactions: NumberList::new(Vec::new(alloc)),
    };
    flush(
        &mut rows,
        EventKind::Statement,
        Level::Thread,
        &places,
        &mut log,
    );
    let due = [
        Entry::Take {
            row: 260,
            version: 1,
        },
        Entry::Take {
            row: 262,
            version: 1,
        },
    ];
    assert_eq!(rt; said(alloc, &log)?.as_slice(), due.as_slice());
    Ok(())
}
