//! The causes of lines: of each kind one that shows what another session did, and one that doesn't.

use pfs_check_causes::{CauseGivens, Causes, NoMemory};
use pfs_check_floors::{Collected, Seat, Sights};
use pfs_event::Entry;
use std::alloc::Global;

/// What the second session did in the first phase: a row was counted in and released, and a ticket put.
const DONE: [Entry; 3] = [
    Entry::Add {
        row: 135,
        version: 1,
    },
    Entry::Free {
        row: 135,
        version: 1,
    },
    Entry::Long {
        row: 10249,
        version: 1,
        ticket: 1007,
    },
];

/// A line of a session, and whether it shows its cause.
struct Shown {
    session: u64,
    line: Entry,
    is_shown: bool,
}

const SHOWN: [Shown; 8] = [
    // The row was DIRTY, and the second session put it back.
    Shown {
        session: 1,
        line: Entry::Held {
            row: 135,
            first: 1,
            second: 1,
        },
        is_shown: true,
    },
    // The second session holds nothing for what it did itself.
    Shown {
        session: 2,
        line: Entry::Held {
            row: 135,
            first: 1,
            second: 1,
        },
        is_shown: false,
    },
    // The row's version rose between the two words, and it was released there.
    Shown {
        session: 1,
        line: Entry::Busy {
            row: 135,
            first: 2,
            second: 4,
        },
        is_shown: true,
    },
    // No other row was changed.
    Shown {
        session: 1,
        line: Entry::Busy {
            row: 136,
            first: 2,
            second: 4,
        },
        is_shown: false,
    },
    // The greater ticket of that place is the second session's.
    Shown {
        session: 1,
        line: Entry::Late {
            row: 10249,
            ticket: 7,
            greater: 1007,
        },
        is_shown: true,
    },
    // Nobody put this one.
    Shown {
        session: 1,
        line: Entry::Late {
            row: 10249,
            ticket: 7,
            greater: 2007,
        },
        is_shown: false,
    },
    Shown {
        session: 1,
        line: Entry::Vacant { row: 135 },
        is_shown: true,
    },
    // That one was never released.
    Shown {
        session: 1,
        line: Entry::Vacant { row: 136 },
        is_shown: false,
    },
];

/// What the second session gave of causes.
fn causes_of_done(alloc: Global) -> Result<Causes, NoMemory> {
    let mut givens = CauseGivens::new(alloc);
    for entry in &DONE {
        givens.note(alloc, 1, 2, entry)?;
    }
    givens.into_causes(alloc)
}

/// What is known of rows before the first line.
fn sights_of_done(alloc: Global) -> Result<Sights, NoMemory> {
    let mut collected = Collected::new(alloc);
    for entry in &DONE {
        collected.note(1, 0, entry)?;
    }
    collected.into_sights(alloc)
}

#[test]
fn lines_show_what_others_did(rt: HostRuntime) -> Result<(), NoMemory> {
    let causes = causes_of_done(rt.alloc())?;
    let sights = sights_of_done(rt.alloc())?;
    for shown in &SHOWN {
        let seat = Seat {
            phase: 1,
            session: shown.session,
            done: 0,
        };
        assert_eq!(rt;
            causes.show(&sights.rows, seat, &shown.line),
            shown.is_shown
        );
    }
    Ok(())
}
