//! Worked rows, and the call that may want memory.
use crate::asserts::same;
use pfs_event::*;
use std::test::Fail;

// The second event of session 7: a wait of class 5 and table 2 in statement 1.
fn wait() -> Event {
    Event {
        session: 7,
        number: 2,
        last: 2,
        class: 5,
        link: 3,
        nesting: 2,
        parent: 1,
        start: 100,
        duration: 30,
        lock: 0,
        errors: 0,
        warnings: 0,
        affected: 0,
        sent: 0,
        examined: 0,
        ticket: 0,
        timed: true,
        read_only: false,
    }
}

fn open(kind: EventKind) -> Open {
    Open {
        kind,
        verdict: Verdict::Attributed,
        event: wait(),
        digested: false,
        placed: true,
    }
}

#[test]
fn words_give_the_event_back(rt: HostRuntime) {
    let words = [7, 2, 2, 197, 9, 0, 1, 100, 30, 0, 0, 0, 0, 0, 0, 0];
    same(&rt, "words", wait().to_words(), words);
    same(&rt, "event", Event::of_words(&words), Some(wait()));
    let mut spare = words;
    spare[5] = 1;
    same(&rt, "spare", Event::of_words(&spare), None);
}

#[test]
fn a_nest_of_one(rt: HostRuntime) -> Result<(), Fail> {
    let alloc = rt.alloc();
    let mut nest = Nest::with_depth(alloc, 1)?;
    let statement = open(EventKind::Statement);
    same(&rt, "nothing", nest.end(), Err(Refused::NothingOpen));
    nest.start(statement)?;
    let wait = nest.start(open(EventKind::Wait));
    same(&rt, "too deep", wait, Err(Refused::TooDeep));
    let transaction = nest.start(open(EventKind::Transaction));
    same(&rt, "order", transaction, Err(Refused::WrongOrder));
    same(&rt, "end", nest.end(), Ok(statement));
    same(&rt, "empty", nest.is_empty(), true);
    Ok(())
}
