//! Sessions that connect, wait, truncate and quit over the seats of a board.

use crate::actors::{Run, actor, fresh_run};
use crate::asserts::same;
use crate::levels::said;
use crate::stories::{Gone, Settled, Truncated, come_and_go, settle_behind, truncate_waits};
use pfs_admin::Reply;
use pfs_event::{Entry, Verdict};
use pfs_levels::Added;
use pfs_rows::Seen;
use std::test::Fail;

// An addition to row 135 that is held, by the words 1 and 1.
const HELD: Added = Added::Held {
    row: 135,
    first: 1,
    second: 1,
};

// What a session writes whose only wait is held back, and settled at the pause.
const SETTLED: [Entry; 11] = [
    Entry::Connect {
        action: 1,
        thread: Some(0),
        account: Some(0),
        user: Some(0),
        host: Some(0),
    },
    Entry::Tag { row: 1, version: 1 },
    Entry::Tag {
        row: 33,
        version: 1,
    },
    Entry::Tag {
        row: 65,
        version: 1,
    },
    Entry::Tag {
        row: 97,
        version: 1,
    },
    Entry::Set {
        word: 1,
        version: 1,
        flags: 3,
    },
    Entry::Start {
        event: Some(1),
        verdict: Verdict::Attributed,
        consumers: Some(0),
        thread: Some(1),
        class: Some(0),
        table: None,
    },
    Entry::End {
        event: Some(1),
        last: Some(1),
        consumers: Some(0),
        thread: Some(1),
    },
    Entry::Held {
        row: 135,
        first: 1,
        second: 1,
    },
    Entry::Settle,
    Entry::Add {
        row: 135,
        version: 2,
    },
];

// A row at this version, whose words are these six, and 0 behind them.
fn whole(version: u64, words: [u64; 6]) -> Seen {
    let [first, second, third, fourth, fifth, sixth] = words;
    Seen::Whole {
        version,
        content: [
            first, second, third, fourth, fifth, sixth, 0, 0, 0, 0, 0, 0, 0, 0, 0, 0,
        ],
    }
}

// The session gets the place 0 everywhere: its thread's flags become 3 at version 1, and 0 at version 2. Its thread's
// info is written at version 1, and released there. Its account's is written twice: the names 0 and 1, the places 0 of
// user and host, each plus one, and no connection of one in all.
#[test]
fn a_session_connects_and_quits(rt: HostRuntime) -> Result<(), Fail> {
    let Run {
        board,
        mut root,
        switches,
        mut reader,
        writer,
        tickets,
        mut drawer,
        admin,
        session,
    } = fresh_run(rt.alloc(), 261)?;
    let rows = actor(
        &board,
        &switches,
        &tickets,
        &mut root,
        &mut reader,
        &mut drawer,
    );
    let Gone {
        connected,
        gone,
        lost,
        thread,
        account,
    } = come_and_go(&rt, rows, writer, admin, session);
    same(&rt, "words", (connected, gone, lost), ((1, 3), (2, 0), 0));
    same(&rt, "thread", thread, Seen::Free { word: 4 });
    same(&rt, "account", account, whole(2, [0, 1, 1, 1, 0, 1]));
    Ok(())
}

// Another actor has row 135 in hand as a session's wait ends. The addition is held by the words 1 and 1; at the pause,
// behind that actor's put at version 1, it makes version 2.
#[test]
fn what_another_actor_holds_back_is_settled_at_a_pause(rt: HostRuntime) -> Result<(), Fail> {
    let Run {
        board,
        mut root,
        switches,
        mut reader,
        writer,
        tickets,
        mut drawer,
        admin,
        session,
    } = fresh_run(rt.alloc(), 17)?;
    let rows = actor(
        &board,
        &switches,
        &tickets,
        &mut root,
        &mut reader,
        &mut drawer,
    );
    let other = actor(
        &board,
        &switches,
        &tickets,
        &mut root,
        &mut reader,
        &mut drawer,
    );
    let Settled {
        summary,
        put,
        log,
        cell,
    } = settle_behind(&rt, rows, other, writer, admin, session);
    same(&rt, "held, and put", (summary, put), (Some(HELD), 1));
    same(&rt, "cell", cell, whole(2, [1, 5, 5, 5, 0, 0]));
    let list = said(rt.alloc(), &log)?;
    same(&rt, "entries", list.as_slice(), SETTLED.as_slice());
    Ok(())
}

// A wait of 5 picoseconds stands in row 135, that of class 6 of thread 0, as its session truncates the threads' waits.
// Behind it nothing is counted there, and the account's row of the class, 2183, has what stood there: one wait, and its
// time as the sum, the least and the greatest.
#[test]
fn a_session_truncates(rt: HostRuntime) -> Result<(), Fail> {
    let Run {
        board,
        mut root,
        switches,
        mut reader,
        writer,
        tickets,
        mut drawer,
        admin,
        session,
    } = fresh_run(rt.alloc(), 219)?;
    let rows = actor(
        &board,
        &switches,
        &tickets,
        &mut root,
        &mut reader,
        &mut drawer,
    );
    let Truncated {
        summary,
        reply,
        thread,
        account,
    } = truncate_waits(&rt, rows, writer, admin, session)?;
    let counted = Added::Counted {
        row: 135,
        version: 1,
    };
    let answers = (Some(counted), Reply::Changed(0));
    same(&rt, "answers", (summary, reply), answers);
    same(&rt, "thread", thread, whole(2, [0, 0, u64::MAX, 0, 0, 0]));
    same(&rt, "account", account, whole(1, [1, 5, 5, 5, 0, 0]));
    Ok(())
}
