//! What summaries show of sessions that go on at once, however they do.

use crate::asserts::same;
use crate::orders::{Order, Orders};
use crate::runs::{has, ran, ran_gated, report_of};
use pfs_event::Entry;
use pfs_journal::{BlockReport, EntryList};
use std::alloc::{AllocError, Global};
use std::test::Fail;

/// Two sessions wait while a third empties what the global summary shows.
const EMPTIED: &[u8] =
    b"phase\nsession 1 u h\nrepeat 1000\nstart wait/io/file/sql/binlog\nspend 1\nend\ndone\nsession 2 v h\nrepeat 1000\nstart wait/io/file/sql/binlog\nspend 1\nend\ndone\nsession 3 w h\nsql TRUNCATE events_waits_summary_global_by_event_name\n";

/// The cell of class 6 of the thread that the session's connect gave it.
fn cell_of(entries: &EntryList) -> Option<u64> {
    if entries.count() == 0 {
        return None;
    }
    match entries.entry(0) {
        Entry::Connect {
            thread: Some(thread),
            ..
        } => Some(thread.wrapping_mul(64).wrapping_add(135)),
        _ => None,
    }
}

/// The version at which this row was taken by an action of the block, 0 where it wasn't.
fn taken_at(entries: &EntryList, cell: u64) -> u64 {
    let mut taken = 0;
    for place in 0..entries.count() {
        if let Entry::Take { row, version } = entries.entry(place) {
            if row == cell {
                taken = version;
            }
        }
    }
    taken
}

/// How many events are counted in this row behind that version: those held count with the addition that adds them.
fn counted_behind(entries: &EntryList, cell: u64, taken: u64) -> u64 {
    let mut waiting = 0u64;
    let mut counted = 0u64;
    for place in 0..entries.count() {
        match entries.entry(place) {
            Entry::End { .. } => waiting = waiting.wrapping_add(1),
            Entry::Add { row, version } if row == cell => {
                if version > taken {
                    counted = counted.wrapping_add(waiting);
                }
                waiting = 0;
            }
            _ => {}
        }
    }
    counted
}

/// How many events of the blocks are counted behind the takes of their rows.
fn counted(blocks: &[BlockReport], taker: &EntryList) -> u64 {
    let mut counted = 0u64;
    for block in blocks {
        if let Some(cell) = cell_of(&block.entries) {
            let taken = taken_at(taker, cell);
            counted = counted.wrapping_add(counted_behind(&block.entries, cell, taken));
        }
    }
    counted
}

/// The last lines of a report whose global summary shows so many waits of one picosecond.
fn end_of(alloc: Global, count: u64) -> Result<String, AllocError> {
    if count == 0 {
        return String::from_str(alloc, "\nend\n");
    }
    format!(in alloc;
        "\ntable events_waits_summary_global_by_event_name\nrow 'wait/io/file/sql/binlog' {count} {count} 1 1 1\nend\n"
    )
}

/// The truncation comes behind 333 waits of the first session.
#[test]
fn a_truncation_leaves_what_is_counted_behind_it(rt: HostRuntime) -> Result<(), Fail> {
    let orders = [Order::new((3, 2), (1, 1_001))];
    let gate = Orders { orders: &orders };
    let sink = ran_gated(&rt, &gate, rt.alloc(), EMPTIED)?;
    same(&rt, "order", gate.are_kept(), true);
    let report = report_of(rt.alloc(), sink.bytes())?;
    let Some(phase) = report.parts().phases.as_slice().first() else {
        return Err(Fail::from("there is a phase"));
    };
    let blocks = phase.parts().blocks.as_slice();
    let Some(last) = blocks.last() else {
        return Err(Fail::from("there is a block"));
    };
    let count = counted(blocks, &last.entries);
    same(&rt, "count", count <= 1_667, true);
    let end = end_of(rt.alloc(), count)?;
    same(&rt, "end", sink.bytes().ends_with(end.as_bytes()), true);
    Ok(())
}

/// Five statements in a transaction, each with a stage and a wait: 37 lines.
const TURN: &[u8] =
    b"start transaction rw\nstart statement/sql/select SELECT * FROM orders WHERE customer_id=10 AND quantity>20\nspend 3\nstage stage/sql/init\nstart wait/io/file/sql/binlog\nspend 2\nend\nend 1 0 0 0 4 9\nstart statement/sql/select select a from t where a in (1,2,3)\nspend 3\nstage stage/sql/init\nstart wait/io/file/sql/binlog\nspend 2\nend\nend 1 0 0 0 4 9\nstart statement/sql/select INSERT INTO t VALUES (1,2),(3,4)\nspend 3\nstage stage/sql/init\nstart wait/io/file/sql/binlog\nspend 2\nend\nend 1 0 0 0 4 9\nstart statement/sql/select SELECT f(1), 'x' -- note\nspend 3\nstage stage/sql/init\nstart wait/io/file/sql/binlog\nspend 2\nend\nend 1 0 0 0 4 9\nstart statement/sql/select\nspend 3\nstage stage/sql/init\nstart wait/io/file/sql/binlog\nspend 2\nend\nend 1 0 0 0 4 9\nend\n";

const SELECT: &[u8] = b"sql SELECT * FROM events_statements_summary_by_digest\n";

/// What the last session does in mid phase.
const UPDATE: &[u8] =
    b"sql UPDATE setup_instruments SET ENABLED='NO' WHERE NAME LIKE 'wait/io/%'\n";

/// Appends fourteen turns and a SELECT.
fn put_half(script: &mut Vec<u8>) -> Result<(), AllocError> {
    script.extend_from_slice(b"repeat 14\n")?;
    script.extend_from_slice(TURN)?;
    script.extend_from_slice(b"done\n")?;
    script.extend_from_slice(SELECT)
}

/// A script of sixteen sessions of a little over a thousand lines each.
fn realistic_load(alloc: Global) -> Result<Vec<u8>, AllocError> {
    let mut script = Vec::from_slice(alloc, b"phase\n")?;
    for session in 1..17u64 {
        let head = format!(in alloc; "session {session} u{} h{}\n", session % 4, session % 2)?;
        script.extend_from_slice(head.as_bytes())?;
        put_half(&mut script)?;
        if session == 16 {
            script.extend_from_slice(UPDATE)?;
        }
        put_half(&mut script)?;
    }
    Ok(script)
}

/// What the summaries show of its 448 turns, however the sessions go on: statements, stages and transactions count,
/// each, and so do the statements of each text.
const SHOWN: [&[u8]; 4] = [
    b"\nrow 'stage/sql/init' 2240 4480 2 2 2\n",
    b"\nrow 'statement/sql/select' 2240 11200 5 5 5 2240 0 0 0 8960 20160\n",
    b"\nrow 'transaction' 448 11200 25 25 25 448 11200 25 25 25 0 0 0 0 0\n",
    b"\nrow NULL 'e3b0c44298fc1c149afbf4c8996fb92427ae41e4649b934ca495991b7852b855' '' 448 2240 5 5 5 448 0 0 0 1792 4032\nend\n",
];

#[test]
fn a_realistic_load_counts_all_that_it_lets_through(rt: HostRuntime) -> Result<(), Fail> {
    let script = realistic_load(rt.alloc())?;
    let sink = ran(&rt, rt.alloc(), &script)?;
    for row in &SHOWN {
        same(&rt, "row", has(sink.bytes(), row), true);
    }
    Ok(())
}
