//! Truncations in mid phase, held by a gate before, between and behind another session's waits.

use crate::asserts::same;
use crate::orders::{Order, Orders};
use crate::runs::{has, ran_gated};
use std::test::Fail;

/// The first session waits three times and quits; the second truncates the global summary.
const GLOBAL: &[u8] =
    b"phase\nsession 1 u h\nrepeat 3\nstart wait/io/file/sql/binlog\nspend 5\nend\ndone\nquit\nsession 2 v g\nsql TRUNCATE events_waits_summary_global_by_event_name\nspend 1\n";

/// The name of the global summary, with the first session's three waits.
const ALL: &[u8] =
    b"\ntable events_waits_summary_global_by_event_name\nrow 'wait/io/file/sql/binlog' 3 15 5 5 5\nend\n";

/// The truncation comes once the session has come to its quit: nothing is left.
#[test]
fn a_truncation_behind_the_waits_leaves_none(rt: HostRuntime) -> Result<(), Fail> {
    let orders = [Order::new((2, 2), (1, 11))];
    let gate = Orders { orders: &orders };
    let sink = ran_gated(&rt, &gate, rt.alloc(), GLOBAL)?;
    same(&rt, "order", gate.are_kept(), true);
    let table = b"\ntable events_waits_summary_global_by_event_name\n";
    same(&rt, "none", has(sink.bytes(), table), false);
    Ok(())
}

/// The session begins to wait once the other has gone on behind its truncation.
#[test]
fn a_truncation_before_the_waits_leaves_all(rt: HostRuntime) -> Result<(), Fail> {
    let orders = [Order::new((1, 2), (2, 3))];
    let gate = Orders { orders: &orders };
    let sink = ran_gated(&rt, &gate, rt.alloc(), GLOBAL)?;
    same(&rt, "order", gate.are_kept(), true);
    same(&rt, "all", has(sink.bytes(), ALL), true);
    Ok(())
}

/// The same with a truncation by thread, and no quit.
const BY_THREAD: &[u8] =
    b"phase\nsession 1 u h\nrepeat 3\nstart wait/io/file/sql/binlog\nspend 5\nend\ndone\nsession 2 v g\nsql TRUNCATE events_waits_summary_by_thread_by_event_name\nspend 1\n";

/// What is shown where two of the waits come before it.
const SHOWN: [&[u8]; 3] = [
    b"\nrow 1 'wait/io/file/sql/binlog' 1 5 5 5 5\n",
    b"\nrow 'u' 'h' 'wait/io/file/sql/binlog' 3 15 5 5 5\n",
    ALL,
];

/// The truncation comes once the session has come to its third wait, which is held until the other has gone on.
#[test]
fn a_truncation_between_the_waits_leaves_those_behind_it(rt: HostRuntime) -> Result<(), Fail> {
    let orders = [Order::new((2, 2), (1, 8)), Order::new((1, 8), (2, 3))];
    let gate = Orders { orders: &orders };
    let sink = ran_gated(&rt, &gate, rt.alloc(), BY_THREAD)?;
    same(&rt, "order", gate.are_kept(), true);
    for row in &SHOWN {
        same(&rt, "row", has(sink.bytes(), row), true);
    }
    Ok(())
}
