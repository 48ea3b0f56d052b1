//! Sessions behind gates: two are shown at once, and two that come in another order show the same tables.

use crate::asserts::same;
use crate::orders::{Order, Orders};
use crate::runs::{behind_final, has, ran_gated, ran_in_turn};
use std::test::Fail;

const TWO_WAITS: &[u8] =
    b"phase\nsession 1 u h\nstart wait/io/file/sql/binlog\nspend 5\nend\nsession 2 v h\nstart wait/io/file/sql/binlog\nspend 5\nend\n";

/// Neither session comes to its second line before the other has come to its first. Where sessions go on one after
/// another, in whichever order, the first one comes to the last of its turns.
#[test]
fn two_sessions_meet(rt: HostRuntime) -> Result<(), Fail> {
    let orders = [Order::new((1, 2), (2, 1)), Order::new((2, 2), (1, 1))];
    let gate = Orders { orders: &orders };
    let sink = ran_gated(&rt, &gate, rt.alloc(), TWO_WAITS)?;
    same(&rt, "met", gate.are_kept(), true);
    let row = b"\nrow 'wait/io/file/sql/binlog' 2 10 5 5 5\nend\n";
    same(&rt, "row", has(sink.bytes(), row), true);
    Ok(())
}

/// Scripts whose sessions record, connect where there is room for all, and do nothing that another one sees.
const RECORDING: [&[u8]; 2] = [
    // Events of all kinds, their current places and histories, and one that is left open.
    b"class wait/io/file/x/y YES NO\nconsumer events_waits_current YES\nconsumer events_waits_history YES\nphase\nsession 3 a h1\nstart transaction rw\nstart statement/sql/select SELECT 1\nspend 4\nstage stage/sql/init\nspend 9\nstart wait/io/file/x/y\nspend 2\nend\nend 1 2 3 4 5 6\nend\nsession 1 b h1\nrepeat 12\nstart wait/io/file/sql/binlog\nspend 5\nend\ndone\nstart statement/sql/insert\nsession 2 a h1\nrepeat 12\nstart wait/io/file/sql/binlog\nspend 7\nend\ndone\n",
    // The events aside of both are added to one row.
    b"consumer thread_instrumentation NO\nphase\nsession 1 u h\nrepeat 200\nstart wait/io/file/sql/binlog\nspend 5\nend\ndone\nsession 2 v h\nrepeat 300\nstart wait/io/file/sql/binlog\nspend 7\nend\ndone\n",
];

/// Session 2 connects before session 1, and under `plain` behind it, so places, rows, versions and the numbers of
/// actions differ. The tables have none of them.
#[test]
fn other_places_show_the_same_tables(rt: HostRuntime) -> Result<(), Fail> {
    for script in &RECORDING {
        let orders = [Order::new((1, 1), (2, 2))];
        let gate = Orders { orders: &orders };
        let at_once = ran_gated(&rt, &gate, rt.alloc(), script)?;
        let in_turn = ran_in_turn(rt.alloc(), script)?;
        same(&rt, "order", gate.are_kept(), true);
        same(&rt, "texts", at_once.bytes() == in_turn.bytes(), false);
        let tables = behind_final(at_once.bytes());
        same(&rt, "tables", tables, behind_final(in_turn.bytes()));
    }
    Ok(())
}

/// Room for one account.
const ONE_ACCOUNT: &[u8] =
    b"limit accounts 1\nphase\nsession 1 a h1\nstart wait/io/file/sql/binlog\nspend 5\nend\nsession 2 b h2\nstart wait/io/file/sql/binlog\nspend 5\nend\n";

/// Session 1 connects before session 2, so the account is its own as under `plain`.
#[test]
fn the_first_to_connect_finds_room(rt: HostRuntime) -> Result<(), Fail> {
    let orders = [Order::new((2, 1), (1, 2))];
    let gate = Orders { orders: &orders };
    let at_once = ran_gated(&rt, &gate, rt.alloc(), ONE_ACCOUNT)?;
    let in_turn = ran_in_turn(rt.alloc(), ONE_ACCOUNT)?;
    same(&rt, "order", gate.are_kept(), true);
    let lost = b"\nlost Performance_schema_accounts_lost 1\nend\n";
    same(&rt, "lost", has(at_once.bytes(), lost), true);
    let tables = behind_final(at_once.bytes());
    same(&rt, "tables", tables, behind_final(in_turn.bytes()));
    Ok(())
}
