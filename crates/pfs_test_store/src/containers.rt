//! Worked connects and quits.
ghost use Rattle.pfs_rows.specs.Limits.{AreInRange};

use crate::asserts::same;
use pfs_containers::{NameInfo, *};
use pfs_names::NameId;
use pfs_rows::Limits;
use std::test::Fail;

fn limits(accounts: u64, users: u64) -> Limits
    ensures { AreInRange result }
{
    let mut limits = Limits::opening();
    limits.thread_instances = 2;
    limits.accounts = if accounts < 32 { accounts } else { 32 };
    limits.users = if users < 32 { users } else { 32 };
    limits
}

// The slot that a session gets, or leaves.
fn slot_of(seat: Option<Seated>) -> Option<u64> {
    match seat {
        Some(seat) => Some(seat.slot),
        None => None,
    }
}

fn connection_of(seat: Option<Seated>) -> Option<Connection> {
    match seat {
        Some(seat) => Some(seat.connection),
        None => None,
    }
}

#[test]
fn two_sessions_of_one_account(rt: HostRuntime) -> Result<(), Fail> {
    let mut places = Containers::open(rt.alloc(), &limits(32, 32))?;
    let (user, host) = (NameId(5), NameId(7));
    same(
        &rt,
        "first",
        slot_of(places.connect(1, user, host)),
        Some(0),
    );
    let due = Connection {
        number: 2,
        user_name: user,
        host_name: host,
        account: Some(0),
        user: Some(0),
        host: Some(0),
    };
    let second = connection_of(places.connect(2, user, host));
    same(&rt, "second", second, Some(due));
    same(&rt, "no slot", slot_of(places.connect(3, user, host)), None);
    same(&rt, "lost", places.lost().threads, 1);
    same(&rt, "quit", slot_of(places.quit(1)), Some(0));
    same(&rt, "not there", slot_of(places.quit(1)), None);
    let info = NameInfo {
        name: user,
        current: 1,
        total: 2,
    };
    same(&rt, "user", places.user_info(0), Some(info));
    same(
        &rt,
        "third",
        slot_of(places.connect(3, user, host)),
        Some(0),
    );
    Ok(())
}

#[test]
fn what_finds_no_place_is_lost(rt: HostRuntime) -> Result<(), Fail> {
    let mut places = Containers::open(rt.alloc(), &limits(1, 1))?;
    let host = NameId(7);
    let first = slot_of(places.connect(1, NameId(5), host));
    same(&rt, "first", first, Some(0));
    let other = connection_of(places.connect(2, NameId(6), host));
    let due = Connection {
        number: 2,
        user_name: NameId(6),
        host_name: host,
        account: None,
        user: None,
        host: Some(0),
    };
    same(&rt, "other", other, Some(due));
    let lost = Lost {
        threads: 0,
        accounts: 1,
        users: 1,
        hosts: 0,
    };
    same(&rt, "lost", places.lost(), lost);
    Ok(())
}
