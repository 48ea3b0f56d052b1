ghost use Rattle.std.specs.Prelude.{◌<◌};
ghost use Rattle.std.specs.Option.{ForSome};

use crate::putting::put_row;
use crate::settings;
use pfs_classes::{Setting, TableList};
use pfs_containers::{AccountInfo, Content, NameInfo, ThreadInfo};
use pfs_names::NameId;
use pfs_rows::{Reading, Seen, SummaryTable, TableKind};
use pfs_stat::{Stat, zero};
use pfs_summaries::*;
use pfs_text::{Row, RowValue, Rowset};
use std::alloc::Global;
use std::process::Abort;
use std::test::Fail;

const BINLOG: &[u8] = b"wait/io/file/sql/binlog";

// The ids of the names "a", "b", "h1", "h2", "u" and "h".
const A: u64 = 0;

const B: u64 = 1;

const H1: u64 = 2;

const H2: u64 = 3;

const U: u64 = 4;

const H: u64 = 5;

const NAMES: [&str; 6] = ["a", "b", "h1", "h2", "u", "h"];

// A setting without tables.
fn setting(alloc: Global) -> Result<Setting, Fail> {
    let tables = TableList::new(Vec::new(alloc));
    settings::setting(alloc, &NAMES, tables)
}

fn whole(row: u64, content: Content) -> Reading {
    Reading::Slot {
        row,
        seen: Seen::Whole {
            version: 1,
            content,
        },
    }
}

// A cell of so many waits that took equally long.
fn waits(row: u64, count: u64, sum: u64, wait: u64) -> Reading {
    let stat = Stat {
        count,
        sum,
        min: wait,
        max: wait,
        ..zero()
    };
    whole(row, stat.to_words())
}

fn name(row: u64, name: u64, current: u64) -> Reading {
    let info = NameInfo {
        name: NameId(name),
        current,
        total: 1,
    };
    whole(row, info.to_content())
}

fn account(row: u64, user: u64, host: u64, place: u64) -> Reading
    requires { place < 32 }
{
    let info = AccountInfo {
        user_name: NameId(user),
        host_name: NameId(host),
        user: Some(place),
        host: Some(place),
        current: 1,
        total: 1,
    };
    whole(row, info.to_content())
}

// A thread without an account where `account` is none; its user and host have the thread's place.
fn thread(place: u64, user: u64, host: u64, account: Option<u64>) -> Reading
    requires place { place < 32 }
    requires account { ForSome account (λ place. place < 32) }
{
    let info = ThreadInfo {
        session: place + 1,
        account,
        user: Some(place),
        host: Some(place),
        user_name: NameId(user),
        host_name: NameId(host),
    };
    whole(place + 1, info.to_content())
}

fn has_text(row: &Row, text: &[u8]) -> bool {
    for value in row.as_slice() {
        if let RowValue::Text(shown) = value {
            if shown.as_bytes() == text {
                return true;
            }
        }
    }
    false
}

// The rows with this text among their values, a line for each.
fn lines(alloc: Global, rows: &Rowset, text: &[u8]) -> Result<Vec<u8>, NoMemory> {
    let mut out = Vec::new(alloc);
    for row in rows.as_slice() {
        if has_text(row, text) {
            put_row(&mut out, row)?;
        }
    }
    Ok(out)
}

// What a summary of waits shows of the class of the binary log.
fn binlog(
    alloc: Global,
    setting: &Setting,
    which: SummaryTable,
    readings: &[Reading],
) -> Result<Vec<u8>, NoMemory> {
    let rows = summary_rows(alloc, setting, TableKind::Waits, which, readings)?;
    lines(alloc, &rows, BINLOG)
}

fn expect(
    rt: &impl Abort,
    alloc: Global,
    readings: &[Reading],
    cases: &[(SummaryTable, &[u8])],
) -> Result<(), Fail> {
    let setting = setting(alloc)?;
    for (which, want) in cases {
        let shown = binlog(alloc, &setting, *which, readings)?;
        assert_eq!(rt; shown.as_slice(), *want);
    }
    Ok(())
}

// One session of one wait of 120, which each level shows.
#[test]
fn one_wait(rt: HostRuntime) -> Result<(), Fail> {
    let readings = [
        thread(0, U, H, Some(0)),
        account(33, U, H, 0),
        name(65, U, 1),
        name(97, H, 1),
        waits(135, 1, 120, 120),
    ];
    let cases: [(SummaryTable, &[u8]); 5] = [
        (
            SummaryTable::ByThread,
            b"1 wait/io/file/sql/binlog 1 120 120 120 120 \n",
        ),
        (
            SummaryTable::ByAccount,
            b"u h wait/io/file/sql/binlog 1 120 120 120 120 \n",
        ),
        (
            SummaryTable::ByUser,
            b"u wait/io/file/sql/binlog 1 120 120 120 120 \n",
        ),
        (
            SummaryTable::ByHost,
            b"h wait/io/file/sql/binlog 1 120 120 120 120 \n",
        ),
        (
            SummaryTable::Global,
            b"wait/io/file/sql/binlog 1 120 120 120 120 \n",
        ),
    ];
    expect(&rt, rt.alloc(), &readings, &cases)
}

// Three waits of 5 by a session that is gone, whose account was truncated, and another session
// that counted nothing: the user stands by its count alone, before it the name that is less though
// its place is higher.
#[test]
fn truncated_accounts(rt: HostRuntime) -> Result<(), Fail> {
    let readings = [
        name(65, U, 0),
        name(66, A, 1),
        name(97, H, 0),
        name(98, B, 1),
        waits(4_231, 3, 15, 5),
        waits(6_279, 3, 15, 5),
    ];
    let cases: [(SummaryTable, &[u8]); 3] = [
        (
            SummaryTable::ByUser,
            b"a wait/io/file/sql/binlog 0 0 0 0 0 \nu wait/io/file/sql/binlog 3 15 5 5 5 \n",
        ),
        (
            SummaryTable::ByHost,
            b"b wait/io/file/sql/binlog 0 0 0 0 0 \nh wait/io/file/sql/binlog 3 15 5 5 5 \n",
        ),
        (
            SummaryTable::Global,
            b"wait/io/file/sql/binlog 3 15 5 5 5 \n",
        ),
    ];
    expect(&rt, rt.alloc(), &readings, &cases)
}

// Two sessions of one wait of 5, the second without an account.
#[test]
fn lost_account(rt: HostRuntime) -> Result<(), Fail> {
    let readings = [
        thread(0, A, H1, Some(0)),
        thread(1, B, H2, None),
        account(33, A, H1, 0),
        name(65, A, 1),
        name(66, B, 1),
        waits(135, 1, 5, 5),
        waits(199, 1, 5, 5),
    ];
    let cases: [(SummaryTable, &[u8]); 3] = [
        (
            SummaryTable::ByAccount,
            b"a h1 wait/io/file/sql/binlog 1 5 5 5 5 \n",
        ),
        (
            SummaryTable::ByUser,
            b"a wait/io/file/sql/binlog 1 5 5 5 5 \nb wait/io/file/sql/binlog 1 5 5 5 5 \n",
        ),
        (
            SummaryTable::Global,
            b"wait/io/file/sql/binlog 2 10 5 5 5 \n",
        ),
    ];
    expect(&rt, rt.alloc(), &readings, &cases)
}

// Two statements of the first digest text, and two of texts without a place.
#[test]
fn digests(rt: HostRuntime) -> Result<(), Fail> {
    let alloc = rt.alloc();
    let setting = setting(alloc)?;
    let readings = [waits(8_385, 2, 0, 0), waits(8_386, 2, 0, 0)];
    let rows = digest_rows(alloc, &setting, &readings)?;
    assert_eq!(rt; rows.as_slice().len(), 2);
    let mut shown = Vec::new(alloc);
    for row in rows.as_slice() {
        put_row(&mut shown, row)?;
    }
    assert_eq!(rt;
        shown.as_slice(),
        b"NULL NULL NULL 2 0 0 0 0 0 0 0 0 0 0 \nNULL 66cbb3a40d4bbd150b75825ad291a6545399f3098fc1079e4d8b5bb061a6a481 SELECT ? 2 0 0 0 0 0 0 0 0 0 0 \n".as_slice()
    );
    Ok(())
}
