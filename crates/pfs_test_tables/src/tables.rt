//! Rows of each table by contents as sessions write them.

ghost use Rattle.std.specs.Prelude.{◌≡◌, ◌≤◌};

use crate::putting::put_row;
use crate::settings;
use pfs_classes::{Setting, TableList, TableName};
use pfs_event::{Event, EventKind};
use pfs_rows::{EventTable, Reading, Seen, SummaryTable, Table, TableKind};
use pfs_tables::{NoMemory, listed};
use pfs_text::Text;
use std::alloc::Global;
use std::process::Abort;
use std::test::Fail;

// A setting with one table.
fn setting(alloc: Global) -> Result<Setting, Fail> {
    let mut tables = TableList::new(Vec::new(alloc));
    let schema = Text::from_slice(alloc, b"shop")?;
    let name = Text::from_slice(alloc, b"orders")?;
    tables.push(TableName { schema, name })?;
    settings::setting(alloc, &["u", "h", "b", "a"], tables)
}

fn whole(row: u64, content: [u64; 16]) -> Reading {
    let version = 1;
    let seen = Seen::Whole { version, content };
    Reading::Slot { row, seen }
}

// A timed event of the first session that lies in nothing, and has not ended.
fn event(number: u64, class: u64, start: u64) -> Event
    requires { class ≤ 62 }
    ensures { result.number ≡ number }
{
    Event {
        session: 1,
        number,
        last: 0,
        class,
        link: 0,
        nesting: 0,
        parent: 0,
        start,
        duration: 0,
        lock: 0,
        errors: 0,
        warnings: 0,
        affected: 0,
        sent: 0,
        examined: 0,
        ticket: 0,
        timed: true,
        read_only: false,
    }
}

// It ended when so many events were drawn, and took so long.
fn ended(event: Event, last: u64, duration: u64) -> Event {
    let mut event = event;
    event.last = last;
    event.duration = duration;
    event
}

// It lies in the event of this number.
fn inside(event: Event, kind: EventKind, parent: u64) -> Event {
    let mut event = event;
    event.nesting = kind.nesting_number();
    event.parent = parent;
    event
}

// The rows that a table shows, one a line.
fn shown(
    alloc: Global,
    setting: &Setting,
    table: Table,
    readings: &[Reading],
) -> Result<Vec<u8>, NoMemory> {
    let rows = listed(alloc, setting, table, readings)?;
    let mut out = Vec::new(alloc);
    for row in rows.as_slice() {
        put_row(&mut out, row)?;
    }
    Ok(out)
}

fn expect(
    rt: &impl Abort,
    alloc: Global,
    table: Table,
    readings: &[Reading],
    want: &[u8],
) -> Result<(), Fail> {
    let setting = setting(alloc)?;
    let rows = shown(alloc, &setting, table, readings)?;
    assert_eq!(rt; rows.as_slice(), want);
    Ok(())
}

// A statement of 105 with two stages, in the first of which lies a wait of 20.
#[test]
fn histories(rt: HostRuntime) -> Result<(), Fail> {
    let wait = inside(ended(event(3, 6, 15), 3, 20), EventKind::Stage, 2);
    let init = inside(ended(event(2, 12, 5), 3, 60), EventKind::Statement, 1);
    let executing = inside(ended(event(4, 15, 65), 4, 40), EventKind::Statement, 1);
    let mut statement = ended(event(1, 17, 0), 4, 105);
    statement.link = 1;
    let waits = [whole(8_466, wait.to_words())];
    expect(
        &rt,
        rt.alloc(),
        history(TableKind::Waits),
        &waits,
        b"1 3 3 wait/io/file/sql/binlog 15 35 20 2 STAGE NULL NULL \n",
    )?;
    let stages = [
        whole(8_476, executing.to_words()),
        whole(8_477, init.to_words()),
    ];
    expect(
        &rt,
        rt.alloc(),
        history(TableKind::Stages),
        &stages,
        TWO_STAGES,
    )?;
    let statements = [
        whole(8_486, statement.to_words()),
        whole(8_466, wait.to_words()),
    ];
    expect(
        &rt,
        rt.alloc(),
        history(TableKind::Statements),
        &statements,
        ONE_STATEMENT,
    )
}

const TWO_STAGES: &[u8] =
    b"1 2 3 stage/sql/init 5 65 60 1 STATEMENT \n1 4 4 stage/sql/executing 65 105 40 1 STATEMENT \n";

const ONE_STATEMENT: &[u8] =
    b"1 1 4 statement/sql/select 0 105 105 NULL NULL 0 0 0 0 0 0 66cbb3a40d4bbd150b75825ad291a6545399f3098fc1079e4d8b5bb061a6a481 \n";

fn history(kind: TableKind) -> Table {
    Table::Events(kind, EventTable::History)
}

// Untimed and open, on a table, by ticket; and what gives no row.
#[test]
fn long_history(rt: HostRuntime) -> Result<(), Fail> {
    let mut late = event(7, 10, 50);
    late.link = 1;
    late.ticket = 1_001;
    late.timed = false;
    let mut early = event(6, 10, 40);
    early.ticket = 3;
    let mut unknown = event(5, 40, 30);
    unknown.ticket = 4;
    let mut far = event(4, 10, 20);
    far.link = 2;
    let readings = [
        whole(10_242, late.to_words()),
        Reading::Slot {
            row: 10_243,
            seen: Seen::Free { word: 0 },
        },
        whole(10_244, early.to_words()),
        whole(10_245, unknown.to_words()),
        whole(10_246, far.to_words()),
        whole(10_247, [9; 16]),
        Reading::Slot {
            row: 10_248,
            seen: Seen::Busy {
                first: 2,
                second: 2,
            },
        },
    ];
    expect(
        &rt,
        rt.alloc(),
        Table::Events(TableKind::Waits, EventTable::HistoryLong),
        &readings,
        BY_TICKET,
    )
}

const BY_TICKET: &[u8] =
    b"1 6 NULL wait/io/table/sql/handler 40 NULL NULL NULL NULL NULL NULL \n1 7 NULL wait/io/table/sql/handler NULL NULL NULL NULL NULL shop orders \n";

// The info of a user with the name of this id, and connections now and in all.
fn user(name: u64, current: u64, total: u64) -> [u64; 16] {
    let mut words = [0; 16];
    words[0] = name;
    words[1] = current;
    words[2] = total;
    words
}

// The names "b" and "a" by their bytes; an id that the setting doesn't have gives no row.
#[test]
fn users(rt: HostRuntime) -> Result<(), Fail> {
    let readings = [
        whole(65, user(2, 1, 1)),
        whole(66, user(3, 0, 5)),
        whole(67, user(99, 1, 1)),
    ];
    expect(
        &rt,
        rt.alloc(),
        Table::Users,
        &readings,
        b"a 0 5 \nb 1 1 \n",
    )?;
    expect(&rt, rt.alloc(), Table::Hosts, &readings, b"")
}

// A thread with its word, and an account.
#[test]
fn infos(rt: HostRuntime) -> Result<(), Fail> {
    let mut info = [0; 16];
    info[0] = 1;
    info[5] = 1;
    let readings = [
        whole(1, info),
        Reading::Word {
            word: 1,
            version: 1,
            flags: 1,
        },
    ];
    expect(
        &rt,
        rt.alloc(),
        Table::Threads,
        &readings,
        b"1 u h YES NO \n",
    )?;
    let account = [whole(33, [0, 1, 1, 1, 2, 3, 0, 0, 0, 0, 0, 0, 0, 0, 0, 0])];
    expect(&rt, rt.alloc(), Table::Accounts, &account, b"u h 2 3 \n")
}

// The words of two classes and of the consumers.
#[test]
fn words(rt: HostRuntime) -> Result<(), Fail> {
    let classes = [
        Reading::Word {
            word: 95,
            version: 0,
            flags: 3,
        },
        Reading::Word {
            word: 39,
            version: 1,
            flags: 1,
        },
    ];
    expect(
        &rt,
        rt.alloc(),
        Table::SetupInstruments,
        &classes,
        b"wait/io/file/sql/binlog YES NO \ntransaction YES YES \n",
    )?;
    let consumers = [Reading::Word {
        word: 0,
        version: 0,
        flags: 28_888,
    }];
    let setting = setting(rt.alloc())?;
    let rows = shown(rt.alloc(), &setting, Table::SetupConsumers, &consumers)?;
    assert!(rt;
        rows.as_slice()
            .starts_with(b"events_stages_current NO \nevents_stages_history NO \n")
    );
    Ok(())
}

// Tables whose rows are made elsewhere: the digest table, a summary, and one of which no reading tells.
#[test]
fn other_tables(rt: HostRuntime) -> Result<(), Fail> {
    let mut two = [0; 16];
    two[0] = 2;
    two[2] = 18_446_744_073_709_551_615;
    let readings = [whole(8_383, two), whole(8_385, two)];
    expect(
        &rt,
        rt.alloc(),
        Table::DigestSummary,
        &readings,
        b"NULL NULL NULL 2 0 0 0 0 0 0 0 0 0 0 \n",
    )?;
    let summary = Table::Summary(TableKind::Transactions, SummaryTable::Global);
    expect(
        &rt,
        rt.alloc(),
        summary,
        &readings,
        b"transaction 2 0 0 0 0 2 0 0 0 0 0 0 0 0 0 \n",
    )?;
    expect(&rt, rt.alloc(), Table::SetupActors, &readings, b"")
}
