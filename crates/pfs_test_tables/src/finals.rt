//! What a reader reads of a plain store, and the tables and counters at a phase's end.

ghost use Rattle.std.specs.Prelude.{◌≡◌, ◌<◌, ◌≤◌, ◌+◌, ℕ, None};
ghost use Rattle.pfs_levels.specs.Calls.{IsRow};

use crate::putting::put_values;
use crate::settings;
use pfs_classes::{Setting, TableList};
use pfs_finals::{LostCounters, final_tables, lost_rows};
use pfs_journal::{LostReport, TableReport};
use pfs_levels::{Content, Hold, NoMemory, PlainRows, Readable, Rows};
use pfs_reader::{Reader, read_table};
use pfs_rows::{Reading, Seen, Table};
use pfs_stat::{Measure, of_event};
use pfs_text::put_u64;
use std::alloc::Global;
use std::test::Fail;

fn setting(alloc: Global) -> Result<Setting, Fail> {
    let tables = TableList::new(Vec::new(alloc));
    settings::setting(alloc, &["u", "h"], tables)
}

// Writes a row, which is in nobody's hand then.
fn write(rows: &mut PlainRows, row: u64, content: &Content)
    requires known { IsRow row }
    requires away { (r : ℕ) → (⟦<PlainRows as Readable>⟧.seen rows.old).hand r ≡ None }
    requires room { 0 < (⟦<PlainRows as Readable>⟧.seen rows.old).left }
    ensures away { (r : ℕ) → (⟦<PlainRows as Readable>⟧.seen rows.new).hand r ≡ None }
    ensures left { (⟦<PlainRows as Readable>⟧.seen rows.old).left ≤ (⟦<PlainRows as Readable>⟧.seen rows.new).left + 1 }
{
    let _ = rows.take(row);
    let _ = rows.put(row, content);
}

// The infos of one session of u at h, and a statement of 5 picoseconds of its thread.
fn fill(rows: &mut PlainRows)
    requires away { (r : ℕ) → (⟦<PlainRows as Readable>⟧.seen rows.old).hand r ≡ None }
    requires room { 5 ≤ (⟦<PlainRows as Readable>⟧.seen rows.old).left }
    ensures { (r : ℕ) → (⟦<PlainRows as Readable>⟧.seen rows.new).hand r ≡ None }
{
    write(rows, 1, &[1, 1, 1, 1, 0, 1, 0, 0, 0, 0, 0, 0, 0, 0, 0, 0]);
    write(rows, 33, &[0, 1, 1, 1, 1, 2, 0, 0, 0, 0, 0, 0, 0, 0, 0, 0]);
    write(rows, 65, &[0, 1, 2, 0, 0, 0, 0, 0, 0, 0, 0, 0, 0, 0, 0, 0]);
    write(rows, 97, &[1, 1, 2, 0, 0, 0, 0, 0, 0, 0, 0, 0, 0, 0, 0, 0]);
    let _ = rows.add_try(
        146,
        &of_event(&Measure {
            timed: true,
            wait: 5,
            lock: 0,
            errors: 0,
            warnings: 0,
            affected: 0,
            sent: 0,
            examined: 0,
        }),
    );
}

// The name of a table, and its rows.
fn put_table(out: &mut Vec<u8>, table: &TableReport) -> Result<(), NoMemory> {
    out.extend_from_slice(table.name.as_bytes())?;
    out.extend_from_slice(b": ")?;
    for row in table.rows.as_slice() {
        put_values(out, row)?;
    }
    out.extend_from_slice(b"\n")?;
    Ok(())
}

fn put_tables(out: &mut Vec<u8>, tables: &[TableReport]) -> Result<(), NoMemory> {
    for table in tables {
        put_table(out, table)?;
    }
    Ok(())
}

fn put_lost(out: &mut Vec<u8>, lost: &[LostReport]) -> Result<(), NoMemory> {
    for counter in lost {
        out.extend_from_slice(counter.name.as_bytes())?;
        out.extend_from_slice(b" ")?;
        put_u64(out, counter.number)?;
        out.extend_from_slice(b"\n")?;
    }
    Ok(())
}

const TABLES: &[u8] = b"threads: 1 u h YES NO 
accounts: u h 1 2 
users: u 1 2 
hosts: h 1 2 
events_statements_summary_by_thread_by_event_name: 1 statement/sql/select 1 5 5 5 5 0 0 0 0 0 0 
events_statements_summary_by_account_by_event_name: u h statement/sql/select 1 5 5 5 5 0 0 0 0 0 0 
events_statements_summary_by_user_by_event_name: u statement/sql/select 1 5 5 5 5 0 0 0 0 0 0 
events_statements_summary_by_host_by_event_name: h statement/sql/select 1 5 5 5 5 0 0 0 0 0 0 
events_statements_summary_global_by_event_name: statement/sql/select 1 5 5 5 5 0 0 0 0 0 0 
";

// Tables without rows, and rows that count nothing, are left out.
#[test]
fn tables_at_a_phases_end(rt: HostRuntime) -> Result<(), Fail> {
    let alloc = rt.alloc();
    let setting = setting(alloc)?;
    let mut flags = [0; 160];
    flags[1] = 1;
    let mut rows = PlainRows::new(alloc, &flags)?;
    fill(&mut rows);
    let tables = final_tables(alloc, &setting, &mut rows)?;
    let mut out = Vec::new(alloc);
    put_tables(&mut out, tables.as_slice())?;
    assert_eq!(rt; out.as_slice(), TABLES);
    Ok(())
}

// The readings of `accounts` are its 32 infos; the reader stops behind them.
#[test]
fn readings_of_accounts(rt: HostRuntime) -> Result<(), Fail> {
    let alloc = rt.alloc();
    let setting = setting(alloc)?;
    let mut rows = PlainRows::new(alloc, &[0; 160])?;
    let readings = read_table(alloc, &setting, Table::Accounts, &mut rows)?;
    assert_eq!(rt; readings.as_slice().len(), 32);
    let mut reader = Reader::open(&setting, Table::Accounts);
    let first = reader.next(&mut rows);
    let due = Reading::Slot {
        row: 33,
        seen: Seen::Free { word: 0 },
    };
    assert_eq!(rt; first, Some(due));
    Ok(())
}

// Only the counters that aren't 0 are shown.
#[test]
fn lost_counters(rt: HostRuntime) -> Result<(), Fail> {
    let alloc = rt.alloc();
    let setting = setting(alloc)?;
    let counters = LostCounters {
        threads: 1,
        accounts: 0,
        users: 0,
        hosts: 2,
        digests: 0,
        statements: 0,
        waits: 3,
    };
    let lost = lost_rows(alloc, &setting, &counters)?;
    let mut out = Vec::new(alloc);
    put_lost(&mut out, lost.as_slice())?;
    assert_eq!(rt; out.as_slice(), LOST);
    Ok(())
}

const LOST: &[u8] = b"Performance_schema_thread_instances_lost 1
Performance_schema_hosts_lost 2
Performance_schema_locker_lost 3
";
