//! What is shown, of what no clause says: MySQL's own examples of times, words, and whole texts.

use crate::times::put_time;
use crate::{Asked, Choice, Status, Times, choose, view};
use pfs_outside::{MemorySink, MemorySource};
use std::alloc::{AllocError, Global};
use std::fmt::Debug;
use std::process::Abort;
use std::test::Fail;

// Behind a call a test knows no more than before, so a proof of many assertions stays short.
fn same<T: PartialEq + Debug + Drop>(rt: &impl Abort, what: &str, got: T, want: T) {
    assert_eq!(rt; got, want, "{what}");
}

/// The first two are of MySQL's manual; the others stand at the borders of units and of rounding.
const TIMES: [(u64, &[u8]); 12] = [
    (3_501, b"3.50 ns"),
    (188_732_396_662_000, b"3.15 m"),
    (0, b"0 ps"),
    (999, b"999 ps"),
    (1_000, b"1.00 ns"),
    (1_004, b"1.00 ns"),
    (1_005, b"1.01 ns"),
    (999_999, b"1000.00 ns"),
    (30_000_000, b"30.00 us"),
    (2_000_000_000_000, b"2.00 s"),
    (604_800_000_000_000_000, b"1.00 w"),
    (18_446_744_073_709_551_615, b"30.50 w"),
];

#[test]
fn times_are_as_mysql_formats_them(rt: HostRuntime) -> Result<(), Fail> {
    for (picoseconds, text) in &TIMES {
        let mut out = Vec::new(rt.alloc());
        put_time(&mut out, *picoseconds)?;
        same(&rt, "time", out.as_slice(), *text);
    }
    Ok(())
}

/// All that a report has, with units.
fn all<'a>() -> Choice<'a> {
    Choice {
        phase: None,
        table: None,
        times: Times::Units,
    }
}

fn whole<'a>() -> Asked<'a> {
    Asked {
        choice: all(),
        script_bytes: 0,
    }
}

fn words(alloc: Global, each: &[&str]) -> Result<Vec<String>, AllocError> {
    let mut words = Vec::new(alloc);
    for word in each {
        words.push(String::from_str(alloc, word)?)?;
    }
    Ok(words)
}

#[test]
fn words_choose(rt: HostRuntime) -> Result<(), Fail> {
    let asked = words(
        rt.alloc(),
        &[
            "--phase", "2", "--raw", "--script", "12", "--table", "users",
        ],
    )?;
    match choose(&asked, whole()) {
        Some(
            Asked {
                choice,
                script_bytes,
            },
        ) => {
            same(&rt, "script", script_bytes, 12);
            same(&rt, "phase", choice.phase, Some(2));
            same(&rt, "table", choice.table, Some(b"users".as_slice()));
            same(&rt, "times", choice.times, Times::Picoseconds);
        }
        None => return Err(Fail::from("they are options")),
    }
    Ok(())
}

const NO_OPTIONS: [&[&str]; 5] = [
    &["raw"],
    &["--phase"],
    &["--phase", "x"],
    &["--table"],
    &["--raw", "--phase", "18446744073709551616"],
];

#[test]
fn other_words_choose_nothing(rt: HostRuntime) -> Result<(), Fail> {
    for each in &NO_OPTIONS {
        let asked = words(rt.alloc(), each)?;
        same(&rt, "chosen", choose(&asked, whole()).is_some(), false);
    }
    Ok(())
}

/// The text of a report as it is shown.
fn shown(alloc: Global, choice: &Choice<'_>, text: &[u8]) -> Result<(Status, MemorySink), Fail> {
    let mut source = MemorySource::new(alloc, text, &[])?;
    let mut sink = MemorySink::new(alloc, 4_000, &[])?;
    let status = view(alloc, choice, 0, &mut source, &mut sink);
    Ok((status, sink))
}

const REPORT: &[u8] =
    b"pfs-report 1\nphase 1\nsession 1\nsettle\nfinal\ntable users\nrow 'u' 1 1\nrow NULL 10 2\ntable events_waits_summary_by_user_by_event_name\nrow 'u' 'wait/io/file/sql/binlog' 2 3000 1000 1500 2000\ntable mine\nrow 'a\tb\\' 7\nrow\nlost Performance_schema_users_lost 3\nphase 2\nfinal\nend\n";

const SHOWN: &[u8] = b"phase 1

users
+------+---------------------+-------------------+
| USER | CURRENT_CONNECTIONS | TOTAL_CONNECTIONS |
+------+---------------------+-------------------+
| u    |                   1 |                 1 |
| NULL |                  10 |                 2 |
+------+---------------------+-------------------+

events_waits_summary_by_user_by_event_name
+------+-------------------------+------------+----------------+----------------+----------------+----------------+
| USER | EVENT_NAME              | COUNT_STAR | SUM_TIMER_WAIT | MIN_TIMER_WAIT | AVG_TIMER_WAIT | MAX_TIMER_WAIT |
+------+-------------------------+------------+----------------+----------------+----------------+----------------+
| u    | wait/io/file/sql/binlog |          2 |        3.00 ns |        1.00 ns |        1.50 ns |        2.00 ns |
+------+-------------------------+------------+----------------+----------------+----------------+----------------+

mine
+--------+---+
| 1      | 2 |
+--------+---+
| a\\tb\\\\ | 7 |
|
+--------+---+

lost
+-------------------------------+--------+
| COUNTER                       | NUMBER |
+-------------------------------+--------+
| Performance_schema_users_lost |      3 |
+-------------------------------+--------+

phase 2

";

#[test]
fn a_report_is_shown_whole(rt: HostRuntime) -> Result<(), Fail> {
    let (status, sink) = shown(rt.alloc(), &all(), REPORT)?;
    same(&rt, "status", status, Status::Done);
    same(&rt, "text", sink.bytes(), SHOWN);
    Ok(())
}

const USERS: &[u8] = b"phase 1

users
+------+---------------------+-------------------+
| USER | CURRENT_CONNECTIONS | TOTAL_CONNECTIONS |
+------+---------------------+-------------------+
| u    |                   1 |                 1 |
| NULL |                  10 |                 2 |
+------+---------------------+-------------------+

";

#[test]
fn one_table_of_one_phase_is_shown(rt: HostRuntime) -> Result<(), Fail> {
    let choice = Choice {
        phase: Some(1),
        table: Some(b"users"),
        times: Times::Picoseconds,
    };
    let (status, sink) = shown(rt.alloc(), &choice, REPORT)?;
    same(&rt, "status", status, Status::Done);
    same(&rt, "text", sink.bytes(), USERS);
    Ok(())
}

#[test]
fn the_first_wrong_line_is_told(rt: HostRuntime) -> Result<(), Fail> {
    let cut = &REPORT[..REPORT.len() - 4];
    let (status, sink) = shown(rt.alloc(), &all(), cut)?;
    same(&rt, "status", status, Status::BadReport { at: 17 });
    let text = b"this is no report: line 17 is wrong\n";
    same(&rt, "text", sink.bytes(), text.as_slice());
    let (status, _) = shown(rt.alloc(), &all(), b"")?;
    same(&rt, "of nothing", status, Status::BadReport { at: 1 });
    Ok(())
}

const SCRIPT: &[u8] =
    b"phase\nsession 1 u h\nrepeat 2\nsql SELECT USER FROM users\ndone\nsql DELETE FROM accounts\n";

const ANSWERED: &[u8] =
    b"pfs-report 1\nphase 1\nsession 1\nquery\nrows 1\nrow 'u'\nquery\nrows 0\nerror 1142\nfinal\ntable users\nrow 'u' 1 1\nend\n";

const BESIDE: &[u8] = b"phase 1

session 1

1: SELECT USER FROM users
+---+
| 1 |
+---+
| u |
+---+

2: SELECT USER FROM users
no rows

3: DELETE FROM accounts
error 1142: the command is not allowed on this table

users
+------+---------------------+-------------------+
| USER | CURRENT_CONNECTIONS | TOTAL_CONNECTIONS |
+------+---------------------+-------------------+
| u    |                   1 |                 1 |
+------+---------------------+-------------------+

";

/// What is shown of a report behind a script.
fn shown_behind(alloc: Global, script: &[u8], text: &[u8]) -> Result<MemorySink, Fail> {
    let mut whole = Vec::new(alloc);
    whole.extend_from_slice(script)?;
    whole.extend_from_slice(text)?;
    let mut source = MemorySource::new(alloc, whole.as_slice(), &[])?;
    let mut sink = MemorySink::new(alloc, 4_000, &[])?;
    view(alloc, &all(), script.len(), &mut source, &mut sink);
    Ok(sink)
}

#[test]
fn texts_stand_beside_their_answers(rt: HostRuntime) -> Result<(), Fail> {
    let sink = shown_behind(rt.alloc(), SCRIPT, ANSWERED)?;
    same(&rt, "text", sink.bytes(), BESIDE);
    let sink = shown_behind(rt.alloc(), b"phase\n", ANSWERED)?;
    let told =
        b"The script is not that of this report: its texts are left out.\n\nphase 1\n\nusers\n";
    same(&rt, "another", sink.bytes().starts_with(told), true);
    Ok(())
}

const EXPLAINED: &[u8] = b"bad script: line 3 reason 1
Line 3 is the first faulty line: a byte of it is none of a script's.
    end<27>'<9>
";

#[test]
fn a_bad_script_is_explained(rt: HostRuntime) -> Result<(), Fail> {
    let text = b"phase\n\nend\x1b'\t\nbad script: line 3 reason 1\n";
    let mut source = MemorySource::new(rt.alloc(), text, &[])?;
    let mut sink = MemorySink::new(rt.alloc(), 4_000, &[])?;
    let status = view(rt.alloc(), &all(), 14, &mut source, &mut sink);
    let told = Status::BadScript { line: 3, reason: 1 };
    same(&rt, "status", status, told);
    same(&rt, "text", sink.bytes(), EXPLAINED);
    Ok(())
}
