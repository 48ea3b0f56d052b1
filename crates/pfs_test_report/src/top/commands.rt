//! Which words are a command, and what `plain` and `load` do.

use super::{ONE_WAIT, ONE_WAIT_REPORT, called, words};
use crate::asserts::same;
use pfs_outside::{MemorySink, MemorySource};
use pfs_script::Reason;
use pfs_top::{Status, pfs_plain};
use std::alloc::{AllocError, Global};
use std::test::Fail;

const USAGE: &[u8] = b"usage: run | plain | load N\n";

/// What `load 0` writes before its last line.
const SUMMARIES_OF_0: &[u8] =
    b"table events_waits_summary_global_by_event_name\nrow 'wait/io/file/sql/binlog' 1287 648229 0 503 998\nrow 'wait/io/file/innodb/innodb_data_file' 1359 679973 1 500 999\nrow 'wait/io/file/innodb/innodb_log_file' 1354 684848 0 505 999\ntable events_statements_summary_global_by_event_name\nrow 'statement/sql/select' 978 980569 86 1002 1901 0 0 0 0 0 0\nrow 'statement/sql/insert' 967 973952 12 1007 1992 0 0 0 0 0 0\nrow 'statement/sql/update' 1017 1028992 44 1011 1960 0 0 0 0 0 0\nrow 'statement/sql/delete' 1038 1030558 55 992 1986 0 0 0 0 0 0\ntable events_statements_summary_by_digest\nrow NULL '8303fb72320f6bd02c130fe3d3593dbae2e8f198bc62303324916879c562378c' 'DELETE FROM `orders` WHERE `id` IN (...)' 1038 1030558 55 992 1986 0 0 0 0 0 0\nrow NULL 'df7be164e3c3d8c327f1009c0de2dfe67a2c0a4a2f5e43a1971ad06a368e0a5f' 'INSERT INTO `orders` VALUES (...)' 967 973952 12 1007 1992 0 0 0 0 0 0\nrow NULL '03762375efaba41df3a4aeda78f73ced90bc955293dc2752a445d407330716d9' 'SELECT * FROM `orders` WHERE `id` = ?' 978 980569 86 1002 1901 0 0 0 0 0 0\nrow NULL '8fdc54fd898381afd8f828552a714350ebcc4ec95e87fe44ee63fcbaf2a0f214' 'UPDATE `orders` SET `quantity` = ? WHERE `id` = ?' 1017 1028992 44 1011 1960 0 0 0 0 0 0\n";

/// What `load 18446744073709551615` writes before its last line.
const SUMMARIES_OF_THE_LAST: &[u8] =
    b"table events_waits_summary_global_by_event_name\nrow 'wait/io/file/sql/binlog' 1346 666079 0 494 999\nrow 'wait/io/file/innodb/innodb_data_file' 1296 646807 0 499 999\nrow 'wait/io/file/innodb/innodb_log_file' 1358 682403 0 502 998\ntable events_statements_summary_global_by_event_name\nrow 'statement/sql/select' 988 984805 43 996 1941 0 0 0 0 0 0\nrow 'statement/sql/insert' 968 966685 22 998 1952 0 0 0 0 0 0\nrow 'statement/sql/update' 1014 1008342 46 994 1982 0 0 0 0 0 0\nrow 'statement/sql/delete' 1030 1048506 27 1017 1996 0 0 0 0 0 0\ntable events_statements_summary_by_digest\nrow NULL '03762375efaba41df3a4aeda78f73ced90bc955293dc2752a445d407330716d9' 'SELECT * FROM `orders` WHERE `id` = ?' 988 984805 43 996 1941 0 0 0 0 0 0\nrow NULL 'df7be164e3c3d8c327f1009c0de2dfe67a2c0a4a2f5e43a1971ad06a368e0a5f' 'INSERT INTO `orders` VALUES (...)' 968 966685 22 998 1952 0 0 0 0 0 0\nrow NULL '8fdc54fd898381afd8f828552a714350ebcc4ec95e87fe44ee63fcbaf2a0f214' 'UPDATE `orders` SET `quantity` = ? WHERE `id` = ?' 1014 1008342 46 994 1982 0 0 0 0 0 0\nrow NULL '8303fb72320f6bd02c130fe3d3593dbae2e8f198bc62303324916879c562378c' 'DELETE FROM `orders` WHERE `id` IN (...)' 1030 1048506 27 1017 1996 0 0 0 0 0 0\n";

/// The status and the text of `pfs_plain` on these words.
fn called_plain(
    alloc: Global,
    case: &[&str],
    source: &mut MemorySource,
    room: u64,
    write_fails: &[u64],
) -> Result<(Status, MemorySink), AllocError> {
    let words = words(alloc, case)?;
    let mut sink = MemorySink::new(alloc, room, write_fails)?;
    let status = pfs_plain(alloc, &words, source, &mut sink);
    Ok((status, sink))
}

/// Whether a source of one wait hasn't been read yet: its script is whole, as `plain` reads it now.
fn is_unread(alloc: Global, source: &mut MemorySource) -> Result<bool, AllocError> {
    let (status, sink) = called_plain(alloc, &["plain"], source, 4_000, &[])?;
    Ok(status == Status::Done && sink.bytes() == ONE_WAIT_REPORT)
}

const SCRIPTS: [(&[u8], Status, &[u8]); 3] = [
    (b"", Status::Done, b"pfs-report 1\nend\n"),
    (ONE_WAIT, Status::Done, ONE_WAIT_REPORT),
    (
        b"phase\nsession 1 u h\nend\n",
        Status::BadScript {
            line: 3,
            reason: Reason::BadNesting,
        },
        b"bad script: line 3 reason 9\n",
    ),
];

#[test]
fn plain_writes_what_run_writes(rt: HostRuntime) -> Result<(), Fail> {
    for (script, want, text) in &SCRIPTS {
        for word in ["run", "plain"] {
            let mut source = MemorySource::new(rt.alloc(), script, &[])?;
            let (status, sink) = called(&rt, rt.alloc(), &[word], &mut source, 4_000, &[])?;
            same(&rt, word, status, *want);
            same(&rt, word, sink.bytes(), *text);
        }
        let mut source = MemorySource::new(rt.alloc(), script, &[])?;
        let (status, sink) = called_plain(rt.alloc(), &["plain"], &mut source, 4_000, &[])?;
        same(&rt, "plain alone", status, *want);
        same(&rt, "plain alone", sink.bytes(), *text);
    }
    Ok(())
}

const FAILURES: [(u64, &[u64], &[u64], Status, &[u8]); 3] = [
    (
        1_000,
        &[],
        &[3],
        Status::WriteFault,
        b"pfs-report 1\nphase 1\n",
    ),
    (1_000, &[1], &[], Status::ReadFault, b""),
    (15, &[], &[], Status::WriteFault, b"pfs-report 1\nph"),
];

#[test]
fn failures_end_plain_as_they_end_run(rt: HostRuntime) -> Result<(), Fail> {
    for (room, read_fails, write_fails, want, text) in &FAILURES {
        let mut source = MemorySource::new(rt.alloc(), ONE_WAIT, read_fails)?;
        let (status, sink) = called(&rt, rt.alloc(), &["plain"], &mut source, *room, write_fails)?;
        same(&rt, "plain", status, *want);
        same(&rt, "plain", sink.bytes(), *text);
        let mut source = MemorySource::new(rt.alloc(), ONE_WAIT, read_fails)?;
        let (status, sink) = called_plain(rt.alloc(), &["plain"], &mut source, *room, write_fails)?;
        same(&rt, "plain alone", status, *want);
        same(&rt, "plain alone", sink.bytes(), *text);
    }
    Ok(())
}

const NOT_PLAIN: [&[&str]; 6] = [
    &[],
    &["run"],
    &["load", "0"],
    &["plain", "now"],
    &["plain", "plain"],
    &["Plain"],
];

#[test]
fn pfs_plain_knows_no_other_word(rt: HostRuntime) -> Result<(), Fail> {
    for case in &NOT_PLAIN {
        let mut source = MemorySource::new(rt.alloc(), ONE_WAIT, &[])?;
        let (status, sink) = called_plain(rt.alloc(), case, &mut source, 100, &[])?;
        same(&rt, "status", status, Status::Usage);
        same(&rt, "text", sink.bytes(), USAGE);
        same(&rt, "unread", is_unread(rt.alloc(), &mut source)?, true);
    }
    Ok(())
}

const NO_COMMANDS: [&[&str]; 17] = [
    &[],
    &["run", "now"],
    &["plain", "now"],
    &["-h"],
    &["Run"],
    &["check"],
    &["load"],
    &["load", "x"],
    &["load", "7x"],
    &["load", "18446744073709551616"],
    &["load", "1", "2"],
    &["load", "-1"],
    &["load", "+1"],
    &["load", ""],
    &["-load", "1"],
    &["load 1"],
    &["1"],
];

#[test]
fn other_words_get_the_usage_line(rt: HostRuntime) -> Result<(), Fail> {
    for case in &NO_COMMANDS {
        let mut source = MemorySource::new(rt.alloc(), ONE_WAIT, &[])?;
        let (status, sink) = called(&rt, rt.alloc(), case, &mut source, 100, &[])?;
        same(&rt, "status", status, Status::Usage);
        same(&rt, "text", sink.bytes(), USAGE);
        same(&rt, "unread", is_unread(rt.alloc(), &mut source)?, true);
    }
    Ok(())
}

#[test]
fn a_usage_line_that_is_not_taken_is_a_fault(rt: HostRuntime) -> Result<(), Fail> {
    let mut source = MemorySource::new(rt.alloc(), ONE_WAIT, &[])?;
    let (status, sink) = called(&rt, rt.alloc(), &["run", "now"], &mut source, 10, &[])?;
    same(&rt, "status", status, Status::WriteFault);
    same(&rt, "text", sink.bytes(), b"usage: run".as_slice());
    let (status, sink) = called_plain(rt.alloc(), &["run"], &mut source, 10, &[])?;
    same(&rt, "status", status, Status::WriteFault);
    same(&rt, "text", sink.bytes(), b"usage: run".as_slice());
    same(&rt, "unread", is_unread(rt.alloc(), &mut source)?, true);
    Ok(())
}

const LOADS: [(&str, &[u8]); 3] = [
    ("0", SUMMARIES_OF_0),
    ("18446744073709551615", SUMMARIES_OF_THE_LAST),
    ("00", SUMMARIES_OF_0),
];

#[test]
fn a_load_writes_its_last_summaries(rt: HostRuntime) -> Result<(), Fail> {
    for (number, summaries) in &LOADS {
        let mut source = MemorySource::new(rt.alloc(), ONE_WAIT, &[])?;
        let (status, sink) = called(&rt, rt.alloc(), &["load", number], &mut source, 4_000, &[])?;
        let mut text = Vec::from_slice(rt.alloc(), summaries)?;
        text.extend_from_slice(b"done\n")?;
        same(&rt, "status", status, Status::Done);
        same(&rt, "text", sink.bytes(), text.as_slice());
        same(&rt, "unread", is_unread(rt.alloc(), &mut source)?, true);
    }
    Ok(())
}

const CUT_OFF: [(u64, &[u64], &[u8]); 4] = [
    (4_000, &[1], b""),
    (15, &[], b"table events_wa"),
    (
        4_000,
        &[3],
        b"table events_waits_summary_global_by_event_name\nrow 'wait/io/file/sql/binlog' 1287 648229 0 503 998\n",
    ),
    // All but the last line.
    (4_000, &[15], SUMMARIES_OF_0),
];

#[test]
fn a_load_that_is_not_taken_leaves_a_front(rt: HostRuntime) -> Result<(), Fail> {
    for (room, write_fails, text) in &CUT_OFF {
        let mut source = MemorySource::new(rt.alloc(), b"", &[])?;
        let (status, sink) = called(
            &rt,
            rt.alloc(),
            &["load", "0"],
            &mut source,
            *room,
            write_fails,
        )?;
        same(&rt, "status", status, Status::WriteFault);
        same(&rt, "text", sink.bytes(), *text);
    }
    Ok(())
}
