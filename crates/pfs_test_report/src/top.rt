ghost use Rattle.std.specs.Prelude.{None, ◌<◌, length};

use crate::asserts::same;
use pfs_journal::{read, write};
use pfs_outside::{Got, MemorySink, MemorySource, Sink, Source};
use pfs_script::Reason;
use pfs_top::*;
use std::alloc::{AllocError, Global};
use std::sync::Wait;
use std::test::Fail;
use std::thread::Threads;

mod commands;
mod devices;
mod queries;
mod rings;
mod statements;

const ONE_WAIT: &[u8] = b"phase\nsession 1 u h\nstart wait/io/file/sql/binlog\nspend 120\nend\n";

/// A report up to the journal of its first session, `1` of user `u` and host `h`.
const FIRST: &[u8] =
    b"pfs-report 1\nphase 1\nsession 1\nconnect 1 0 0 0 0\ntag 1 1\ntag 33 1\ntag 65 1\ntag 97 1\nset 1 1 3\n";

/// The tables of connections where there is just that session.
const TABLES: &[u8] =
    b"final\ntable threads\nrow 1 'u' 'h' 'YES' 'YES'\ntable accounts\nrow 'u' 'h' 1 1\ntable users\nrow 'u' 1 1\ntable hosts\nrow 'h' 1 1\n";

const ONE_WAIT_REPORT: &[u8] =
    b"pfs-report 1\nphase 1\nsession 1\nconnect 1 0 0 0 0\ntag 1 1\ntag 33 1\ntag 65 1\ntag 97 1\nset 1 1 3\nstart 1 attributed 0 1 0 -\nend 1 1 0 1\nadd 135 1\nfinal\ntable threads\nrow 1 'u' 'h' 'YES' 'YES'\ntable accounts\nrow 'u' 'h' 1 1\ntable users\nrow 'u' 1 1\ntable hosts\nrow 'h' 1 1\ntable events_waits_summary_by_thread_by_event_name\nrow 1 'wait/io/file/sql/binlog' 1 120 120 120 120\ntable events_waits_summary_by_account_by_event_name\nrow 'u' 'h' 'wait/io/file/sql/binlog' 1 120 120 120 120\ntable events_waits_summary_by_user_by_event_name\nrow 'u' 'wait/io/file/sql/binlog' 1 120 120 120 120\ntable events_waits_summary_by_host_by_event_name\nrow 'h' 'wait/io/file/sql/binlog' 1 120 120 120 120\ntable events_waits_summary_global_by_event_name\nrow 'wait/io/file/sql/binlog' 1 120 120 120 120\nend\n";

/// The words of a command.
fn words(alloc: Global, texts: &[&str]) -> Result<Vec<String>, AllocError> {
    let mut words = Vec::new(alloc);
    for text in texts {
        words.push(String::from_str(alloc, text)?)?;
    }
    Ok(words)
}

/// The status and the text of `pfs` on these words. The run's store is handed out exactly where `run` is done.
fn called<R: Threads + Wait + Sync>(
    rt: &R,
    alloc: Global,
    case: &[&str],
    source: &mut MemorySource,
    room: u64,
    write_fails: &[u64],
) -> Result<(Status, MemorySink), Fail> {
    let words = words(alloc, case)?;
    let mut sink = MemorySink::new(alloc, room, write_fails)?;
    let end = pfs(rt, alloc, &words, source, &mut sink);
    let is_run = matches!(case, ["run"]);
    if end.store.is_some() != (is_run && end.status == Status::Done) {
        return Err(Fail::from("the store"));
    }
    Ok((end.status, sink))
}

/// The status and the text of `run` on these bytes.
fn ran<R: Threads + Wait + Sync>(
    rt: &R,
    alloc: Global,
    bytes: &[u8],
    room: u64,
    read_fails: &[u64],
    write_fails: &[u64],
) -> Result<(Status, MemorySink), Fail> {
    let mut source = MemorySource::new(alloc, bytes, read_fails)?;
    called(rt, alloc, &["run"], &mut source, room, write_fails)
}

/// Whether this word on this script writes this report. That of `run` is the same every time where no phase has two
/// sessions.
fn reports_by<R: Threads + Wait + Sync>(
    rt: &R,
    alloc: Global,
    word: &str,
    script: &[u8],
    report: &[u8],
) -> Result<bool, Fail> {
    let mut source = MemorySource::new(alloc, script, &[])?;
    let (status, sink) = called(rt, alloc, &[word], &mut source, 20_000, &[])?;
    Ok(status == Status::Done && sink.bytes() == report)
}

/// Whether `run` on this script writes this report.
fn reports<R: Threads + Wait + Sync>(
    rt: &R,
    alloc: Global,
    script: &[u8],
    report: &[u8],
) -> Result<bool, Fail> {
    reports_by(rt, alloc, "run", script, report)
}

/// The report of a script with that one session: what its events put into the journal, and what
/// follows its connection's tables.
fn report_of_one(alloc: Global, entries: &[u8], rest: &[u8]) -> Result<Vec<u8>, AllocError> {
    let mut report = Vec::from_slice(alloc, FIRST)?;
    report.extend_from_slice(entries)?;
    report.extend_from_slice(TABLES)?;
    report.extend_from_slice(rest)?;
    Ok(report)
}

const VERDICTS: [(&[u8], &[u8], &[u8]); 6] = [
    (
        b"consumer thread_instrumentation NO\nphase\nsession 1 u h\nstart wait/io/file/sql/binlog\nspend 5\nend\n",
        b"start 1 aside 0 1 0 -\nend 1 1 0 1\nadd 8327 1\n",
        b"table events_waits_summary_global_by_event_name\nrow 'wait/io/file/sql/binlog' 1 5 5 5 5\nend\n",
    ),
    (
        b"consumer global_instrumentation NO\nphase\nsession 1 u h\nstart wait/io/file/sql/binlog\nspend 5\nend\n",
        b"start - off-global 0 1 0 -\nend - - - -\n",
        b"end\n",
    ),
    (
        b"limit file_classes 1\nphase\nsession 1 u h\nstart wait/io/file/innodb/innodb_data_file\nend\n",
        b"start - lost-class - - - -\nend - - - -\n",
        b"lost Performance_schema_file_classes_lost 2\nend\n",
    ),
    // The first is off, the second is never ended.
    (
        b"phase\nsession 1 u h\nstart wait/synch/cond/sql/COND_thread_cache\nend\nstart wait/io/file/sql/binlog\n",
        b"start - off-class 0 1 0 -\nend - - - -\nstart 1 attributed 0 1 0 -\n",
        b"end\n",
    ),
    (
        b"instrument wait/io/file/% YES NO\nphase\nsession 1 u h\nstart wait/io/file/sql/binlog\nspend 7\nend\nstart wait/io/file/sql/binlog\nspend 7\nend\n",
        b"start 1 attributed 0 1 0 -\nend 1 1 0 1\nadd 135 1\nstart 2 attributed 0 1 0 -\nend 2 2 0 1\nadd 135 2\n",
        b"table events_waits_summary_by_thread_by_event_name\nrow 1 'wait/io/file/sql/binlog' 2 0 0 0 0\ntable events_waits_summary_by_account_by_event_name\nrow 'u' 'h' 'wait/io/file/sql/binlog' 2 0 0 0 0\ntable events_waits_summary_by_user_by_event_name\nrow 'u' 'wait/io/file/sql/binlog' 2 0 0 0 0\ntable events_waits_summary_by_host_by_event_name\nrow 'h' 'wait/io/file/sql/binlog' 2 0 0 0 0\ntable events_waits_summary_global_by_event_name\nrow 'wait/io/file/sql/binlog' 2 0 0 0 0\nend\n",
    ),
    // The second table is one of the schemas that are off at first.
    (
        b"phase\nsession 1 u h\nstart wait/io/table/sql/handler db.t\nspend 3\nend\nstart wait/lock/table/sql/handler mysql.t\nspend 3\nend\nstart wait/lock/table/sql/handler db.t2\nspend 9\nend\n",
        b"start 1 attributed 0 1 0 0\nend 1 1 0 1\nadd 139 1\nstart - off-table 0 1 0 0\nend - - - -\nstart 2 attributed 0 1 0 0\nend 2 2 0 1\nadd 140 1\n",
        b"table events_waits_summary_by_thread_by_event_name\nrow 1 'wait/io/table/sql/handler' 1 3 3 3 3\nrow 1 'wait/lock/table/sql/handler' 1 9 9 9 9\ntable events_waits_summary_by_account_by_event_name\nrow 'u' 'h' 'wait/io/table/sql/handler' 1 3 3 3 3\nrow 'u' 'h' 'wait/lock/table/sql/handler' 1 9 9 9 9\ntable events_waits_summary_by_user_by_event_name\nrow 'u' 'wait/io/table/sql/handler' 1 3 3 3 3\nrow 'u' 'wait/lock/table/sql/handler' 1 9 9 9 9\ntable events_waits_summary_by_host_by_event_name\nrow 'h' 'wait/io/table/sql/handler' 1 3 3 3 3\nrow 'h' 'wait/lock/table/sql/handler' 1 9 9 9 9\ntable events_waits_summary_global_by_event_name\nrow 'wait/io/table/sql/handler' 1 3 3 3 3\nrow 'wait/lock/table/sql/handler' 1 9 9 9 9\nend\n",
    ),
];

#[test]
fn events_count_by_their_verdicts(rt: HostRuntime) -> Result<(), Fail> {
    for (script, entries, rest) in &VERDICTS {
        let report = report_of_one(rt.alloc(), entries, rest)?;
        assert!(rt; reports(&rt, rt.alloc(), script, &report)?);
    }
    Ok(())
}

const NESTS: [(&[u8], &[u8], &[u8]); 4] = [
    (
        b"phase\nsession 1 u h\nstart transaction rw\nstart statement/sql/select\nspend 5\nstage stage/sql/init\nspend 10\nstart wait/io/file/sql/binlog\nspend 20\nend\nspend 30\nstage stage/sql/executing\nspend 40\nend 1 2 3 4 5 6\nstart statement/sql/call_procedure\nstart statement/sp/stmt\nspend 3\nend\nstage stage/sql/end\nstage -\nend\nend\n",
        b"start 1 attributed 0 1 0 -\nring 8465 1\nstart 2 attributed 0 1 0 -\nring 8455 1\nstart 3 attributed 0 1 0 -\nstart 4 attributed 0 1 0 -\nend 4 4 0 1\nadd 135 1\nend 3 4 0 1\nadd 141 1\nstart 5 attributed 0 1 0 -\nend 5 5 0 1\nadd 144 1\nend 2 5 0 1\nadd 146 1\nadd 8386 1\nring 8455 2\nring 8486 1\nstart 6 attributed 0 1 0 -\nring 8455 3\nstart 7 attributed 0 1 0 -\nring 8456 1\nend 7 7 0 1\nadd 152 1\nadd 8386 2\nring 8456 2\nring 8487 1\nstart 8 attributed 0 1 0 -\nend 8 8 0 1\nadd 145 1\nend 6 8 0 1\nadd 151 1\nadd 8386 3\nring 8455 4\nring 8488 1\nend 1 8 0 1\nadd 191 1\nring 8465 2\nring 8496 1\n",
        b"table events_statements_current\nrow 1 6 8 'statement/sql/call_procedure' 105 108 3 1 'TRANSACTION' 0 0 0 0 0 0 'e3b0c44298fc1c149afbf4c8996fb92427ae41e4649b934ca495991b7852b855'\nrow 1 7 7 'statement/sp/stmt' 105 108 3 6 'STATEMENT' 0 0 0 0 0 0 'e3b0c44298fc1c149afbf4c8996fb92427ae41e4649b934ca495991b7852b855'\ntable events_statements_history\nrow 1 2 5 'statement/sql/select' 0 105 105 1 'TRANSACTION' 1 2 3 4 5 6 'e3b0c44298fc1c149afbf4c8996fb92427ae41e4649b934ca495991b7852b855'\nrow 1 6 8 'statement/sql/call_procedure' 105 108 3 1 'TRANSACTION' 0 0 0 0 0 0 'e3b0c44298fc1c149afbf4c8996fb92427ae41e4649b934ca495991b7852b855'\nrow 1 7 7 'statement/sp/stmt' 105 108 3 6 'STATEMENT' 0 0 0 0 0 0 'e3b0c44298fc1c149afbf4c8996fb92427ae41e4649b934ca495991b7852b855'\ntable events_transactions_current\nrow 1 1 8 'transaction' 0 108 108 NULL NULL 'READ WRITE'\ntable events_transactions_history\nrow 1 1 8 'transaction' 0 108 108 NULL NULL 'READ WRITE'\ntable events_waits_summary_by_thread_by_event_name\nrow 1 'wait/io/file/sql/binlog' 1 20 20 20 20\ntable events_waits_summary_by_account_by_event_name\nrow 'u' 'h' 'wait/io/file/sql/binlog' 1 20 20 20 20\ntable events_waits_summary_by_user_by_event_name\nrow 'u' 'wait/io/file/sql/binlog' 1 20 20 20 20\ntable events_waits_summary_by_host_by_event_name\nrow 'h' 'wait/io/file/sql/binlog' 1 20 20 20 20\ntable events_waits_summary_global_by_event_name\nrow 'wait/io/file/sql/binlog' 1 20 20 20 20\ntable events_stages_summary_by_thread_by_event_name\nrow 1 'stage/sql/init' 1 60 60 60 60\nrow 1 'stage/sql/executing' 1 40 40 40 40\nrow 1 'stage/sql/end' 1 0 0 0 0\ntable events_stages_summary_by_account_by_event_name\nrow 'u' 'h' 'stage/sql/init' 1 60 60 60 60\nrow 'u' 'h' 'stage/sql/executing' 1 40 40 40 40\nrow 'u' 'h' 'stage/sql/end' 1 0 0 0 0\ntable events_stages_summary_by_user_by_event_name\nrow 'u' 'stage/sql/init' 1 60 60 60 60\nrow 'u' 'stage/sql/executing' 1 40 40 40 40\nrow 'u' 'stage/sql/end' 1 0 0 0 0\ntable events_stages_summary_by_host_by_event_name\nrow 'h' 'stage/sql/init' 1 60 60 60 60\nrow 'h' 'stage/sql/executing' 1 40 40 40 40\nrow 'h' 'stage/sql/end' 1 0 0 0 0\ntable events_stages_summary_global_by_event_name\nrow 'stage/sql/init' 1 60 60 60 60\nrow 'stage/sql/executing' 1 40 40 40 40\nrow 'stage/sql/end' 1 0 0 0 0\ntable events_statements_summary_by_thread_by_event_name\nrow 1 'statement/sql/select' 1 105 105 105 105 1 2 3 4 5 6\nrow 1 'statement/sql/call_procedure' 1 3 3 3 3 0 0 0 0 0 0\nrow 1 'statement/sp/stmt' 1 3 3 3 3 0 0 0 0 0 0\ntable events_statements_summary_by_account_by_event_name\nrow 'u' 'h' 'statement/sql/select' 1 105 105 105 105 1 2 3 4 5 6\nrow 'u' 'h' 'statement/sql/call_procedure' 1 3 3 3 3 0 0 0 0 0 0\nrow 'u' 'h' 'statement/sp/stmt' 1 3 3 3 3 0 0 0 0 0 0\ntable events_statements_summary_by_user_by_event_name\nrow 'u' 'statement/sql/select' 1 105 105 105 105 1 2 3 4 5 6\nrow 'u' 'statement/sql/call_procedure' 1 3 3 3 3 0 0 0 0 0 0\nrow 'u' 'statement/sp/stmt' 1 3 3 3 3 0 0 0 0 0 0\ntable events_statements_summary_by_host_by_event_name\nrow 'h' 'statement/sql/select' 1 105 105 105 105 1 2 3 4 5 6\nrow 'h' 'statement/sql/call_procedure' 1 3 3 3 3 0 0 0 0 0 0\nrow 'h' 'statement/sp/stmt' 1 3 3 3 3 0 0 0 0 0 0\ntable events_statements_summary_global_by_event_name\nrow 'statement/sql/select' 1 105 105 105 105 1 2 3 4 5 6\nrow 'statement/sql/call_procedure' 1 3 3 3 3 0 0 0 0 0 0\nrow 'statement/sp/stmt' 1 3 3 3 3 0 0 0 0 0 0\ntable events_transactions_summary_by_thread_by_event_name\nrow 1 'transaction' 1 108 108 108 108 1 108 108 108 108 0 0 0 0 0\ntable events_transactions_summary_by_account_by_event_name\nrow 'u' 'h' 'transaction' 1 108 108 108 108 1 108 108 108 108 0 0 0 0 0\ntable events_transactions_summary_by_user_by_event_name\nrow 'u' 'transaction' 1 108 108 108 108 1 108 108 108 108 0 0 0 0 0\ntable events_transactions_summary_by_host_by_event_name\nrow 'h' 'transaction' 1 108 108 108 108 1 108 108 108 108 0 0 0 0 0\ntable events_transactions_summary_global_by_event_name\nrow 'transaction' 1 108 108 108 108 1 108 108 108 108 0 0 0 0 0\ntable events_statements_summary_by_digest\nrow NULL 'e3b0c44298fc1c149afbf4c8996fb92427ae41e4649b934ca495991b7852b855' '' 3 111 3 37 105 1 2 3 4 5 6\nend\n",
    ),
    (
        b"phase\nsession 1 u h\nstart transaction rw\nspend 5\nend\nstart transaction ro\nspend 7\nend\n",
        b"start 1 attributed 0 1 0 -\nring 8465 1\nend 1 1 0 1\nadd 191 1\nring 8465 2\nring 8496 1\nstart 2 attributed 0 1 0 -\nring 8465 3\nend 2 2 0 1\nadd 192 1\nring 8465 4\nring 8497 1\n",
        b"table events_transactions_current\nrow 1 2 2 'transaction' 5 12 7 NULL NULL 'READ ONLY'\ntable events_transactions_history\nrow 1 1 1 'transaction' 0 5 5 NULL NULL 'READ WRITE'\nrow 1 2 2 'transaction' 5 12 7 NULL NULL 'READ ONLY'\ntable events_transactions_summary_by_thread_by_event_name\nrow 1 'transaction' 2 12 5 6 7 1 5 5 5 5 1 7 7 7 7\ntable events_transactions_summary_by_account_by_event_name\nrow 'u' 'h' 'transaction' 2 12 5 6 7 1 5 5 5 5 1 7 7 7 7\ntable events_transactions_summary_by_user_by_event_name\nrow 'u' 'transaction' 2 12 5 6 7 1 5 5 5 5 1 7 7 7 7\ntable events_transactions_summary_by_host_by_event_name\nrow 'h' 'transaction' 2 12 5 6 7 1 5 5 5 5 1 7 7 7 7\ntable events_transactions_summary_global_by_event_name\nrow 'transaction' 2 12 5 6 7 1 5 5 5 5 1 7 7 7 7\nend\n",
    ),
    (
        b"limit statement_stack 2\nphase\nsession 1 u h\nrepeat 2\nstart statement/sql/insert\nspend 3\nstart statement/sp/stmt\nstart statement/sp/stmt\nspend 1\nend\nend\nend 0 1 0 1 0 0\ndone\n",
        b"start 1 attributed 0 1 0 -\nring 8455 1\nstart 2 attributed 0 1 0 -\nring 8456 1\nstart - lost-nested 0 1 0 -\nend - - - -\nend 2 2 0 1\nadd 152 1\nadd 8386 1\nring 8456 2\nring 8486 1\nend 1 2 0 1\nadd 147 1\nadd 8386 2\nring 8455 2\nring 8487 1\nstart 3 attributed 0 1 0 -\nring 8455 3\nstart 4 attributed 0 1 0 -\nring 8456 3\nstart - lost-nested 0 1 0 -\nend - - - -\nend 4 4 0 1\nadd 152 2\nadd 8386 3\nring 8456 4\nring 8488 1\nend 3 4 0 1\nadd 147 2\nadd 8386 4\nring 8455 4\nring 8489 1\n",
        b"table events_statements_current\nrow 1 3 4 'statement/sql/insert' 4 8 4 NULL NULL 0 1 0 1 0 0 'e3b0c44298fc1c149afbf4c8996fb92427ae41e4649b934ca495991b7852b855'\nrow 1 4 4 'statement/sp/stmt' 7 8 1 3 'STATEMENT' 0 0 0 0 0 0 'e3b0c44298fc1c149afbf4c8996fb92427ae41e4649b934ca495991b7852b855'\ntable events_statements_history\nrow 1 1 2 'statement/sql/insert' 0 4 4 NULL NULL 0 1 0 1 0 0 'e3b0c44298fc1c149afbf4c8996fb92427ae41e4649b934ca495991b7852b855'\nrow 1 2 2 'statement/sp/stmt' 3 4 1 1 'STATEMENT' 0 0 0 0 0 0 'e3b0c44298fc1c149afbf4c8996fb92427ae41e4649b934ca495991b7852b855'\nrow 1 3 4 'statement/sql/insert' 4 8 4 NULL NULL 0 1 0 1 0 0 'e3b0c44298fc1c149afbf4c8996fb92427ae41e4649b934ca495991b7852b855'\nrow 1 4 4 'statement/sp/stmt' 7 8 1 3 'STATEMENT' 0 0 0 0 0 0 'e3b0c44298fc1c149afbf4c8996fb92427ae41e4649b934ca495991b7852b855'\ntable events_statements_summary_by_thread_by_event_name\nrow 1 'statement/sql/insert' 2 8 4 4 4 0 2 0 2 0 0\nrow 1 'statement/sp/stmt' 2 2 1 1 1 0 0 0 0 0 0\ntable events_statements_summary_by_account_by_event_name\nrow 'u' 'h' 'statement/sql/insert' 2 8 4 4 4 0 2 0 2 0 0\nrow 'u' 'h' 'statement/sp/stmt' 2 2 1 1 1 0 0 0 0 0 0\ntable events_statements_summary_by_user_by_event_name\nrow 'u' 'statement/sql/insert' 2 8 4 4 4 0 2 0 2 0 0\nrow 'u' 'statement/sp/stmt' 2 2 1 1 1 0 0 0 0 0 0\ntable events_statements_summary_by_host_by_event_name\nrow 'h' 'statement/sql/insert' 2 8 4 4 4 0 2 0 2 0 0\nrow 'h' 'statement/sp/stmt' 2 2 1 1 1 0 0 0 0 0 0\ntable events_statements_summary_global_by_event_name\nrow 'statement/sql/insert' 2 8 4 4 4 0 2 0 2 0 0\nrow 'statement/sp/stmt' 2 2 1 1 1 0 0 0 0 0 0\ntable events_statements_summary_by_digest\nrow NULL 'e3b0c44298fc1c149afbf4c8996fb92427ae41e4649b934ca495991b7852b855' '' 4 10 1 2 4 0 2 0 2 0 0\nlost Performance_schema_nested_statement_lost 2\nend\n",
    ),
    // The greatest number of rounds, with nothing in them.
    (
        b"phase\nsession 1 u h\nrepeat 18446744073709551615\ndone\n",
        b"",
        b"end\n",
    ),
];

#[test]
fn events_of_four_kinds_nest(rt: HostRuntime) -> Result<(), Fail> {
    for (script, entries, rest) in &NESTS {
        let report = report_of_one(rt.alloc(), entries, rest)?;
        assert!(rt; reports(&rt, rt.alloc(), script, &report)?);
    }
    Ok(())
}

const DIGESTS: [(&[u8], &[u8], &[u8]); 3] = [
    // The second text has no place.
    (
        b"limit digests 1\nphase\nsession 1 u h\nstart statement/sql/select SELECT 1\nend\nstart statement/sql/select SELECT 2\nend\nstart statement/sql/delete DELETE FROM t\nend\nstart statement/sql/delete DELETE FROM t\nend\n",
        b"start 1 attributed 0 1 0 -\nring 8455 1\nend 1 1 0 1\nadd 146 1\nadd 8386 1\nring 8455 2\nring 8486 1\nstart 2 attributed 0 1 0 -\nring 8455 3\nend 2 2 0 1\nadd 146 2\nadd 8386 2\nring 8455 4\nring 8487 1\nstart 3 attributed 0 1 0 -\nring 8455 5\nend 3 3 0 1\nadd 149 1\nadd 8385 1\nring 8455 6\nring 8488 1\nstart 4 attributed 0 1 0 -\nring 8455 7\nend 4 4 0 1\nadd 149 2\nadd 8385 2\nring 8455 8\nring 8489 1\n",
        b"table events_statements_current\nrow 1 4 4 'statement/sql/delete' 0 0 0 NULL NULL 0 0 0 0 0 0 NULL\ntable events_statements_history\nrow 1 1 1 'statement/sql/select' 0 0 0 NULL NULL 0 0 0 0 0 0 '66cbb3a40d4bbd150b75825ad291a6545399f3098fc1079e4d8b5bb061a6a481'\nrow 1 2 2 'statement/sql/select' 0 0 0 NULL NULL 0 0 0 0 0 0 '66cbb3a40d4bbd150b75825ad291a6545399f3098fc1079e4d8b5bb061a6a481'\nrow 1 3 3 'statement/sql/delete' 0 0 0 NULL NULL 0 0 0 0 0 0 NULL\nrow 1 4 4 'statement/sql/delete' 0 0 0 NULL NULL 0 0 0 0 0 0 NULL\ntable events_statements_summary_by_thread_by_event_name\nrow 1 'statement/sql/select' 2 0 0 0 0 0 0 0 0 0 0\nrow 1 'statement/sql/delete' 2 0 0 0 0 0 0 0 0 0 0\ntable events_statements_summary_by_account_by_event_name\nrow 'u' 'h' 'statement/sql/select' 2 0 0 0 0 0 0 0 0 0 0\nrow 'u' 'h' 'statement/sql/delete' 2 0 0 0 0 0 0 0 0 0 0\ntable events_statements_summary_by_user_by_event_name\nrow 'u' 'statement/sql/select' 2 0 0 0 0 0 0 0 0 0 0\nrow 'u' 'statement/sql/delete' 2 0 0 0 0 0 0 0 0 0 0\ntable events_statements_summary_by_host_by_event_name\nrow 'h' 'statement/sql/select' 2 0 0 0 0 0 0 0 0 0 0\nrow 'h' 'statement/sql/delete' 2 0 0 0 0 0 0 0 0 0 0\ntable events_statements_summary_global_by_event_name\nrow 'statement/sql/select' 2 0 0 0 0 0 0 0 0 0 0\nrow 'statement/sql/delete' 2 0 0 0 0 0 0 0 0 0 0\ntable events_statements_summary_by_digest\nrow NULL NULL NULL 2 0 0 0 0 0 0 0 0 0 0\nrow NULL '66cbb3a40d4bbd150b75825ad291a6545399f3098fc1079e4d8b5bb061a6a481' 'SELECT ?' 2 0 0 0 0 0 0 0 0 0 0\nlost Performance_schema_digest_lost 2\nend\n",
    ),
    // The rows of digests are cleared, and nothing else is.
    (
        b"phase\nsession 1 u h\nstart statement/sql/select SELECT 1\nend\nsql TRUNCATE events_statements_summary_by_digest\nstart statement/sql/select SELECT 2\nspend 3\nend\n",
        b"start 1 attributed 0 1 0 -\nring 8455 1\nend 1 1 0 1\nadd 146 1\nadd 8386 1\nring 8455 2\nring 8486 1\nact 2\ntake 8385 1\ntake 8386 2\nreply 0\nstart 2 attributed 0 1 0 -\nring 8455 3\nend 2 2 0 1\nadd 146 2\nadd 8386 3\nring 8455 4\nring 8487 1\n",
        b"table events_statements_current\nrow 1 2 2 'statement/sql/select' 0 3 3 NULL NULL 0 0 0 0 0 0 '66cbb3a40d4bbd150b75825ad291a6545399f3098fc1079e4d8b5bb061a6a481'\ntable events_statements_history\nrow 1 1 1 'statement/sql/select' 0 0 0 NULL NULL 0 0 0 0 0 0 '66cbb3a40d4bbd150b75825ad291a6545399f3098fc1079e4d8b5bb061a6a481'\nrow 1 2 2 'statement/sql/select' 0 3 3 NULL NULL 0 0 0 0 0 0 '66cbb3a40d4bbd150b75825ad291a6545399f3098fc1079e4d8b5bb061a6a481'\ntable events_statements_summary_by_thread_by_event_name\nrow 1 'statement/sql/select' 2 3 0 1 3 0 0 0 0 0 0\ntable events_statements_summary_by_account_by_event_name\nrow 'u' 'h' 'statement/sql/select' 2 3 0 1 3 0 0 0 0 0 0\ntable events_statements_summary_by_user_by_event_name\nrow 'u' 'statement/sql/select' 2 3 0 1 3 0 0 0 0 0 0\ntable events_statements_summary_by_host_by_event_name\nrow 'h' 'statement/sql/select' 2 3 0 1 3 0 0 0 0 0 0\ntable events_statements_summary_global_by_event_name\nrow 'statement/sql/select' 2 3 0 1 3 0 0 0 0 0 0\ntable events_statements_summary_by_digest\nrow NULL '66cbb3a40d4bbd150b75825ad291a6545399f3098fc1079e4d8b5bb061a6a481' 'SELECT ?' 1 3 3 3 3 0 0 0 0 0 0\nend\n",
    ),
    (
        b"consumer statements_digest NO\nphase\nsession 1 u h\nstart statement/sql/select SELECT 1\nend\n",
        b"start 1 attributed 0 1 0 -\nring 8455 1\nend 1 1 0 1\nadd 146 1\nring 8455 2\nring 8486 1\n",
        b"table events_statements_current\nrow 1 1 1 'statement/sql/select' 0 0 0 NULL NULL 0 0 0 0 0 0 NULL\ntable events_statements_history\nrow 1 1 1 'statement/sql/select' 0 0 0 NULL NULL 0 0 0 0 0 0 NULL\ntable events_statements_summary_by_thread_by_event_name\nrow 1 'statement/sql/select' 1 0 0 0 0 0 0 0 0 0 0\ntable events_statements_summary_by_account_by_event_name\nrow 'u' 'h' 'statement/sql/select' 1 0 0 0 0 0 0 0 0 0 0\ntable events_statements_summary_by_user_by_event_name\nrow 'u' 'statement/sql/select' 1 0 0 0 0 0 0 0 0 0 0\ntable events_statements_summary_by_host_by_event_name\nrow 'h' 'statement/sql/select' 1 0 0 0 0 0 0 0 0 0 0\ntable events_statements_summary_global_by_event_name\nrow 'statement/sql/select' 1 0 0 0 0 0 0 0 0 0 0\nend\n",
    ),
];

#[test]
fn statements_count_by_their_digests(rt: HostRuntime) -> Result<(), Fail> {
    for (script, entries, rest) in &DIGESTS {
        let report = report_of_one(rt.alloc(), entries, rest)?;
        assert!(rt; reports(&rt, rt.alloc(), script, &report)?);
    }
    Ok(())
}

const SESSIONS: [(&str, &[u8], &[u8]); 5] = [
    ("run", b"", b"pfs-report 1\nend\n"),
    (
        "plain",
        b"limit mutex_classes 3\nclass wait/synch/mutex/a/b YES YES\nclass wait/io/file/x/y YES NO\ninstrument wait/synch/% YES YES\nphase\nsession 3 a h1\nstart wait/io/file/x/y\nspend 9\nend\nsession 1 b h2\nstart wait/synch/mutex/a/b\nend\nstart wait/synch/mutex/sql/LOCK_open\nspend 4\nend\nsession 64 c h3\nspend 1\n",
        b"pfs-report 1\nphase 1\nsession 3\nconnect 1 0 0 0 0\ntag 1 1\ntag 33 1\ntag 65 1\ntag 97 1\nset 1 1 3\nstart 1 attributed 0 1 0 -\nend 1 1 0 1\nadd 153 1\nsession 1\nconnect 2 1 1 1 1\ntag 2 1\ntag 34 1\ntag 66 1\ntag 98 1\nset 2 1 3\nstart - lost-class - - - -\nend - - - -\nstart 1 attributed 0 1 0 -\nend 1 1 0 1\nadd 193 1\nsession 64\nconnect 3 2 2 2 2\ntag 3 1\ntag 35 1\ntag 67 1\ntag 99 1\nset 3 1 3\nfinal\ntable threads\nrow 1 'b' 'h2' 'YES' 'YES'\nrow 3 'a' 'h1' 'YES' 'YES'\nrow 64 'c' 'h3' 'YES' 'YES'\ntable accounts\nrow 'a' 'h1' 1 1\nrow 'b' 'h2' 1 1\nrow 'c' 'h3' 1 1\ntable users\nrow 'a' 1 1\nrow 'b' 1 1\nrow 'c' 1 1\ntable hosts\nrow 'h1' 1 1\nrow 'h2' 1 1\nrow 'h3' 1 1\ntable events_waits_summary_by_thread_by_event_name\nrow 1 'wait/synch/mutex/sql/LOCK_open' 1 4 4 4 4\nrow 3 'wait/io/file/x/y' 1 0 0 0 0\ntable events_waits_summary_by_account_by_event_name\nrow 'a' 'h1' 'wait/io/file/x/y' 1 0 0 0 0\nrow 'b' 'h2' 'wait/synch/mutex/sql/LOCK_open' 1 4 4 4 4\ntable events_waits_summary_by_user_by_event_name\nrow 'a' 'wait/io/file/x/y' 1 0 0 0 0\nrow 'b' 'wait/synch/mutex/sql/LOCK_open' 1 4 4 4 4\ntable events_waits_summary_by_host_by_event_name\nrow 'h1' 'wait/io/file/x/y' 1 0 0 0 0\nrow 'h2' 'wait/synch/mutex/sql/LOCK_open' 1 4 4 4 4\ntable events_waits_summary_global_by_event_name\nrow 'wait/synch/mutex/sql/LOCK_open' 1 4 4 4 4\nrow 'wait/io/file/x/y' 1 0 0 0 0\nlost Performance_schema_mutex_classes_lost 1\nend\n",
    ),
    // The events aside of both sessions are added to one row.
    (
        "plain",
        b"consumer thread_instrumentation NO\nphase\nsession 1 u h\nstart wait/io/file/sql/binlog\nspend 5\nend\nsession 2 v h\nstart wait/io/file/sql/binlog\nspend 7\nend\n",
        b"pfs-report 1\nphase 1\nsession 1\nconnect 1 0 0 0 0\ntag 1 1\ntag 33 1\ntag 65 1\ntag 97 1\nset 1 1 3\nstart 1 aside 0 1 0 -\nend 1 1 0 1\nadd 8327 1\nsession 2\nconnect 2 1 1 1 0\ntag 2 1\ntag 34 1\ntag 66 1\ntag 97 2\nset 2 1 3\nstart 1 aside 0 1 0 -\nend 1 1 0 1\nadd 8327 2\nfinal\ntable threads\nrow 1 'u' 'h' 'YES' 'YES'\nrow 2 'v' 'h' 'YES' 'YES'\ntable accounts\nrow 'u' 'h' 1 1\nrow 'v' 'h' 1 1\ntable users\nrow 'u' 1 1\nrow 'v' 1 1\ntable hosts\nrow 'h' 2 2\ntable events_waits_summary_global_by_event_name\nrow 'wait/io/file/sql/binlog' 2 12 5 6 7\nend\n",
    ),
    // The second account finds no room.
    (
        "plain",
        b"limit accounts 1\nphase\nsession 1 a h1\nstart wait/io/file/sql/binlog\nspend 5\nend\nsession 2 b h2\nstart wait/io/file/sql/binlog\nspend 5\nend\n",
        b"pfs-report 1\nphase 1\nsession 1\nconnect 1 0 0 0 0\ntag 1 1\ntag 33 1\ntag 65 1\ntag 97 1\nset 1 1 3\nstart 1 attributed 0 1 0 -\nend 1 1 0 1\nadd 135 1\nsession 2\nconnect 2 1 - 1 1\ntag 2 1\ntag 66 1\ntag 98 1\nset 2 1 3\nstart 1 attributed 0 1 0 -\nend 1 1 0 1\nadd 199 1\nfinal\ntable threads\nrow 1 'a' 'h1' 'YES' 'YES'\nrow 2 'b' 'h2' 'YES' 'YES'\ntable accounts\nrow 'a' 'h1' 1 1\ntable users\nrow 'a' 1 1\nrow 'b' 1 1\ntable hosts\nrow 'h1' 1 1\nrow 'h2' 1 1\ntable events_waits_summary_by_thread_by_event_name\nrow 1 'wait/io/file/sql/binlog' 1 5 5 5 5\nrow 2 'wait/io/file/sql/binlog' 1 5 5 5 5\ntable events_waits_summary_by_account_by_event_name\nrow 'a' 'h1' 'wait/io/file/sql/binlog' 1 5 5 5 5\ntable events_waits_summary_by_user_by_event_name\nrow 'a' 'wait/io/file/sql/binlog' 1 5 5 5 5\nrow 'b' 'wait/io/file/sql/binlog' 1 5 5 5 5\ntable events_waits_summary_by_host_by_event_name\nrow 'h1' 'wait/io/file/sql/binlog' 1 5 5 5 5\nrow 'h2' 'wait/io/file/sql/binlog' 1 5 5 5 5\ntable events_waits_summary_global_by_event_name\nrow 'wait/io/file/sql/binlog' 2 10 5 5 5\nlost Performance_schema_accounts_lost 1\nend\n",
    ),
    // The session quits in the second phase, and what it counted goes to its account.
    (
        "run",
        b"phase\nsession 1 u h\nstart wait/io/file/sql/binlog\nspend 5\nend\nstart wait/io/file/sql/binlog\nspend 5\nend\nstart wait/io/file/sql/binlog\nspend 5\nend\nphase\nsession 1\nquit\n",
        b"pfs-report 1\nphase 1\nsession 1\nconnect 1 0 0 0 0\ntag 1 1\ntag 33 1\ntag 65 1\ntag 97 1\nset 1 1 3\nstart 1 attributed 0 1 0 -\nend 1 1 0 1\nadd 135 1\nstart 2 attributed 0 1 0 -\nend 2 2 0 1\nadd 135 2\nstart 3 attributed 0 1 0 -\nend 3 3 0 1\nadd 135 3\nfinal\ntable threads\nrow 1 'u' 'h' 'YES' 'YES'\ntable accounts\nrow 'u' 'h' 1 1\ntable users\nrow 'u' 1 1\ntable hosts\nrow 'h' 1 1\ntable events_waits_summary_by_thread_by_event_name\nrow 1 'wait/io/file/sql/binlog' 3 15 5 5 5\ntable events_waits_summary_by_account_by_event_name\nrow 'u' 'h' 'wait/io/file/sql/binlog' 3 15 5 5 5\ntable events_waits_summary_by_user_by_event_name\nrow 'u' 'wait/io/file/sql/binlog' 3 15 5 5 5\ntable events_waits_summary_by_host_by_event_name\nrow 'h' 'wait/io/file/sql/binlog' 3 15 5 5 5\ntable events_waits_summary_global_by_event_name\nrow 'wait/io/file/sql/binlog' 3 15 5 5 5\nphase 2\nsession 1\nact 2\ntake 129 1\ntake 130 1\ntake 131 1\ntake 132 1\ntake 133 1\ntake 134 1\ntake 135 4\ngive 2183 1 135\ntake 136 1\ntake 137 1\ntake 138 1\ntake 139 1\ntake 140 1\ntake 141 1\ntake 142 1\ntake 143 1\ntake 144 1\ntake 145 1\ntake 146 1\ntake 147 1\ntake 148 1\ntake 149 1\ntake 150 1\ntake 151 1\ntake 152 1\ntake 191 1\ntake 192 1\nfree 1 1\ntag 33 2\ntag 65 2\ntag 97 2\nfree 8450 0\nfree 8451 0\nfree 8452 0\nfree 8453 0\nfree 8454 0\nfree 8455 0\nfree 8456 0\nfree 8457 0\nfree 8458 0\nfree 8459 0\nfree 8460 0\nfree 8461 0\nfree 8462 0\nfree 8463 0\nfree 8464 0\nfree 8465 0\nfree 8466 0\nfree 8467 0\nfree 8468 0\nfree 8469 0\nfree 8470 0\nfree 8471 0\nfree 8472 0\nfree 8473 0\nfree 8474 0\nfree 8475 0\nfree 8476 0\nfree 8477 0\nfree 8478 0\nfree 8479 0\nfree 8480 0\nfree 8481 0\nfree 8482 0\nfree 8483 0\nfree 8484 0\nfree 8485 0\nfree 8486 0\nfree 8487 0\nfree 8488 0\nfree 8489 0\nfree 8490 0\nfree 8491 0\nfree 8492 0\nfree 8493 0\nfree 8494 0\nfree 8495 0\nfree 8496 0\nfree 8497 0\nfree 8498 0\nfree 8499 0\nfree 8500 0\nfree 8501 0\nfree 8502 0\nfree 8503 0\nfree 8504 0\nfree 8505 0\nset 1 2 0\nfinal\ntable accounts\nrow 'u' 'h' 0 1\ntable users\nrow 'u' 0 1\ntable hosts\nrow 'h' 0 1\ntable events_waits_summary_by_account_by_event_name\nrow 'u' 'h' 'wait/io/file/sql/binlog' 3 15 5 5 5\ntable events_waits_summary_by_user_by_event_name\nrow 'u' 'wait/io/file/sql/binlog' 3 15 5 5 5\ntable events_waits_summary_by_host_by_event_name\nrow 'h' 'wait/io/file/sql/binlog' 3 15 5 5 5\ntable events_waits_summary_global_by_event_name\nrow 'wait/io/file/sql/binlog' 3 15 5 5 5\nend\n",
    ),
];

#[test]
fn sessions_connect_count_and_quit(rt: HostRuntime) -> Result<(), Fail> {
    for (word, script, report) in &SESSIONS {
        assert!(rt; reports_by(&rt, rt.alloc(), word, script, report)?);
    }
    Ok(())
}

const PHASES: [(&str, &[u8], &[u8]); 2] = [
    // The second session finds no thread slot, the third gets the first one's.
    (
        "plain",
        b"limit thread_instances 1\nphase\nsession 1 u h\nstart wait/io/file/sql/binlog\nspend 5\nend\nsession 2 v g\nstart wait/io/file/sql/binlog\nspend 5\nend\nquit\nphase\nsession 1\nquit\nphase\nsession 3 v g\nstart wait/io/file/sql/binlog\nspend 5\nend\n",
        b"pfs-report 1\nphase 1\nsession 1\nconnect 1 0 0 0 0\ntag 1 1\ntag 33 1\ntag 65 1\ntag 97 1\nset 1 1 3\nstart 1 attributed 0 1 0 -\nend 1 1 0 1\nadd 135 1\nsession 2\nconnect 2 - - - -\nstart - lost-thread - - - -\nend - - - -\nact 3\nfinal\ntable threads\nrow 1 'u' 'h' 'YES' 'YES'\ntable accounts\nrow 'u' 'h' 1 1\ntable users\nrow 'u' 1 1\ntable hosts\nrow 'h' 1 1\ntable events_waits_summary_by_thread_by_event_name\nrow 1 'wait/io/file/sql/binlog' 1 5 5 5 5\ntable events_waits_summary_by_account_by_event_name\nrow 'u' 'h' 'wait/io/file/sql/binlog' 1 5 5 5 5\ntable events_waits_summary_by_user_by_event_name\nrow 'u' 'wait/io/file/sql/binlog' 1 5 5 5 5\ntable events_waits_summary_by_host_by_event_name\nrow 'h' 'wait/io/file/sql/binlog' 1 5 5 5 5\ntable events_waits_summary_global_by_event_name\nrow 'wait/io/file/sql/binlog' 1 5 5 5 5\nlost Performance_schema_thread_instances_lost 1\nphase 2\nsession 1\nact 4\ntake 129 1\ntake 130 1\ntake 131 1\ntake 132 1\ntake 133 1\ntake 134 1\ntake 135 2\ngive 2183 1 135\ntake 136 1\ntake 137 1\ntake 138 1\ntake 139 1\ntake 140 1\ntake 141 1\ntake 142 1\ntake 143 1\ntake 144 1\ntake 145 1\ntake 146 1\ntake 147 1\ntake 148 1\ntake 149 1\ntake 150 1\ntake 151 1\ntake 152 1\ntake 191 1\ntake 192 1\nfree 1 1\ntag 33 2\ntag 65 2\ntag 97 2\nfree 8450 0\nfree 8451 0\nfree 8452 0\nfree 8453 0\nfree 8454 0\nfree 8455 0\nfree 8456 0\nfree 8457 0\nfree 8458 0\nfree 8459 0\nfree 8460 0\nfree 8461 0\nfree 8462 0\nfree 8463 0\nfree 8464 0\nfree 8465 0\nfree 8466 0\nfree 8467 0\nfree 8468 0\nfree 8469 0\nfree 8470 0\nfree 8471 0\nfree 8472 0\nfree 8473 0\nfree 8474 0\nfree 8475 0\nfree 8476 0\nfree 8477 0\nfree 8478 0\nfree 8479 0\nfree 8480 0\nfree 8481 0\nfree 8482 0\nfree 8483 0\nfree 8484 0\nfree 8485 0\nfree 8486 0\nfree 8487 0\nfree 8488 0\nfree 8489 0\nfree 8490 0\nfree 8491 0\nfree 8492 0\nfree 8493 0\nfree 8494 0\nfree 8495 0\nfree 8496 0\nfree 8497 0\nfree 8498 0\nfree 8499 0\nfree 8500 0\nfree 8501 0\nfree 8502 0\nfree 8503 0\nfree 8504 0\nfree 8505 0\nset 1 2 0\nfinal\ntable accounts\nrow 'u' 'h' 0 1\ntable users\nrow 'u' 0 1\ntable hosts\nrow 'h' 0 1\ntable events_waits_summary_by_account_by_event_name\nrow 'u' 'h' 'wait/io/file/sql/binlog' 1 5 5 5 5\ntable events_waits_summary_by_user_by_event_name\nrow 'u' 'wait/io/file/sql/binlog' 1 5 5 5 5\ntable events_waits_summary_by_host_by_event_name\nrow 'h' 'wait/io/file/sql/binlog' 1 5 5 5 5\ntable events_waits_summary_global_by_event_name\nrow 'wait/io/file/sql/binlog' 1 5 5 5 5\nlost Performance_schema_thread_instances_lost 1\nphase 3\nsession 3\nconnect 5 0 1 1 1\ntag 1 2\ntag 34 1\ntag 66 1\ntag 98 1\nset 1 3 3\nstart 1 attributed 0 3 0 -\nend 1 1 0 3\nadd 135 3\nfinal\ntable threads\nrow 3 'v' 'g' 'YES' 'YES'\ntable accounts\nrow 'u' 'h' 0 1\nrow 'v' 'g' 1 1\ntable users\nrow 'u' 0 1\nrow 'v' 1 1\ntable hosts\nrow 'g' 1 1\nrow 'h' 0 1\ntable events_waits_summary_by_thread_by_event_name\nrow 3 'wait/io/file/sql/binlog' 1 5 5 5 5\ntable events_waits_summary_by_account_by_event_name\nrow 'u' 'h' 'wait/io/file/sql/binlog' 1 5 5 5 5\nrow 'v' 'g' 'wait/io/file/sql/binlog' 1 5 5 5 5\ntable events_waits_summary_by_user_by_event_name\nrow 'u' 'wait/io/file/sql/binlog' 1 5 5 5 5\nrow 'v' 'wait/io/file/sql/binlog' 1 5 5 5 5\ntable events_waits_summary_by_host_by_event_name\nrow 'g' 'wait/io/file/sql/binlog' 1 5 5 5 5\nrow 'h' 'wait/io/file/sql/binlog' 1 5 5 5 5\ntable events_waits_summary_global_by_event_name\nrow 'wait/io/file/sql/binlog' 2 10 5 5 5\nlost Performance_schema_thread_instances_lost 1\nend\n",
    ),
    // Events stay open from phase to phase.
    (
        "run",
        b"phase\nsession 1 u h\nstart transaction rw\nspend 3\nstart statement/sql/select\nspend 4\nphase\nsession 1\nstage stage/sql/init\nspend 5\nphase\nsession 2 v g\nstart wait/io/file/sql/binlog\nspend 5\nend\nphase\nsession 1\nend\nend\nquit\n",
        b"pfs-report 1\nphase 1\nsession 1\nconnect 1 0 0 0 0\ntag 1 1\ntag 33 1\ntag 65 1\ntag 97 1\nset 1 1 3\nstart 1 attributed 0 1 0 -\nring 8465 1\nstart 2 attributed 0 1 0 -\nring 8455 1\nfinal\ntable threads\nrow 1 'u' 'h' 'YES' 'YES'\ntable accounts\nrow 'u' 'h' 1 1\ntable users\nrow 'u' 1 1\ntable hosts\nrow 'h' 1 1\ntable events_statements_current\nrow 1 2 NULL 'statement/sql/select' 3 NULL NULL 1 'TRANSACTION' 0 0 0 0 0 0 'e3b0c44298fc1c149afbf4c8996fb92427ae41e4649b934ca495991b7852b855'\ntable events_transactions_current\nrow 1 1 NULL 'transaction' 0 NULL NULL NULL NULL 'READ WRITE'\nphase 2\nsession 1\nstart 3 attributed 0 1 0 -\nfinal\ntable threads\nrow 1 'u' 'h' 'YES' 'YES'\ntable accounts\nrow 'u' 'h' 1 1\ntable users\nrow 'u' 1 1\ntable hosts\nrow 'h' 1 1\ntable events_statements_current\nrow 1 2 NULL 'statement/sql/select' 3 NULL NULL 1 'TRANSACTION' 0 0 0 0 0 0 'e3b0c44298fc1c149afbf4c8996fb92427ae41e4649b934ca495991b7852b855'\ntable events_transactions_current\nrow 1 1 NULL 'transaction' 0 NULL NULL NULL NULL 'READ WRITE'\nphase 3\nsession 2\nconnect 2 1 1 1 1\ntag 2 1\ntag 34 1\ntag 66 1\ntag 98 1\nset 2 1 3\nstart 1 attributed 0 1 0 -\nend 1 1 0 1\nadd 199 1\nfinal\ntable threads\nrow 1 'u' 'h' 'YES' 'YES'\nrow 2 'v' 'g' 'YES' 'YES'\ntable accounts\nrow 'u' 'h' 1 1\nrow 'v' 'g' 1 1\ntable users\nrow 'u' 1 1\nrow 'v' 1 1\ntable hosts\nrow 'g' 1 1\nrow 'h' 1 1\ntable events_statements_current\nrow 1 2 NULL 'statement/sql/select' 3 NULL NULL 1 'TRANSACTION' 0 0 0 0 0 0 'e3b0c44298fc1c149afbf4c8996fb92427ae41e4649b934ca495991b7852b855'\ntable events_transactions_current\nrow 1 1 NULL 'transaction' 0 NULL NULL NULL NULL 'READ WRITE'\ntable events_waits_summary_by_thread_by_event_name\nrow 2 'wait/io/file/sql/binlog' 1 5 5 5 5\ntable events_waits_summary_by_account_by_event_name\nrow 'v' 'g' 'wait/io/file/sql/binlog' 1 5 5 5 5\ntable events_waits_summary_by_user_by_event_name\nrow 'v' 'wait/io/file/sql/binlog' 1 5 5 5 5\ntable events_waits_summary_by_host_by_event_name\nrow 'g' 'wait/io/file/sql/binlog' 1 5 5 5 5\ntable events_waits_summary_global_by_event_name\nrow 'wait/io/file/sql/binlog' 1 5 5 5 5\nphase 4\nsession 1\nend 3 3 0 1\nadd 141 1\nend 2 3 0 1\nadd 146 1\nadd 8386 1\nring 8455 2\nring 8486 1\nend 1 3 0 1\nadd 191 1\nring 8465 2\nring 8496 1\nact 3\ntake 129 1\ntake 130 1\ntake 131 1\ntake 132 1\ntake 133 1\ntake 134 1\ntake 135 1\ntake 136 1\ntake 137 1\ntake 138 1\ntake 139 1\ntake 140 1\ntake 141 2\ngive 2189 1 141\ntake 142 1\ntake 143 1\ntake 144 1\ntake 145 1\ntake 146 2\ngive 2194 1 146\ntake 147 1\ntake 148 1\ntake 149 1\ntake 150 1\ntake 151 1\ntake 152 1\ntake 191 2\ngive 2239 1 191\ntake 192 1\nfree 1 1\ntag 33 2\ntag 65 2\ntag 97 2\nfree 8450 0\nfree 8451 0\nfree 8452 0\nfree 8453 0\nfree 8454 0\nfree 8455 2\nfree 8456 0\nfree 8457 0\nfree 8458 0\nfree 8459 0\nfree 8460 0\nfree 8461 0\nfree 8462 0\nfree 8463 0\nfree 8464 0\nfree 8465 2\nfree 8466 0\nfree 8467 0\nfree 8468 0\nfree 8469 0\nfree 8470 0\nfree 8471 0\nfree 8472 0\nfree 8473 0\nfree 8474 0\nfree 8475 0\nfree 8476 0\nfree 8477 0\nfree 8478 0\nfree 8479 0\nfree 8480 0\nfree 8481 0\nfree 8482 0\nfree 8483 0\nfree 8484 0\nfree 8485 0\nfree 8486 1\nfree 8487 0\nfree 8488 0\nfree 8489 0\nfree 8490 0\nfree 8491 0\nfree 8492 0\nfree 8493 0\nfree 8494 0\nfree 8495 0\nfree 8496 1\nfree 8497 0\nfree 8498 0\nfree 8499 0\nfree 8500 0\nfree 8501 0\nfree 8502 0\nfree 8503 0\nfree 8504 0\nfree 8505 0\nset 1 2 0\nfinal\ntable threads\nrow 2 'v' 'g' 'YES' 'YES'\ntable accounts\nrow 'u' 'h' 0 1\nrow 'v' 'g' 1 1\ntable users\nrow 'u' 0 1\nrow 'v' 1 1\ntable hosts\nrow 'g' 1 1\nrow 'h' 0 1\ntable events_waits_summary_by_thread_by_event_name\nrow 2 'wait/io/file/sql/binlog' 1 5 5 5 5\ntable events_waits_summary_by_account_by_event_name\nrow 'v' 'g' 'wait/io/file/sql/binlog' 1 5 5 5 5\ntable events_waits_summary_by_user_by_event_name\nrow 'v' 'wait/io/file/sql/binlog' 1 5 5 5 5\ntable events_waits_summary_by_host_by_event_name\nrow 'g' 'wait/io/file/sql/binlog' 1 5 5 5 5\ntable events_waits_summary_global_by_event_name\nrow 'wait/io/file/sql/binlog' 1 5 5 5 5\ntable events_stages_summary_by_account_by_event_name\nrow 'u' 'h' 'stage/sql/init' 1 5 5 5 5\ntable events_stages_summary_by_user_by_event_name\nrow 'u' 'stage/sql/init' 1 5 5 5 5\ntable events_stages_summary_by_host_by_event_name\nrow 'h' 'stage/sql/init' 1 5 5 5 5\ntable events_stages_summary_global_by_event_name\nrow 'stage/sql/init' 1 5 5 5 5\ntable events_statements_summary_by_account_by_event_name\nrow 'u' 'h' 'statement/sql/select' 1 9 9 9 9 0 0 0 0 0 0\ntable events_statements_summary_by_user_by_event_name\nrow 'u' 'statement/sql/select' 1 9 9 9 9 0 0 0 0 0 0\ntable events_statements_summary_by_host_by_event_name\nrow 'h' 'statement/sql/select' 1 9 9 9 9 0 0 0 0 0 0\ntable events_statements_summary_global_by_event_name\nrow 'statement/sql/select' 1 9 9 9 9 0 0 0 0 0 0\ntable events_transactions_summary_by_account_by_event_name\nrow 'u' 'h' 'transaction' 1 12 12 12 12 1 12 12 12 12 0 0 0 0 0\ntable events_transactions_summary_by_user_by_event_name\nrow 'u' 'transaction' 1 12 12 12 12 1 12 12 12 12 0 0 0 0 0\ntable events_transactions_summary_by_host_by_event_name\nrow 'h' 'transaction' 1 12 12 12 12 1 12 12 12 12 0 0 0 0 0\ntable events_transactions_summary_global_by_event_name\nrow 'transaction' 1 12 12 12 12 1 12 12 12 12 0 0 0 0 0\ntable events_statements_summary_by_digest\nrow NULL 'e3b0c44298fc1c149afbf4c8996fb92427ae41e4649b934ca495991b7852b855' '' 1 9 9 9 9 0 0 0 0 0 0\nend\n",
    ),
];

#[test]
fn phases_go_on_from_one_another(rt: HostRuntime) -> Result<(), Fail> {
    for (word, script, report) in &PHASES {
        assert!(rt; reports_by(&rt, rt.alloc(), word, script, report)?);
    }
    Ok(())
}

const TRUNCATIONS: [(&str, &[u8], &[u8]); 3] = [
    // By thread, and in the next phase by host: by user and globally all is shown still.
    (
        "run",
        b"phase\nsession 1 u h\nstart wait/io/file/sql/binlog\nspend 5\nend\nstart wait/io/file/sql/binlog\nspend 5\nend\nstart wait/io/file/sql/binlog\nspend 5\nend\nsql TRUNCATE events_waits_summary_by_thread_by_event_name\nstart wait/io/file/sql/binlog\nspend 5\nend\nstart wait/io/file/sql/binlog\nspend 5\nend\nphase\nsession 1\nsql TRUNCATE events_waits_summary_by_host_by_event_name\nstart wait/io/file/sql/binlog\nspend 5\nend\n",
        b"pfs-report 1\nphase 1\nsession 1\nconnect 1 0 0 0 0\ntag 1 1\ntag 33 1\ntag 65 1\ntag 97 1\nset 1 1 3\nstart 1 attributed 0 1 0 -\nend 1 1 0 1\nadd 135 1\nstart 2 attributed 0 1 0 -\nend 2 2 0 1\nadd 135 2\nstart 3 attributed 0 1 0 -\nend 3 3 0 1\nadd 135 3\nact 2\ntake 129 1\ntake 130 1\ntake 131 1\ntake 132 1\ntake 133 1\ntake 134 1\ntake 135 4\ngive 2183 1 135\ntake 136 1\ntake 137 1\ntake 138 1\ntake 139 1\ntake 140 1\nreply 0\nstart 4 attributed 0 1 0 -\nend 4 4 0 1\nadd 135 5\nstart 5 attributed 0 1 0 -\nend 5 5 0 1\nadd 135 6\nfinal\ntable threads\nrow 1 'u' 'h' 'YES' 'YES'\ntable accounts\nrow 'u' 'h' 1 1\ntable users\nrow 'u' 1 1\ntable hosts\nrow 'h' 1 1\ntable events_waits_summary_by_thread_by_event_name\nrow 1 'wait/io/file/sql/binlog' 2 10 5 5 5\ntable events_waits_summary_by_account_by_event_name\nrow 'u' 'h' 'wait/io/file/sql/binlog' 5 25 5 5 5\ntable events_waits_summary_by_user_by_event_name\nrow 'u' 'wait/io/file/sql/binlog' 5 25 5 5 5\ntable events_waits_summary_by_host_by_event_name\nrow 'h' 'wait/io/file/sql/binlog' 5 25 5 5 5\ntable events_waits_summary_global_by_event_name\nrow 'wait/io/file/sql/binlog' 5 25 5 5 5\nphase 2\nsession 1\nact 3\ntake 129 2\ntake 130 2\ntake 131 2\ntake 132 2\ntake 133 2\ntake 134 2\ntake 135 7\ngive 2183 2 135\ntake 136 2\ntake 137 2\ntake 138 2\ntake 139 2\ntake 140 2\ntake 2177 1\ntake 2178 1\ntake 2179 1\ntake 2180 1\ntake 2181 1\ntake 2182 1\ntake 2183 3\ngive 4231 1 2183\ngive 6279 1 2183\ntake 2184 1\ntake 2185 1\ntake 2186 1\ntake 2187 1\ntake 2188 1\ntake 6273 1\ntake 6274 1\ntake 6275 1\ntake 6276 1\ntake 6277 1\ntake 6278 1\ntake 6279 2\ngive 8327 1 6279\ntake 6280 1\ntake 6281 1\ntake 6282 1\ntake 6283 1\ntake 6284 1\nreply 0\nstart 6 attributed 0 1 0 -\nend 6 6 0 1\nadd 135 8\nfinal\ntable threads\nrow 1 'u' 'h' 'YES' 'YES'\ntable accounts\nrow 'u' 'h' 1 1\ntable users\nrow 'u' 1 1\ntable hosts\nrow 'h' 1 1\ntable events_waits_summary_by_thread_by_event_name\nrow 1 'wait/io/file/sql/binlog' 1 5 5 5 5\ntable events_waits_summary_by_account_by_event_name\nrow 'u' 'h' 'wait/io/file/sql/binlog' 1 5 5 5 5\ntable events_waits_summary_by_user_by_event_name\nrow 'u' 'wait/io/file/sql/binlog' 6 30 5 5 5\ntable events_waits_summary_by_host_by_event_name\nrow 'h' 'wait/io/file/sql/binlog' 1 5 5 5 5\ntable events_waits_summary_global_by_event_name\nrow 'wait/io/file/sql/binlog' 6 30 5 5 5\nend\n",
    ),
    // The account whose session has quit is freed; its user and its host have what it counted.
    (
        "run",
        b"phase\nsession 1 u h\nstart wait/io/file/sql/binlog\nspend 5\nend\nstart wait/io/file/sql/binlog\nspend 5\nend\nstart wait/io/file/sql/binlog\nspend 5\nend\nquit\nphase\nsession 2 a b\nsql TRUNCATE accounts\n",
        b"pfs-report 1\nphase 1\nsession 1\nconnect 1 0 0 0 0\ntag 1 1\ntag 33 1\ntag 65 1\ntag 97 1\nset 1 1 3\nstart 1 attributed 0 1 0 -\nend 1 1 0 1\nadd 135 1\nstart 2 attributed 0 1 0 -\nend 2 2 0 1\nadd 135 2\nstart 3 attributed 0 1 0 -\nend 3 3 0 1\nadd 135 3\nact 2\ntake 129 1\ntake 130 1\ntake 131 1\ntake 132 1\ntake 133 1\ntake 134 1\ntake 135 4\ngive 2183 1 135\ntake 136 1\ntake 137 1\ntake 138 1\ntake 139 1\ntake 140 1\ntake 141 1\ntake 142 1\ntake 143 1\ntake 144 1\ntake 145 1\ntake 146 1\ntake 147 1\ntake 148 1\ntake 149 1\ntake 150 1\ntake 151 1\ntake 152 1\ntake 191 1\ntake 192 1\nfree 1 1\ntag 33 2\ntag 65 2\ntag 97 2\nfree 8450 0\nfree 8451 0\nfree 8452 0\nfree 8453 0\nfree 8454 0\nfree 8455 0\nfree 8456 0\nfree 8457 0\nfree 8458 0\nfree 8459 0\nfree 8460 0\nfree 8461 0\nfree 8462 0\nfree 8463 0\nfree 8464 0\nfree 8465 0\nfree 8466 0\nfree 8467 0\nfree 8468 0\nfree 8469 0\nfree 8470 0\nfree 8471 0\nfree 8472 0\nfree 8473 0\nfree 8474 0\nfree 8475 0\nfree 8476 0\nfree 8477 0\nfree 8478 0\nfree 8479 0\nfree 8480 0\nfree 8481 0\nfree 8482 0\nfree 8483 0\nfree 8484 0\nfree 8485 0\nfree 8486 0\nfree 8487 0\nfree 8488 0\nfree 8489 0\nfree 8490 0\nfree 8491 0\nfree 8492 0\nfree 8493 0\nfree 8494 0\nfree 8495 0\nfree 8496 0\nfree 8497 0\nfree 8498 0\nfree 8499 0\nfree 8500 0\nfree 8501 0\nfree 8502 0\nfree 8503 0\nfree 8504 0\nfree 8505 0\nset 1 2 0\nfinal\ntable accounts\nrow 'u' 'h' 0 1\ntable users\nrow 'u' 0 1\ntable hosts\nrow 'h' 0 1\ntable events_waits_summary_by_account_by_event_name\nrow 'u' 'h' 'wait/io/file/sql/binlog' 3 15 5 5 5\ntable events_waits_summary_by_user_by_event_name\nrow 'u' 'wait/io/file/sql/binlog' 3 15 5 5 5\ntable events_waits_summary_by_host_by_event_name\nrow 'h' 'wait/io/file/sql/binlog' 3 15 5 5 5\ntable events_waits_summary_global_by_event_name\nrow 'wait/io/file/sql/binlog' 3 15 5 5 5\nphase 2\nsession 2\nconnect 3 0 1 1 1\ntag 1 2\ntag 34 1\ntag 66 1\ntag 98 1\nset 1 3 3\nact 4\ntake 129 2\ntake 130 2\ntake 131 2\ntake 132 2\ntake 133 2\ntake 134 2\ntake 135 5\ntake 136 2\ntake 137 2\ntake 138 2\ntake 139 2\ntake 140 2\ntake 2177 1\ntake 2178 1\ntake 2179 1\ntake 2180 1\ntake 2181 1\ntake 2182 1\ntake 2183 2\ngive 4231 1 2183\ngive 6279 1 2183\ntake 2184 1\ntake 2185 1\ntake 2186 1\ntake 2187 1\ntake 2188 1\ntake 2241 1\ntake 2242 1\ntake 2243 1\ntake 2244 1\ntake 2245 1\ntake 2246 1\ntake 2247 1\ntake 2248 1\ntake 2249 1\ntake 2250 1\ntake 2251 1\ntake 2252 1\ntake 141 2\ntake 142 2\ntake 143 2\ntake 144 2\ntake 145 2\ntake 2189 1\ntake 2190 1\ntake 2191 1\ntake 2192 1\ntake 2193 1\ntake 2253 1\ntake 2254 1\ntake 2255 1\ntake 2256 1\ntake 2257 1\ntake 146 2\ntake 147 2\ntake 148 2\ntake 149 2\ntake 150 2\ntake 151 2\ntake 152 2\ntake 2194 1\ntake 2195 1\ntake 2196 1\ntake 2197 1\ntake 2198 1\ntake 2199 1\ntake 2200 1\ntake 2258 1\ntake 2259 1\ntake 2260 1\ntake 2261 1\ntake 2262 1\ntake 2263 1\ntake 2264 1\ntake 191 2\ntake 192 2\ntake 2239 1\ntake 2240 1\ntake 2303 1\ntake 2304 1\nfree 33 2\ntag 34 2\nreply 0\nfinal\ntable threads\nrow 2 'a' 'b' 'YES' 'YES'\ntable accounts\nrow 'a' 'b' 1 1\ntable users\nrow 'a' 1 1\nrow 'u' 0 1\ntable hosts\nrow 'b' 1 1\nrow 'h' 0 1\ntable events_waits_summary_by_user_by_event_name\nrow 'u' 'wait/io/file/sql/binlog' 3 15 5 5 5\ntable events_waits_summary_by_host_by_event_name\nrow 'h' 'wait/io/file/sql/binlog' 3 15 5 5 5\ntable events_waits_summary_global_by_event_name\nrow 'wait/io/file/sql/binlog' 3 15 5 5 5\nend\n",
    ),
    // Without rows no table is on, and who connects then counts nothing.
    (
        "plain",
        b"phase\nsession 1 u h\nsql TRUNCATE setup_actors\nsql TRUNCATE setup_objects\nstart wait/io/table/sql/handler d.t\nend\nstart wait/io/file/sql/binlog\nspend 5\nend\nsession 2 u h\nstart wait/io/file/sql/binlog\nspend 5\nend\n",
        b"pfs-report 1\nphase 1\nsession 1\nconnect 1 0 0 0 0\ntag 1 1\ntag 33 1\ntag 65 1\ntag 97 1\nset 1 1 3\nact 2\nreply 0\nact 3\nset 96 1 0\nreply 0\nstart - off-table 0 1 0 1\nend - - - -\nstart 1 attributed 0 1 0 -\nend 1 1 0 1\nadd 135 1\nsession 2\nconnect 4 1 0 0 0\ntag 2 1\ntag 33 2\ntag 65 2\ntag 97 2\nstart - off-thread 0 0 0 -\nend - - - -\nfinal\ntable threads\nrow 1 'u' 'h' 'YES' 'YES'\nrow 2 'u' 'h' 'NO' 'NO'\ntable accounts\nrow 'u' 'h' 2 2\ntable users\nrow 'u' 2 2\ntable hosts\nrow 'h' 2 2\ntable events_waits_summary_by_thread_by_event_name\nrow 1 'wait/io/file/sql/binlog' 1 5 5 5 5\ntable events_waits_summary_by_account_by_event_name\nrow 'u' 'h' 'wait/io/file/sql/binlog' 1 5 5 5 5\ntable events_waits_summary_by_user_by_event_name\nrow 'u' 'wait/io/file/sql/binlog' 1 5 5 5 5\ntable events_waits_summary_by_host_by_event_name\nrow 'h' 'wait/io/file/sql/binlog' 1 5 5 5 5\ntable events_waits_summary_global_by_event_name\nrow 'wait/io/file/sql/binlog' 1 5 5 5 5\nend\n",
    ),
];

#[test]
fn truncations_empty_what_they_name(rt: HostRuntime) -> Result<(), Fail> {
    for (word, script, report) in &TRUNCATIONS {
        assert!(rt; reports_by(&rt, rt.alloc(), word, script, report)?);
    }
    Ok(())
}

/// Whether a text has this part.
fn has(text: &[u8], part: &[u8]) -> bool {
    text.windows(part.len().max(1)).any(|window| window == part)
}

/// A script of one session with so many events of a class, each inside the one before.
fn nested(alloc: Global, class: &[u8], depth: u64) -> Result<Vec<u8>, AllocError> {
    let mut script = Vec::from_slice(alloc, b"phase\nsession 1 u h\n")?;
    for _ in 0..depth {
        script.extend_from_slice(b"start ")?;
        script.extend_from_slice(class)?;
        script.extend_from_slice(b"\n")?;
    }
    for _ in 0..depth {
        script.extend_from_slice(b"end\n")?;
    }
    Ok(script)
}

const DEEP: [(&[u8], u64, &[u8]); 4] = [
    (
        b"wait/io/file/sql/binlog",
        4,
        b"\nrow 'wait/io/file/sql/binlog' 4 0 0 0 0\nend\n",
    ),
    (
        b"wait/io/file/sql/binlog",
        5,
        b"\nrow 'wait/io/file/sql/binlog' 4 0 0 0 0\nlost Performance_schema_locker_lost 1\nend\n",
    ),
    (
        b"statement/sp/stmt",
        10,
        b"\nrow 'statement/sp/stmt' 10 0 0 0 0 0 0 0 0 0 0\ntable events_statements_summary_by_digest\nrow NULL 'e3b0c44298fc1c149afbf4c8996fb92427ae41e4649b934ca495991b7852b855' '' 10 0 0 0 0 0 0 0 0 0 0\nend\n",
    ),
    (
        b"statement/sp/stmt",
        11,
        b"\nrow 'statement/sp/stmt' 10 0 0 0 0 0 0 0 0 0 0\ntable events_statements_summary_by_digest\nrow NULL 'e3b0c44298fc1c149afbf4c8996fb92427ae41e4649b934ca495991b7852b855' '' 10 0 0 0 0 0 0 0 0 0 0\nlost Performance_schema_nested_statement_lost 1\nend\n",
    ),
];

#[test]
fn events_beyond_the_depth_are_lost(rt: HostRuntime) -> Result<(), Fail> {
    for (class, depth, last) in &DEEP {
        let script = nested(rt.alloc(), class, *depth)?;
        let (status, sink) = ran(&rt, rt.alloc(), &script, 20_000, &[], &[])?;
        same(&rt, "status", status, Status::Done);
        same(&rt, "its end", has(sink.bytes(), last), true);
    }
    Ok(())
}

const GREAT_AND_EMPTY: [(&[u8], &[u8]); 3] = [
    (
        b"9223372036854775808\nend\nstart wait/io/file/sql/binlog\nspend 9223372036854775808\nend\n",
        b"\nrow 'wait/io/file/sql/binlog' 2 0 9223372036854775808 0 9223372036854775808\n",
    ),
    (
        b"18446744073709551615\nend\n",
        b"\nrow 'wait/io/file/sql/binlog' 1 18446744073709551615 18446744073709551615 18446744073709551615 18446744073709551615\n",
    ),
    (b"0\nend\n", b"\nrow 'wait/io/file/sql/binlog' 1 0 0 0 0\n"),
];

#[test]
fn summaries_have_the_numbers_of_great_and_empty_waits(rt: HostRuntime) -> Result<(), Fail> {
    let head: &[u8] = b"phase\nsession 1 u h\nstart wait/io/file/sql/binlog\nspend ";
    for (tail, row) in &GREAT_AND_EMPTY {
        let mut script = Vec::from_slice(rt.alloc(), head)?;
        script.extend_from_slice(tail)?;
        let (status, sink) = ran(&rt, rt.alloc(), &script, 4_000, &[], &[])?;
        same(&rt, "status", status, Status::Done);
        same(&rt, "its row", has(sink.bytes(), row), true);
    }
    Ok(())
}

const FAILURES: [(u64, &[u64], &[u64], Status, &[u8]); 3] = [
    (
        1_000,
        &[],
        &[3],
        Status::WriteFault,
        b"pfs-report 1\nphase 1\n",
    ),
    (1_000, &[1], &[], Status::ReadFault, b""),
    (15, &[], &[], Status::WriteFault, b"pfs-report 1\nph"),
];

#[test]
fn failures_leave_what_was_written_before_them(rt: HostRuntime) -> Result<(), Fail> {
    for (room, read_fails, write_fails, want, text) in &FAILURES {
        let (status, sink) = ran(&rt, rt.alloc(), ONE_WAIT, *room, read_fails, write_fails)?;
        same(&rt, "status", status, *want);
        same(&rt, "text", sink.bytes(), *text);
    }
    Ok(())
}

#[test]
fn faulty_scripts_get_their_line_and_reason(rt: HostRuntime) -> Result<(), Fail> {
    let (status, sink) = ran(
        &rt,
        rt.alloc(),
        b"phase\nsession 1 u h\nend\n",
        1_000,
        &[],
        &[],
    )?;
    let nesting = Status::BadScript {
        line: 3,
        reason: Reason::BadNesting,
    };
    same(&rt, "nesting", status, nesting);
    let text = b"bad script: line 3 reason 9\n";
    same(&rt, "its text", sink.bytes(), text.as_slice());
    let many = vec![in rt.alloc(); 10u8; 1_048_577]?;
    let (status, sink) = ran(&rt, rt.alloc(), &many, 1_000, &[], &[])?;
    let length = Status::BadScript {
        line: 0,
        reason: Reason::TooLong,
    };
    same(&rt, "length", status, length);
    let text = b"bad script: line 0 reason 11\n";
    same(&rt, "its text", sink.bytes(), text.as_slice());
    Ok(())
}

/// A source that hands out one byte at a time, and tells nothing.
#[derive(Drop)]
struct Dripping<'a> {
    bytes: &'a [u8],
}

impl Source for Dripping<'_> {
    ghost left = { λ _. None };

    ghost faults = { λ _. 0 };

    fn read(&mut self, buffer: &mut [u8]) -> Got {
        match self.bytes.split_first() {
            Some((byte, rest)) => {
                buffer[0] = *byte;
                self.bytes = rest;
                Got::Bytes(1)
            }
            None => Got::End,
        }
    }
}

#[test]
fn one_byte_at_a_time_gives_the_same_report(rt: HostRuntime) -> Result<(), Fail> {
    let words = words(rt.alloc(), &["run"])?;
    let mut source = Dripping { bytes: ONE_WAIT };
    let mut sink = MemorySink::new(rt.alloc(), 4_000, &[])?;
    let end = pfs(&rt, rt.alloc(), &words, &mut source, &mut sink);
    assert_eq!(rt; end.status, Status::Done);
    assert_eq!(rt; sink.bytes(), ONE_WAIT_REPORT);
    Ok(())
}

#[test]
fn a_written_report_is_read_again(rt: HostRuntime) -> Result<(), Fail> {
    let Ok(report) = read(rt.alloc(), ONE_WAIT_REPORT) else {
        return Err(Fail::from("the report is read"));
    };
    let mut sink = MemorySink::new(rt.alloc(), 4_000, &[])?;
    assert_eq!(rt; write(rt.alloc(), &report, &mut sink), Ok(()));
    assert_eq!(rt; sink.bytes(), ONE_WAIT_REPORT);
    Ok(())
}
