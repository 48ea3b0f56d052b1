//! What `run` answers where its devices fail or move little, and where its input is cut or no text.

use super::{ONE_WAIT, ONE_WAIT_REPORT, ran, words};
use crate::asserts::same;
use pfs_journal::{ReadStop, read};
use pfs_outside::{ShortSink, ShortSource};
use pfs_script::Reason;
use pfs_top::{Status, pfs};
use std::test::Fail;

/// How many lines are whole in a text.
fn whole_lines(text: &[u8]) -> usize {
    text.iter().filter(|byte| **byte == b'\n').count()
}

/// Whether a text is so many whole lines from the front of the report.
fn has_lines(text: &[u8], count: usize) -> bool {
    ONE_WAIT_REPORT.starts_with(text)
        && whole_lines(text) == count
        && (text.is_empty() || text.ends_with(b"\n"))
}

#[test]
fn a_read_that_fails_leaves_nothing_written(rt: HostRuntime) -> Result<(), Fail> {
    for at in [1, 2] {
        let (status, sink) = ran(&rt, rt.alloc(), ONE_WAIT, 4_000, &[at], &[])?;
        same(&rt, "status", status, Status::ReadFault);
        same(&rt, "text", sink.bytes(), b"".as_slice());
    }
    Ok(())
}

#[test]
fn a_write_that_fails_leaves_the_lines_before_it(rt: HostRuntime) -> Result<(), Fail> {
    for before in 0..32usize {
        let at = before as u64 + 1;
        let (status, sink) = ran(&rt, rt.alloc(), ONE_WAIT, 4_000, &[], &[at])?;
        same(&rt, "status", status, Status::WriteFault);
        same(&rt, "lines", has_lines(sink.bytes(), before), true);
    }
    let (status, sink) = ran(&rt, rt.alloc(), ONE_WAIT, 4_000, &[], &[33])?;
    same(&rt, "status", status, Status::Done);
    same(&rt, "text", sink.bytes(), ONE_WAIT_REPORT);
    Ok(())
}

#[test]
fn devices_that_move_one_byte_a_call_give_the_same_report(rt: HostRuntime) -> Result<(), Fail> {
    for word in ["run", "plain"] {
        let words = words(rt.alloc(), &[word])?;
        let mut source = ShortSource::new(rt.alloc(), ONE_WAIT, 1, &[])?;
        let mut sink = ShortSink::new(rt.alloc(), 4_000, 1, &[])?;
        let end = pfs(&rt, rt.alloc(), &words, &mut source, &mut sink);
        same(&rt, word, end.status, Status::Done);
        same(&rt, word, sink.bytes(), ONE_WAIT_REPORT);
    }
    Ok(())
}

#[test]
fn a_script_with_a_byte_of_no_text_is_refused(rt: HostRuntime) -> Result<(), Fail> {
    let script: &[u8] = b"phase\nsession 1 u h\nstart wait/io/file/sql/binlog\n\0spend 120\nend\n";
    let (status, sink) = ran(&rt, rt.alloc(), script, 4_000, &[], &[])?;
    let byte = Status::BadScript {
        line: 4,
        reason: Reason::BadByte,
    };
    same(&rt, "status", status, byte);
    let text = b"bad script: line 4 reason 1\n";
    same(&rt, "text", sink.bytes(), text.as_slice());
    Ok(())
}

#[test]
fn a_report_that_is_cut_is_wrong_behind_its_whole_lines(rt: HostRuntime) -> Result<(), Fail> {
    for length in 10..ONE_WAIT_REPORT.len() {
        let cut = &ONE_WAIT_REPORT[..length];
        let stop = read(rt.alloc(), cut).err();
        let at = whole_lines(cut) as u64;
        same(
            &rt,
            "stop",
            stop,
            Some(ReadStop::Bad {
                at: at.saturating_add(1),
            }),
        );
    }
    Ok(())
}

/// Row counts that no memory has room for, in a report of few lines and in a script.
#[test]
fn room_is_taken_for_what_stands_there_alone(rt: HostRuntime) -> Result<(), Fail> {
    let report: &[u8] =
        b"pfs-report 1\nphase 1\nsession 1\nact 2\nrows 18446744073709551615\nfinal\nend\n";
    let stop = read(rt.alloc(), report).err();
    same(&rt, "rows", stop, Some(ReadStop::Bad { at: 6 }));
    let script: &[u8] =
        b"phase\nsession 1 u h\nsql SELECT * FROM threads LIMIT 18446744073709551615\nrepeat 18446744073709551615\ndone\n";
    let (status, _) = ran(&rt, rt.alloc(), script, 4_000, &[], &[])?;
    same(&rt, "limit", status, Status::Done);
    Ok(())
}
