use pfs_journal::*;
use pfs_outside::{MemorySink, WriteStop};
use std::alloc::Global;
use std::test::Fail;

/// A report with every entry, and with values of every kind.
const WHOLE: &[u8] =
    b"pfs-report 1\nphase 1\nsession 1\nconnect 1 0 - 18446744073709551615 0\ntag 1 1\nset 1 1 3\nstart 1 attributed 0 1 0 -\nstart - lost-thread - - - -\nstart - lost-class - - - -\nstart - off-global 0 - - -\nstart - off-class 0 - 0 -\nstart - off-table 0 - 0 0\nstart - off-thread 0 1 0 -\nstart - lost-nested 0 1 0 -\nstart - lost-locker 0 1 0 -\nstart 2 aside 0 1 0 -\nend 1 1 0 1\nend - - - -\nadd 135 1\nheld 135 5 6\nring 8454 1\nlong 10242 1 0\nbusy 8454 7 8\nlate 10242 0 1\nsettle\nact 2\ntake 135 2\ngive 2183 1 135\nfree 1 1\nreply 3\nerror 1146\nquery\nseen 1 1\nvacant 2\nsaw 0 0\nrows 2\nrow\nrow NULL 0 'a''b\t' ''\nquery\nrows 0\nsession 2\nfinal\ntable threads\nrow 1 NULL\nrow 2 'u'\ntable users_\nrow\nlost Performance_schema_accounts_lost 1\nlost B 0\nphase 2\nfinal\nend\n";

/// What is written of the report that these bytes are, or the first wrong line.
fn reread(alloc: Global, bytes: &[u8]) -> Result<MemorySink, ReadStop> {
    let report = read(alloc, bytes)?;
    match MemorySink::new(alloc, bytes.len() as u64, &[]) {
        Ok(mut sink) => match write(alloc, &report, &mut sink) {
            Ok(()) => Ok(sink),
            Err(_) => Err(ReadStop::NoMemory),
        },
        Err(_) => Err(ReadStop::NoMemory),
    }
}

#[test]
fn reports_go_both_ways(rt: HostRuntime) -> Result<(), Fail> {
    for text in [WHOLE, b"pfs-report 1\nend\n"] {
        match reread(rt.alloc(), text) {
            Ok(sink) => assert_eq!(rt; sink.bytes(), text),
            Err(_) => return Err(Fail::from("the report is read and written")),
        }
    }
    Ok(())
}

const WRONG_LINES: [(&[u8], u64); 27] = [
    (b"", 1),
    (b"pfs-report 1", 1),
    (b"pfs-report 0\nend\n", 1),
    (b"pfs-report 2\nend\n", 1),
    (b"pfs-report 01\nend\n", 1),
    (b"phase 1\n", 1),
    (b"pfs-report 1\n", 2),
    (b"pfs-report 1\nend", 2),
    (b"pfs-report 1\nend\nend\n", 3),
    (b"pfs-report 1\nend\nx", 3),
    (b"pfs-report 1\nphase  1\n", 2),
    (b"pfs-report 1\nphase 18446744073709551616\n", 2),
    (b"pfs-report 1\nphase -\n", 2),
    (b"pfs-report 1\nphase 1\nend\n", 3),
    (b"pfs-report 1\nphase 1\nfinal\nphase 2\nsession 1 \n", 5),
    (b"pfs-report 1\nphase 1\nadd 1 1\n", 3),
    (b"pfs-report 1\nphase 1\nsession 1\nadd 1\nend\n", 4),
    (b"pfs-report 1\nphase 1\nsession 1\nadd 1 -\n", 4),
    (b"pfs-report 1\nphase 1\nsession 1\nadd 1 1 1\n", 4),
    (b"pfs-report 1\nphase 1\nsession 1\nstart 1 on 0 0 0 -\n", 4),
    (b"pfs-report 1\nphase 1\nsession 1\nrow 1\n", 4),
    (
        b"pfs-report 1\nphase 1\nsession 1\nrows 3\nrow 1\nrow 2\nfinal\nend\n",
        7,
    ),
    (b"pfs-report 1\nphase 1\nfinal\ntable t\nend\n", 5),
    (b"pfs-report 1\nphase 1\nfinal\ntable t-\nrow\n", 4),
    (b"pfs-report 1\nphase 1\nfinal\ntable t\nrow 'a\nend\n", 5),
    (
        b"pfs-report 1\nphase 1\nfinal\ntable t\nrow 'a\x7f'\nend\n",
        5,
    ),
    (
        b"pfs-report 1\nphase 1\nfinal\nlost a 1\ntable t\nrow\nend\n",
        5,
    ),
];

#[test]
fn the_first_wrong_line_is_told(rt: HostRuntime) {
    for (text, line) in &WRONG_LINES {
        match read(rt.alloc(), text) {
            Err(ReadStop::Bad { at }) => assert_eq!(rt; at, *line),
            _ => assert!(rt; false, "the line {line} is wrong"),
        }
    }
}

#[test]
fn a_failed_write_leaves_a_front(rt: HostRuntime) -> Result<(), Fail> {
    let Ok(report) = read(rt.alloc(), WHOLE) else {
        return Err(Fail::from("the report is read"));
    };
    let mut sink = MemorySink::new(rt.alloc(), 1_000, &[3])?;
    assert_eq!(rt;
        write(rt.alloc(), &report, &mut sink),
        Err(WriteStop::Failed)
    );
    assert_eq!(rt; sink.bytes(), b"pfs-report 1\nphase 1\n".as_slice());
    Ok(())
}
