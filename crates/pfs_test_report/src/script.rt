//! Scripts, and the first faulty line of what is none, with its reason.

use crate::asserts::same;
use pfs_classes::{ClassId, ClassRef, DigestText, Kind, TableName};
use pfs_names::NameId;
use pfs_script::*;
use std::alloc::Global;
use std::process::Abort;
use std::test::Fail;

mod forms;
mod nesting;

/// The first faulty line and its reason's number; zeros where the bytes are a script.
fn fault(alloc: Global, bytes: &[u8]) -> Option<(u64, u64)> {
    match Script::read(alloc, bytes) {
        Ok(_) => Some((0, 0)),
        Err(ScriptFault::Bad { line, reason }) => Some((line, reason as u64)),
        Err(ScriptFault::NoMemory) => None,
    }
}

fn expect_all(rt: &impl Abort, alloc: Global, cases: &[(&[u8], u64, u64)]) {
    for (bytes, line, reason) in cases {
        assert_eq!(rt; fault(alloc, bytes), Some((*line, *reason)));
    }
}

const READ_OR_NOT: [(&[u8], u64, u64); 9] = [
    (b"", 0, 0),
    (b"\n# a comment\n\tphase\n", 3, 3),
    (b"\n# a\tcomment\nphase\n", 0, 0),
    (
        b"phase\nsession 64 u.x_-y h-1.example\nspend 18446744073709551615\n",
        0,
        0,
    ),
    (
        b"\nlimit file_classes 8\n\nlimit mutex_classes 0000\nclass stage/a/b NO YES\nconsumer statements_digest NO\ninstrument % NO NO\nphase\n",
        0,
        0,
    ),
    (
        b"class wait/io/file/a/b YES NO\nphase\nsession 3 u h\nstart wait/io/file/a/b\nend\nstart wait/synch/cond/sql/COND_thread_cache\n",
        0,
        0,
    ),
    (
        b"limit file_classes 3\nclass wait/io/file/a/b YES YES\nphase\nsession 1 u h\nstart wait/io/file/a/b\nend\n",
        0,
        0,
    ),
    (
        b"phase\nsession 2 u h\nstart wait/io/socket/sql/client_connection\nsession 1 u h\nstart wait/io/file/sql/binlog\n",
        0,
        0,
    ),
    (
        b"class wait/io/file/0123456789012345678901234567890123456789012345678901234567890123456789012345678901234567890123456789012345678901234 YES YES\n",
        0,
        0,
    ),
];

#[test]
fn scripts(rt: HostRuntime) {
    expect_all(&rt, rt.alloc(), READ_OR_NOT.as_slice());
}

const BYTES_AND_FORMS: [(&[u8], u64, u64); 10] = [
    (b"phase\nsession 1 u h\n\0spend 5\nend\n", 3, 1),
    (b"phase\nsession 1 u h\nspend 12", 3, 2),
    (b"phase\nses\x07", 2, 1),
    (b"phase\nsession 1 u  h\n", 2, 3),
    (b"phase \n", 1, 3),
    (b"consumer\tglobal_instrumentation YES\n", 1, 3),
    (
        b"phase\nsession 1 012345678901234567890123456789012 h\n",
        2,
        3,
    ),
    (
        b"class wait/io/file/01234567890123456789012345678901234567890123456789012345678901234567890123456789012345678901234567890123456789012345 YES YES\n",
        1,
        3,
    ),
    (b"phase\nsession 1 u h\nnothing\nspend 5\nend\n", 3, 3),
    (b"class transaction YES YES\n", 1, 3),
];

#[test]
fn faults_of_bytes_and_forms(rt: HostRuntime) {
    expect_all(&rt, rt.alloc(), BYTES_AND_FORMS.as_slice());
}

const PLACES_AND_NUMBERS: [(&[u8], u64, u64); 13] = [
    (
        b"class wait/io/file/a/b YES YES\nlimit file_classes 1\n",
        2,
        4,
    ),
    (
        b"class wait/io/file/a/b YES YES\nlimit file_classes 99\n",
        2,
        4,
    ),
    (b"phase\nclass wait/io/file/sql/binlog YES YES\n", 2, 4),
    (b"phase\nconsumer no_such YES\n", 2, 4),
    (b"phase\ninstrument % YES YES\n", 2, 4),
    (b"session 0 u h\n", 1, 4),
    (b"phase\nspend 18446744073709551616\n", 2, 4),
    (b"phase\nend\n", 2, 4),
    (b"phase\nsession 1 u h\nspend 18446744073709551616\n", 3, 5),
    (b"limit file_classes 18446744073709551616\n", 1, 5),
    (b"phase\nsession 0 u h\n", 2, 6),
    (b"phase\nsession 65 u h\n", 2, 6),
    (
        b"phase\nsession 7 u h\nsession 8 u h\nspend 1\nsession 7 u h\n",
        5,
        6,
    ),
];

#[test]
fn faults_of_places_and_numbers(rt: HostRuntime) {
    expect_all(&rt, rt.alloc(), PLACES_AND_NUMBERS.as_slice());
}

const NAMES_AND_LIMITS: [(&[u8], u64, u64); 19] = [
    (b"phase\nsession 1 u h\nstart wait/io/file/a/b\n", 3, 7),
    (b"consumer no_such YES\n", 1, 7),
    (b"class wait/io/file/sql/binlog YES YES\n", 1, 7),
    (b"class wait/io/table/a/b YES YES\n", 1, 7),
    (b"class stage/a/b YES YES\nclass stage/a/b YES YES\n", 2, 7),
    (
        b"limit file_classes 3\nclass wait/io/file/a/b YES YES\nclass wait/io/file/a/b YES YES\n",
        3,
        7,
    ),
    (b"phase\nsession 1 u h\nstart statement/no/such\n", 3, 7),
    (
        b"phase\nsession 1 u h\nstart statement/sql/select\nstage stage/no/such\n",
        4,
        7,
    ),
    (b"limit file_classes 9\n", 1, 8),
    (b"limit statement_stack 0\n", 1, 8),
    (
        b"limit statement_stack 10\nlimit statement_stack 10\n",
        2,
        8,
    ),
    (b"limit statement_stack 11\n", 1, 8),
    (
        b"limit socket_classes 4\nlimit file_classes 8\nlimit socket_classes 4\n",
        3,
        8,
    ),
    (b"phase\nsession 1 u h\nend\n", 3, 9),
    (
        b"phase\nsession 1 u h\nstart wait/io/file/sql/binlog\nsession 2 u h\nend\n",
        5,
        9,
    ),
    (b"limit no_such 1\n", 1, 7),
    (b"limit hosts 33\n", 1, 8),
    (b"limit digests 65\n", 1, 8),
    (
        b"phase\nsession 1 u h\nstart statement/sql/select\nquit\n",
        4,
        9,
    ),
];

#[test]
fn faults_of_names_and_limits(rt: HostRuntime) {
    expect_all(&rt, rt.alloc(), NAMES_AND_LIMITS.as_slice());
}

const BLOCKS: [(&[u8], u64, u64); 16] = [
    (b"phase\nsession 1\n", 2, 6),
    (b"phase\nsession 1 u h\nphase\nsession 1 u h\n", 4, 6),
    (b"phase\nsession 1 u h\nsession 2 u h\nsession 1\n", 4, 6),
    (
        b"phase\nsession 1 u h\nquit\nphase\nsession 2 u h\nsession 1\n",
        6,
        6,
    ),
    (b"phase\nsession 1 u h\nphase\nsession 1\nspend 1\n", 0, 0),
    (b"phase\nsession 18446744073709551616\n", 2, 5),
    (b"phase\nsession 65\n", 2, 6),
    (b"session 1\n", 1, 4),
    (b"phase\nsession 1 u h\nquit\nspend 1\n", 4, 4),
    (b"phase\nsession 1 u h\nquit\nquit\n", 4, 4),
    (b"phase\nquit\n", 2, 4),
    (b"phase\nsession 1 u h\nphase\nspend 1\n", 4, 4),
    (b"phase\nsession 1 u h\nrepeat 1\nphase\n", 4, 4),
    (
        b"phase\nsession 1 u h\nstart wait/io/file/sql/binlog\nphase\nsession 2 u h\nsession 1\nend\nend\n",
        8,
        9,
    ),
    (
        b"phase\nsession 1 u h\nstart wait/io/file/sql/binlog\nphase\nsession 2 u h\nsession 1\nquit\n",
        7,
        9,
    ),
    (
        b"phase\nsession 1 u h\nstart statement/sql/select\nphase\nsession 1\nstage stage/sql/init\nphase\nsession 1\nend 1 2 3 4 5 6\nquit\n",
        0,
        0,
    ),
];

#[test]
fn blocks_of_a_session(rt: HostRuntime) {
    expect_all(&rt, rt.alloc(), BLOCKS.as_slice());
}

const HEAVIEST: [(&[u8], u64, u64); 6] = [
    (
        b"phase\nsession 1 u h\nrepeat 249\nsql TRUNCATE threads\ndone\n",
        0,
        0,
    ),
    (
        b"phase\nsession 1 u h\nrepeat 250\nsql  \ttruncate\ndone\n",
        5,
        12,
    ),
    (
        b"phase\nsession 1 u h\nrepeat 16632\nsql UPDATE x\ndone\n",
        0,
        0,
    ),
    (
        b"phase\nsession 1 u h\nrepeat 16633\nsql UPDATE x\ndone\n",
        5,
        12,
    ),
    (
        b"phase\nsession 1 u h\nrepeat 256\nsql select\ndone\n",
        0,
        0,
    ),
    (
        b"phase\nsession 1 u h\nrepeat 257\nsql select\ndone\n",
        5,
        12,
    ),
];

#[test]
fn the_heaviest_repeats(rt: HostRuntime) {
    expect_all(&rt, rt.alloc(), HEAVIEST.as_slice());
}

const OTHER_FORMS: [(&[u8], u64, u64); 20] = [
    (b"phase\nphase\n", 0, 0),
    (b"limit users 99\n", 1, 8),
    (b"limit digests 9\n", 0, 0),
    (b"phase\nsession 1 u h\nend\nquit\n", 3, 9),
    (b"limit no_such 18446744073709551616\n", 1, 5),
    (b"start statement/sql/select SELECT 1\n", 1, 4),
    (b"start wait/io/table/sql/handler a.b\n", 1, 4),
    (b"sql SELECT\n", 1, 4),
    (b"sql TRUNCATE accounts\n", 1, 4),
    (b"sql truncate accounts\n", 1, 4),
    (b"sql TRUNCATE threads\n", 1, 4),
    (b"sql \tseLECTed\n", 1, 4),
    (
        b"phase\nsession 1 u h\nsql SELECT * FROM threads\nsql \tseLECTed\nquit\n",
        0,
        0,
    ),
    (
        b"phase\nsession 1 u h\nsql TRUNCATE TABLE performance_schema.accounts\n",
        0,
        0,
    ),
    (
        b"phase\nsession 1 u h\nsql TRUNCATE accounts\nrepeat 2\nsql TRUNCATE setup_actors\ndone\nquit\n",
        0,
        0,
    ),
    (
        b"phase\nsession 1 u h\nrepeat 249\nsql TRUNCATE hosts\ndone\n",
        0,
        0,
    ),
    (
        b"phase\nsession 1 u h\nrepeat 250\nsql TRUNCATE hosts\ndone\n",
        5,
        12,
    ),
    (b"quit\n", 1, 4),
    (b"session 99\n", 1, 4),
    (b"phase\nsession 1 u h\nrepeat 2\nquit\n", 4, 4),
];

#[test]
fn commands_and_other_forms(rt: HostRuntime) {
    expect_all(&rt, rt.alloc(), OTHER_FORMS.as_slice());
}

const NAMED_AND_QUOTED: [(&[u8], u64, u64); 12] = [
    (
        b"phase\nsession 1 u h\nstart wait/io/table/sql/handler a.b\nend\n",
        0,
        0,
    ),
    (
        b"phase\nsession 1 u h\nstart wait/io/table/sql/other a.b\n",
        3,
        7,
    ),
    (
        b"phase\nsession 1 u h\nstart wait/io/table/sql/handler a\n",
        3,
        3,
    ),
    (
        b"phase\nsession 1 u h\nstart wait/io/table/sql/handler\n",
        3,
        3,
    ),
    (
        b"phase\nsession 1 u h\nstart wait/io/file/sql/binlog a.b\n",
        3,
        3,
    ),
    (b"class wait/lock/table/x YES YES\n", 1, 7),
    (
        b"phase\nsession 1 u h\nstart statement/sql/select SELECT 'abc\n",
        3,
        10,
    ),
    (
        b"phase\nsession 1 u h\nstart statement/sql/select SELECT /* a\n",
        3,
        10,
    ),
    (
        b"phase\nsession 1 u h\nstart statement/sql/select SELECT \\\n",
        3,
        10,
    ),
    (
        b"phase\nsession 1 u h\nstart wait/io/file/sql/binlog\nstart statement/sql/select 'abc\n",
        4,
        9,
    ),
    (
        b"phase\nsession 1 u h\nstart statement/no/such 'abc\n",
        3,
        7,
    ),
    (
        b"phase\nsession 1 u h\nstart statement/sql/select  two  spaces\nend\n",
        0,
        0,
    ),
];

#[test]
fn tables_and_texts(rt: HostRuntime) {
    expect_all(&rt, rt.alloc(), NAMED_AND_QUOTED.as_slice());
}

/// A block with waits on so many tables.
fn tables(alloc: Global, count: u64) -> Result<Vec<u8>, Fail> {
    let mut bytes = many(alloc, b"phase\nsession 1 u h\n", b"", 0)?;
    for n in 0..count {
        let line = format!(in alloc; "start wait/lock/table/sql/handler s.t{n}\nend\n")?;
        bytes.extend_from_slice(line.as_bytes())?;
    }
    Ok(bytes)
}

#[test]
fn the_most_tables(rt: HostRuntime) -> Result<(), Fail> {
    let mut lines = tables(rt.alloc(), 64)?;
    lines.extend_from_slice(b"start wait/io/table/sql/handler s.t7\n")?;
    assert_eq!(rt; fault(rt.alloc(), lines.as_slice()), Some((0, 0)));
    let lines = tables(rt.alloc(), 65)?;
    assert_eq!(rt; fault(rt.alloc(), lines.as_slice()), Some((131, 12)));
    Ok(())
}

/// The tables at these places, by the names of their schemas.
fn expect_tables(rt: &impl Abort, tables: &[TableName], schemas: &[(usize, &[u8])]) {
    assert_eq!(rt; tables.len(), schemas.len());
    for (place, schema) in schemas {
        match tables.get(*place) {
            Some(table) => assert_eq!(rt; table.schema.as_bytes(), *schema),
            None => panic!(rt; "there is no such table"),
        }
    }
}

/// The digest texts at these places.
fn expect_digests(rt: &impl Abort, digests: &[DigestText], texts: &[(usize, &[u8])]) {
    assert_eq!(rt; digests.len(), texts.len());
    for (place, text) in texts {
        match digests.get(*place) {
            Some(digest) => assert_eq!(rt; digest.text.as_bytes(), *text),
            None => panic!(rt; "there is no such digest text"),
        }
    }
}

fn statement(class: u64, digest: Option<u64>) -> BlockLine {
    BlockLine::Statement {
        class: ClassRef::Class(ClassId(class)),
        digest,
    }
}

/// What stands at these places among the lines of a block.
fn expect_lines(rt: &impl Abort, lines: &[BlockLine], places: &[(usize, BlockLine)]) {
    for (place, line) in places {
        assert_eq!(rt; lines.get(*place), Some(line));
    }
}

/// How many phases there are, how many blocks in the last one, and its last block.
fn last_block<'a>(rt: &impl Abort, phases: &'a [Phase]) -> ((usize, usize), &'a Block) {
    let Some(phase) = phases.last() else {
        panic!(rt; "there is no phase");
    };
    let blocks = phase.blocks.as_slice();
    let Some(block) = blocks.last() else {
        panic!(rt; "there is no block");
    };
    ((phases.len(), blocks.len()), block)
}

#[test]
fn a_setting_has_tables_and_digest_texts(rt: HostRuntime) {
    let script = Script::read(
        rt.alloc(),
        b"limit digests 2\nphase\nsession 1 u h\nstart wait/io/table/sql/handler z.b\nend\nstart statement/sql/select SELECT  1\nend\nstart wait/lock/table/sql/handler a.b\nend\nphase\nsession 1\nstart statement/sql/select\nend\nstart statement/sql/delete DELETE FROM t\nend\nstart statement/sql/select select 2;\nend\nstart wait/lock/table/sql/handler z.b\nend\nsql  SELECT 1\nquit\n",
    );
    let Ok(script) = script else {
        panic!(rt; "it is a script");
    };
    let schemas: [(usize, &[u8]); 2] = [(0, b"z"), (1, b"a")];
    expect_tables(&rt, script.setting.tables.as_slice(), &schemas);
    let texts: [(usize, &[u8]); 2] = [(0, b"SELECT ?"), (1, b"")];
    expect_digests(&rt, script.setting.digests.as_slice(), &texts);
    let (count, block) = last_block(&rt, script.phases.as_slice());
    same(&rt, "phases and blocks", count, (2, 1));
    same(&rt, "connect", block.connect, None);
    let lines = block.lines.as_slice();
    same(&rt, "lines", lines.len(), 10);
    let wait = BlockLine::TableWait {
        class: ClassRef::Class(ClassId(11)),
        table: 0,
    };
    let places = [
        (0, statement(17, Some(1))),
        (2, statement(20, None)),
        (4, statement(17, Some(0))),
        (6, wait),
        (9, BlockLine::Quit),
    ];
    expect_lines(&rt, lines, &places);
}

/// Such a line so many times, behind these lines.
fn many(alloc: Global, front: &[u8], line: &[u8], times: usize) -> Result<Vec<u8>, Fail> {
    let mut bytes = Vec::new(alloc);
    bytes.extend_from_slice(front)?;
    for _ in 0..times {
        bytes.extend_from_slice(line)?;
    }
    Ok(bytes)
}

/// So many `class` lines.
fn classes(alloc: Global, count: u64) -> Result<Vec<u8>, Fail> {
    let mut bytes = Vec::new(alloc);
    for n in 0..count {
        let line = format!(in alloc; "class wait/io/file/x/c{n} YES NO\n")?;
        bytes.extend_from_slice(line.as_bytes())?;
    }
    Ok(bytes)
}

/// A phase with a block of each of so many sessions.
fn sessions(alloc: Global, count: u64) -> Result<Vec<u8>, Fail> {
    let mut bytes = many(alloc, b"phase\n", b"", 0)?;
    for n in 0..count {
        let line = format!(in alloc; "session {} u h\n", n + 1)?;
        bytes.extend_from_slice(line.as_bytes())?;
    }
    Ok(bytes)
}

/// Such lines make no script, from that line on and for that reason; or they make one, where both are 0.
fn expect_fault(
    rt: &impl Abort,
    alloc: Global,
    lines: Result<Vec<u8>, Fail>,
    told: (u64, u64),
) -> Result<(), Fail> {
    let lines = lines?;
    same(rt, "fault", fault(alloc, lines.as_slice()), Some(told));
    Ok(())
}

#[test]
fn the_most_of_each(rt: HostRuntime) -> Result<(), Fail> {
    let alloc = rt.alloc();
    for (times, told) in [(200_000, (0, 0)), (200_001, (200_001, 11))] {
        expect_fault(&rt, alloc, many(alloc, b"", b"\n", times), told)?;
    }
    for (count, told) in [(256, (0, 0)), (257, (257, 12))] {
        expect_fault(&rt, alloc, classes(alloc, count), told)?;
    }
    for (count, told) in [(64, (0, 0)), (65, (66, 6))] {
        expect_fault(&rt, alloc, sessions(alloc, count), told)?;
    }
    for (times, told) in [(64, (0, 0)), (65, (65, 12))] {
        expect_fault(&rt, alloc, many(alloc, b"", b"phase\n", times), told)?;
    }
    let (block, select) = (
        b"phase\nsession 1 u h\n".as_slice(),
        b"sql  seLECT 1\n".as_slice(),
    );
    for (times, told) in [(256, (0, 0)), (257, (259, 12))] {
        expect_fault(&rt, alloc, many(alloc, block, select, times), told)?;
    }
    Ok(())
}

/// A block that connects its session as `u` and `h`, the first names behind 24 built-in classes, `transaction` and a
/// class of the script's own.
fn expect_block(rt: &impl Abort, block: &Block, session: u64, lines: &[BlockLine]) {
    let names = Connect {
        user: NameId(26),
        host: NameId(27),
    };
    same(rt, "session", block.session, session);
    same(rt, "connect", block.connect, Some(names));
    same(rt, "lines", block.lines.as_slice(), lines);
}

#[test]
fn a_script_is_its_setting_and_phases(rt: HostRuntime) {
    let script = Script::read(
        rt.alloc(),
        b"limit file_classes 3\nclass wait/io/file/a/b YES YES\nconsumer global_instrumentation NO\nphase\nsession 7 u h\n\nstart wait/io/file/sql/binlog\nspend 5\nend\nsession 2 u h\nstart wait/io/file/a/b\n",
    );
    let Ok(script) = script else {
        panic!(rt; "it is a script");
    };
    let setting = &script.setting;
    same(&rt, "consumers", setting.consumers, 24_792);
    let numbers = (setting.limits.file_classes, setting.classes.count());
    same(&rt, "classes", numbers, (3, 24));
    let [phase] = script.phases.as_slice() else {
        panic!(rt; "it has one phase");
    };
    let [one, two] = phase.blocks.as_slice() else {
        panic!(rt; "it has two blocks");
    };
    let first = [
        BlockLine::Wait(ClassRef::Class(ClassId(6))),
        BlockLine::Spend(5),
        BlockLine::End,
    ];
    expect_block(&rt, one, 7, &first);
    let second = [BlockLine::Wait(ClassRef::Lost(Kind::File))];
    expect_block(&rt, two, 2, &second);
}
