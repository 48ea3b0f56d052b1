//! Scripts with nested events and repeats, and the first faulty line of what is none, with its reason.

use pfs_classes::{ClassId, ClassRef};
use pfs_script::*;
use std::alloc::Global;
use std::process::Abort;
use std::test::Fail;

/// The first faulty line and its reason's number, for these lines of a block behind the two that begin
/// it; zeros where they are a script.
fn fault(alloc: Global, lines: &[u8]) -> Result<(u64, u64), Fail> {
    let mut bytes = Vec::new(alloc);
    bytes.extend_from_slice(b"phase\nsession 1 u h\n")?;
    bytes.extend_from_slice(lines)?;
    match Script::read(alloc, bytes.as_slice()) {
        Ok(_) => Ok((0, 0)),
        Err(ScriptFault::Bad { line, reason }) => Ok((line, reason as u64)),
        Err(ScriptFault::NoMemory) => Ok((0, 100)),
    }
}

fn expect_all(rt: &impl Abort, alloc: Global, cases: &[(&[u8], u64, u64)]) -> Result<(), Fail> {
    for (lines, line, reason) in cases {
        let told = fault(alloc, lines)?;
        assert_eq!(rt; told, (*line, *reason));
    }
    Ok(())
}

const NESTED: [(&[u8], u64, u64); 9] = [
    (
        b"start wait/io/file/sql/binlog\nstart wait/io/file/sql/binlog\nend\nend\n",
        0,
        0,
    ),
    (
        b"start transaction ro\nstart statement/sql/select\nstart statement/sql/select\nstage stage/sql/init\nstart wait/io/file/sql/binlog\n",
        0,
        0,
    ),
    (
        b"start statement/sql/select\nstage stage/sql/init\nstage stage/sql/end\nend 1 2 3 4 5 6\nstart transaction rw\nend\n",
        0,
        0,
    ),
    (
        b"start statement/sql/select \nstage stage/sql/init\nstage -\nstart statement/sql/select\nend\nend\n",
        0,
        0,
    ),
    (
        b"repeat 3\nstart wait/io/file/sql/binlog\nend\ndone\n",
        0,
        0,
    ),
    (
        b"start wait/io/file/sql/binlog\nrepeat 2\nend\nspend 1\nstart wait/synch/cond/sql/COND_thread_cache\ndone\nend\n",
        0,
        0,
    ),
    (b"repeat 1\ndone\nrepeat 18446744073709551615\ndone\n", 0, 0),
    (b"repeat 190000\nspend 1\ndone\n", 0, 0),
    (b"repeat 199996\nspend 1\ndone\n", 0, 0),
];

#[test]
fn events_that_nest(rt: HostRuntime) -> Result<(), Fail> {
    expect_all(&rt, rt.alloc(), NESTED.as_slice())
}

const NOT_NESTED: [(&[u8], u64, u64); 17] = [
    (b"stage stage/sql/init\n", 3, 9),
    (b"start transaction rw\nstage stage/sql/init\n", 4, 9),
    (
        b"start statement/sql/select\nstart wait/io/file/sql/binlog\nstage stage/sql/init\n",
        5,
        9,
    ),
    (b"stage -\n", 3, 9),
    (b"start statement/sql/select\nstage -\n", 4, 9),
    (
        b"start statement/sql/select\nstage stage/sql/init\nstart wait/io/file/sql/binlog\nstage -\n",
        6,
        9,
    ),
    (b"start statement/sql/select\nstart transaction rw\n", 4, 9),
    (b"start transaction ro\nstart transaction rw\n", 4, 9),
    (
        b"start wait/io/file/sql/binlog\nstart transaction rw\n",
        4,
        9,
    ),
    (
        b"start wait/io/file/sql/binlog\nstart statement/sql/select\n",
        4,
        9,
    ),
    (
        b"start statement/sql/select\nstage stage/sql/init\nstart statement/sql/select\n",
        5,
        9,
    ),
    (b"end\n", 3, 9),
    (
        b"start statement/sql/select\nstage stage/sql/init\nend\nend\n",
        6,
        9,
    ),
    (b"end 1 2 3 4 5 6\n", 3, 9),
    (b"start wait/io/file/sql/binlog\nend 1 2 3 4 5 6\n", 4, 9),
    (b"start transaction rw\nend 1 2 3 4 5 6\n", 4, 9),
    (
        b"start statement/sql/select\nend 0 0 0 0 0 18446744073709551616\n",
        4,
        5,
    ),
];

#[test]
fn rules_of_nesting_broken(rt: HostRuntime) -> Result<(), Fail> {
    expect_all(&rt, rt.alloc(), NOT_NESTED.as_slice())
}

const NOT_REPEATED: [(&[u8], u64, u64); 18] = [
    (b"repeat 2\nstart wait/io/file/sql/binlog\ndone\n", 5, 9),
    (
        b"start wait/io/file/sql/binlog\nrepeat 2\nend\nstart statement/sql/select\ndone\n",
        7,
        9,
    ),
    (
        b"start statement/sql/select\nrepeat 2\nstart statement/sql/select\nend\nend\ndone\n",
        8,
        9,
    ),
    (b"repeat 2\nspend 1\n", 5, 4),
    (b"repeat 2\n", 4, 4),
    (b"repeat 2\nspend 1", 4, 2),
    (b"repeat 0\n", 3, 5),
    (b"repeat 18446744073709551616\n", 3, 5),
    (b"repeat 2\nquit\n", 4, 4),
    (b"repeat 2\nsession 2 u h\n", 4, 4),
    (b"repeat 2\nphase\n", 4, 4),
    (b"repeat 2\nrepeat 0\n", 4, 4),
    (b"done\n", 3, 4),
    (b"repeat 2\ndone\ndone\n", 5, 4),
    (b"repeat 199997\nspend 1\ndone\n", 5, 11),
    (b"repeat 99999\n#\n\ndone\n", 6, 11),
    (b"repeat 18446744073709551615\nspend 1\ndone\n", 5, 11),
    (b"repeat 2\nphase extra\n", 4, 3),
];

#[test]
fn rules_of_repeats_broken(rt: HostRuntime) -> Result<(), Fail> {
    expect_all(&rt, rt.alloc(), NOT_REPEATED.as_slice())
}

#[test]
fn a_block_keeps_its_lines(rt: HostRuntime) {
    let script = Script::read(
        rt.alloc(),
        b"limit stage_classes 0\nphase\nsession 1 u h\nstart transaction ro\nrepeat 7\nstart statement/sql/select\nstage stage/sql/init\n# nothing\nspend 3\nstage -\nend 1 2 3 4 5 6\ndone\nend\n",
    );
    let Ok(script) = script else {
        panic!(rt; "it is a script");
    };
    let kept = [
        BlockLine::Transaction(Access::ReadOnly),
        BlockLine::Repeat(7),
        BlockLine::Statement {
            class: ClassRef::Class(ClassId(12)),
            digest: Some(0),
        },
        BlockLine::Stage(ClassRef::Lost(pfs_classes::Kind::Stage)),
        BlockLine::Spend(3),
        BlockLine::StageEnd,
        BlockLine::EndStatement(StatementNumbers {
            lock: 1,
            errors: 2,
            warnings: 3,
            affected: 4,
            sent: 5,
            examined: 6,
        }),
        BlockLine::Done,
        BlockLine::End,
    ];
    let Some(phase) = script.phases.as_slice().first() else {
        panic!(rt; "it has a phase");
    };
    let Some(block) = phase.blocks.as_slice().first() else {
        panic!(rt; "it has a block");
    };
    assert_eq!(rt; block.lines.as_slice(), kept.as_slice());
}
