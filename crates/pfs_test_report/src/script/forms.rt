//! What lines say, in a table: each line beside what it says, or beside the reason why it says nothing.

use pfs_script::forms::parse_line;
use std::alloc::Global;
use std::process::Abort;
use std::test::Fail;

/// What the line says as its form is printed, or its reason.
fn said(alloc: Global, line: &[u8]) -> Result<String, Fail> {
    let text = match parse_line(line) {
        Ok(form) => format!(in alloc; "{form:?}")?,
        Err(reason) => format!(in alloc; "{reason:?}")?,
    };
    Ok(text)
}

fn expect_all(rt: &impl Abort, alloc: Global, cases: &[(&[u8], &str)]) -> Result<(), Fail> {
    for (line, wanted) in cases {
        let told = said(alloc, line)?;
        assert_eq!(rt; told.as_str(), *wanted);
    }
    Ok(())
}

const HEADING: [(&[u8], &str); 15] = [
    (b"", "Silent"),
    (b"#", "Silent"),
    (b"# a  comment\t", "Silent"),
    (
        b"limit accounts 0012",
        r#"Limit { name: "accounts", value: Some(12) }"#,
    ),
    (
        b"limit a\tb 18446744073709551615",
        r#"Limit { name: "a\tb", value: Some(18446744073709551615) }"#,
    ),
    (
        b"limit x 18446744073709551616",
        r#"Limit { name: "x", value: None }"#,
    ),
    (
        b"limit x 000000000000000000000001",
        r#"Limit { name: "x", value: Some(1) }"#,
    ),
    (
        b"class wait/synch/mutex/a/b:C.d-9_ YES NO",
        r#"Class { name: "wait/synch/mutex/a/b:C.d-9_", kind: Mutex, enabled: true, timed: false }"#,
    ),
    (
        b"class stage/sql/init NO YES",
        r#"Class { name: "stage/sql/init", kind: Stage, enabled: false, timed: true }"#,
    ),
    (
        b"class transaction/x NO NO",
        r#"Class { name: "transaction/x", kind: Transaction, enabled: false, timed: false }"#,
    ),
    (
        b"consumer global_instrumentation NO",
        r#"Consumer { name: "global_instrumentation", on: false }"#,
    ),
    (b"consumer ! YES", r#"Consumer { name: "!", on: true }"#),
    (
        b"instrument % YES NO",
        r#"Instrument { pattern: "%", enabled: true, timed: false }"#,
    ),
    (
        b"instrument wait/_o/# NO NO",
        r#"Instrument { pattern: "wait/_o/#", enabled: false, timed: false }"#,
    ),
    (b"phase", "Phase"),
];

#[test]
fn lines_of_the_heading(rt: HostRuntime) -> Result<(), Fail> {
    expect_all(&rt, rt.alloc(), HEADING.as_slice())
}

const BLOCK: [(&[u8], &str); 26] = [
    (b"session 07", "Resume { session: Some(7) }"),
    (b"session 18446744073709551616", "Resume { session: None }"),
    (
        b"session 65 u.x_-Y h-1.example",
        r#"Connect { session: Some(65), user: "u.x_-Y", host: "h-1.example" }"#,
    ),
    (
        b"start wait/synch/mutex/a/b",
        r#"Wait { class: "wait/synch/mutex/a/b" }"#,
    ),
    (
        b"start wait/synch/rwlock/a",
        r#"Wait { class: "wait/synch/rwlock/a" }"#,
    ),
    (
        b"start wait/synch/cond/a",
        r#"Wait { class: "wait/synch/cond/a" }"#,
    ),
    (
        b"start wait/io/file/sql/binlog",
        r#"Wait { class: "wait/io/file/sql/binlog" }"#,
    ),
    (
        b"start wait/io/socket/a",
        r#"Wait { class: "wait/io/socket/a" }"#,
    ),
    (
        b"start wait/io/table/sql/handler shop.a_$1",
        r#"TableWait { class: "wait/io/table/sql/handler", schema: "shop", name: "a_$1" }"#,
    ),
    (
        b"start wait/lock/table/x $.B",
        r#"TableWait { class: "wait/lock/table/x", schema: "$", name: "B" }"#,
    ),
    (
        b"start statement/sql/select",
        r#"Statement { class: "statement/sql/select", text: "" }"#,
    ),
    (
        b"start statement/sql/select ",
        r#"Statement { class: "statement/sql/select", text: "" }"#,
    ),
    (
        b"start statement/sql/do  a  ; ",
        r#"Statement { class: "statement/sql/do", text: " a  ; " }"#,
    ),
    (b"start transaction rw", "Transaction { access: ReadWrite }"),
    (b"start transaction ro", "Transaction { access: ReadOnly }"),
    (
        b"stage stage/sql/init",
        r#"Stage { class: "stage/sql/init" }"#,
    ),
    (b"stage -", "StageEnd"),
    (b"spend 0", "Spend { time: Some(0) }"),
    (b"end", "End"),
    (
        b"end 1 02 3 4 18446744073709551616 6",
        "EndStatement { numbers: Numbers { lock: Some(1), errors: Some(2), warnings: Some(3), affected: Some(4), sent: None, examined: Some(6) } }",
    ),
    (b"sql SELECT  1", r#"Sql { text: "SELECT  1" }"#),
    (b"sql  ", r#"Sql { text: " " }"#),
    (b"quit", "Quit"),
    (b"repeat 0", "Repeat { times: Some(0) }"),
    (b"repeat 18446744073709551616", "Repeat { times: None }"),
    (b"done", "Done"),
];

#[test]
fn lines_of_a_block(rt: HostRuntime) -> Result<(), Fail> {
    expect_all(&rt, rt.alloc(), BLOCK.as_slice())
}

fn expect_each(rt: &impl Abort, alloc: Global, lines: &[&[u8]], wanted: &str) -> Result<(), Fail> {
    for line in lines {
        let told = said(alloc, line)?;
        assert_eq!(rt; told.as_str(), wanted);
    }
    Ok(())
}

const BYTES: [&[u8]; 6] = [
    b"\0",
    b"phase\r",
    b"# \x7f",
    b"spend 5\x80",
    b"nothing \x1f",
    b"\xff",
];

#[test]
fn bad_bytes(rt: HostRuntime) -> Result<(), Fail> {
    expect_each(&rt, rt.alloc(), BYTES.as_slice(), "BadByte")
}

const BAD_HEADING: [&[u8]; 31] = [
    b" ",
    b"\t",
    b" # no comment",
    b"nothing",
    b"Phase",
    b"\tphase",
    b" phase",
    b"phase ",
    b"phase 1",
    b"limit",
    b"limit ",
    b"limit x",
    b"limit x ",
    b"limit  1",
    b"limit x 1 ",
    b"limit x  1",
    b"limit x -1",
    b"limit x 1k",
    b"class wait/io/file/a YES",
    b"class wait/io/file/a YES NO ",
    b"class wait/io/file/a yes YES",
    b"class wait/io/file/a  YES YES",
    b"class wait/io/file YES YES",
    b"class wait/io/file/ YES YES",
    b"class wait/io/file/a//b YES YES",
    b"class transaction YES YES",
    b"class idle/a YES YES",
    b"consumer  YES",
    b"consumer x YES NO",
    b"instrument  YES YES",
    b"instrument a b YES YES",
];

#[test]
fn bad_forms_of_the_heading(rt: HostRuntime) -> Result<(), Fail> {
    expect_each(&rt, rt.alloc(), BAD_HEADING.as_slice(), "BadForm")
}

const BAD_BLOCK: [&[u8]; 44] = [
    b"session",
    b"session ",
    b"session x",
    b"session 1 ",
    b"session 1 u",
    b"session 1 u ",
    b"session 1  h",
    b"session 1 u h ",
    b"session 1 u h i",
    b"session 1 u@ h",
    b"session 1 u h$",
    b"start",
    b"start ",
    b"start nothing",
    b"start wait/io/file",
    b"start wait/io/file/a ",
    b"start wait/io/file/a x",
    b"start  wait/io/file/a",
    b"start stage/sql/init",
    b"start stage/sql/init x",
    b"start transaction",
    b"start transaction ",
    b"start transaction rx",
    b"start transaction rw ",
    b"start transaction/x rw",
    b"start wait/io/table/sql/handler",
    b"start wait/io/table/sql/handler a",
    b"start wait/io/table/sql/handler a.",
    b"start wait/io/table/sql/handler .b",
    b"start wait/lock/table/sql/handler a.b.c",
    b"start wait/lock/table/sql/handler a-.b",
    b"stage",
    b"stage stage",
    b"stage - ",
    b"stage statement/sql/select",
    b"spend 5 ",
    b"spend 5\t",
    b"end ",
    b"end 1 2 3 4 5",
    b"end 1 2 3 4 5 6 7",
    b"end 1 2  4 5 6",
    b"sql ",
    b"quit now",
    b"done 1",
];

#[test]
fn bad_forms_of_a_block(rt: HostRuntime) -> Result<(), Fail> {
    expect_each(&rt, rt.alloc(), BAD_BLOCK.as_slice(), "BadForm")
}

const LONGEST: [(&[u8], &str); 4] = [
    (
        b"start wait/io/file/aaaaaaaaaaaaaaaaaaaaaaaaaaaaaaaaaaaaaaaaaaaaaaaaaaaaaaaaaaaaaaaaaaaaaaaaaaaaaaaaaaaaaaaaaaaaaaaaaaaaaaaaaaaaaaaaaaa",
        r#"Wait { class: "wait/io/file/aaaaaaaaaaaaaaaaaaaaaaaaaaaaaaaaaaaaaaaaaaaaaaaaaaaaaaaaaaaaaaaaaaaaaaaaaaaaaaaaaaaaaaaaaaaaaaaaaaaaaaaaaaaaaaaaaaa" }"#,
    ),
    (
        b"session 1 01234567890123456789012345678901 012345678901234567890123456789012345678901234567890123456789",
        r#"Connect { session: Some(1), user: "01234567890123456789012345678901", host: "012345678901234567890123456789012345678901234567890123456789" }"#,
    ),
    (
        b"start wait/lock/table/x 0123456789012345678901234567890123456789012345678901234567890123.a",
        r#"TableWait { class: "wait/lock/table/x", schema: "0123456789012345678901234567890123456789012345678901234567890123", name: "a" }"#,
    ),
    (
        b"start wait/lock/table/x a.0123456789012345678901234567890123456789012345678901234567890123",
        r#"TableWait { class: "wait/lock/table/x", schema: "a", name: "0123456789012345678901234567890123456789012345678901234567890123" }"#,
    ),
];

const TOO_LONG: [&[u8]; 5] = [
    b"session 1 012345678901234567890123456789012 h",
    b"session 1 u 0123456789012345678901234567890123456789012345678901234567890",
    b"start wait/lock/table/x 01234567890123456789012345678901234567890123456789012345678901234.a",
    b"start wait/lock/table/x a.01234567890123456789012345678901234567890123456789012345678901234",
    b"start wait/io/file/aaaaaaaaaaaaaaaaaaaaaaaaaaaaaaaaaaaaaaaaaaaaaaaaaaaaaaaaaaaaaaaaaaaaaaaaaaaaaaaaaaaaaaaaaaaaaaaaaaaaaaaaaaaaaaaaaaaa",
];

/// Names at their greatest length, and a byte longer.
#[test]
fn names_of_a_length(rt: HostRuntime) -> Result<(), Fail> {
    expect_all(&rt, rt.alloc(), LONGEST.as_slice())?;
    expect_each(&rt, rt.alloc(), TOO_LONG.as_slice(), "BadForm")
}
