//! Examples of the manual of MySQL, and each call that may want memory.
use crate::asserts::same;
use pfs_text::*;
use std::test::Fail;

const LIKES: [(&str, &str, bool); 8] = [
    ("David!", "David_", true),
    ("David!", "%D%v%", true),
    ("David!", "David\\_", false),
    ("David_", "David\\_", true),
    ("abc", "ABC", false),
    ("10%", "1%\\%", true),
    ("a\\", "a\\", true),
    (
        "aaaaaaaaaaaaaaaaaaaaaaaaaaaaaaaa",
        "%a%a%a%a%a%a%a%a%a%a%b",
        false,
    ),
];

// Texts compare by bytes here, so that letter case counts.
#[test]
fn likes(rt: HostRuntime) {
    for (text, pattern, want) in &LIKES {
        let is_like = like(pattern.as_bytes(), text.as_bytes());
        same(&rt, pattern, is_like, *want);
    }
}

const NUMBERS: [(&str, Option<u64>); 6] = [
    ("18446744073709551615", Some(u64::MAX)),
    ("18446744073709551616", None),
    ("007", Some(7)),
    ("", None),
    ("+1", None),
    ("1 ", None),
];

#[test]
fn numbers(rt: HostRuntime) -> Result<(), Fail> {
    let mut out = Vec::new(rt.alloc());
    put_u64(&mut out, 0)?;
    put_u64(&mut out, u64::MAX)?;
    let want = b"018446744073709551615";
    same(&rt, "digits", out.as_slice(), want.as_slice());
    for (text, want) in &NUMBERS {
        same(&rt, text, read_u64(text.as_bytes()), *want);
    }
    Ok(())
}

const QUOTES: [(&str, Option<usize>); 5] = [
    ("'a''b' c", Some(6)),
    ("''", Some(2)),
    ("'''", None),
    ("'abc", None),
    ("abc'", None),
];

#[test]
fn quotes(rt: HostRuntime) -> Result<(), Fail> {
    let mut out = Vec::new(rt.alloc());
    quote(&mut out, b"a'b")?;
    same(&rt, "quoted", out.as_slice(), b"'a''b'".as_slice());
    for (text, want) in &QUOTES {
        same(&rt, text, unquote(text.as_bytes()), *want);
    }
    Ok(())
}

#[test]
fn texts_and_conditions(rt: HostRuntime) -> Result<(), Fail> {
    let text = Text::from_slice(rt.alloc(), b"b")?;
    let copy = text.clone()?;
    same(&rt, "copy", copy == text, true);
    let test = Test {
        column: 0,
        kind: TestKind::Compare(Comparison::Less, Literal::Text(text)),
    };
    same(&rt, "less", meets(&test, Shown::Text(b"B")), true);
    same(&rt, "more", meets(&test, Shown::Text(b"bb")), false);
    same(&rt, "null", meets(&test, Shown::Null), false);
    same(&rt, "number", meets(&test, Shown::Number(0)), false);
    Ok(())
}
