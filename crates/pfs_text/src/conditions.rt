//! The conditions of a `WHERE`.
ghost use Rattle.std.specs.Prelude.{◌↔◌, IsTrue};
ghost use Rattle.pfs_text.specs.Conditions.{Agrees, Meets};

use crate::{Text, like};
use std::cmp::Ordering;

/// How the value is to stand to the literal.
#[derive(Clone, Copy, Debug, PartialEq, Eq)]
pub enum Comparison {
    Equal,
    Unequal,
    Less,
    AtMost,
    Greater,
    AtLeast,
}

/// A number or a text that a value is compared with.
#[derive(Debug, Drop)]
pub enum Literal {
    Number(u64),
    Text(Text),
}

/// What a condition asks of a value.
#[derive(Debug, Drop)]
pub enum TestKind {
    Compare(Comparison, Literal),
    Like(Text),
    IsNull,
    IsNotNull,
}

/// One condition: the place of its column in the table, from 0, and what it asks of the value there.
#[derive(Debug, Drop)]
pub struct Test {
    pub column: u64,
    pub kind: TestKind,
}

/// The value of a row in the tested column.
#[derive(Clone, Copy, Debug)]
pub enum Shown<'a> {
    Null,
    Number(u64),
    Text(&'a [u8]),
}

/// Whether the value meets the condition. A comparison or LIKE is false of NULL and of a value of another type than its
/// literal. Texts compare by their bytes, letter case included.
pub fn meets(test: &Test, shown: Shown<'_>) -> bool
    ensures { IsTrue result ↔ Meets test.now.kind shown.entry }
{
    match &test.kind {
        TestKind::Compare(comparison, literal) => compares(*comparison, literal, shown),
        TestKind::Like(pattern) => is_like(pattern, shown),
        TestKind::IsNull => is_null(shown),
        TestKind::IsNotNull => !is_null(shown),
    }
}

fn is_null(shown: Shown<'_>) -> bool
    ensures { IsTrue result ↔ Meets TestKind.IsNull shown.entry }
{
    match shown {
        Shown::Null => true,
        Shown::Number(_) | Shown::Text(_) => false,
    }
}

fn is_like(pattern: &Text, shown: Shown<'_>) -> bool
    ensures { IsTrue result ↔ Meets (TestKind.Like pattern.now) shown.entry }
{
    match shown {
        Shown::Text(text) => like(pattern.as_bytes(), text),
        Shown::Null | Shown::Number(_) => false,
    }
}

fn compares(comparison: Comparison, literal: &Literal, shown: Shown<'_>) -> bool
    ensures { IsTrue result ↔ Meets (TestKind.Compare comparison literal.now) shown.entry }
{
    match (literal, shown) {
        (Literal::Number(literal), Shown::Number(value)) => agrees(comparison, value.cmp(literal)),
        (Literal::Text(literal), Shown::Text(value)) => agrees(
            comparison,
            value.cmp(literal.as_bytes()),
        ),
        _ => false,
    }
}

fn agrees(comparison: Comparison, order: Ordering) -> bool
    ensures { IsTrue result ↔ Agrees comparison order }
{
    match comparison {
        Comparison::Equal => order.is_eq(),
        Comparison::Unequal => order.is_ne(),
        Comparison::Less => order.is_lt(),
        Comparison::AtMost => order.is_le(),
        Comparison::Greater => order.is_gt(),
        Comparison::AtLeast => order.is_ge(),
    }
}
