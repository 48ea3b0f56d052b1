//! Conditions.
ghost use Rattle.std.specs.Prelude.{◌≡◌, ◌<◌, IfOk, length};
ghost use Rattle.pfs_sql.specs.TokenReaders as reading;

use crate::command::NamedTest;
use crate::faults::SqlFault;
use crate::lists::NamedTestList;
use crate::names::{literal_at, name_at, text_at};
use crate::token::Token;
use crate::words::{after_key, expect_key};
use pfs_text::{Comparison, TestKind};
use std::alloc::Global;

// What stands behind IS.
#[tactic(auto, unfolding(crate::specs::TokenReaders::null_at))]
fn null_at(tokens: &[Token]) -> Result<(TestKind, &[Token]), SqlFault>
    ensures read { reading.Gives (λ x. (x.0, x.1.now)) result (reading.null_at tokens.now) }
    ensures shorter { IfOk result (λ x. length x.1.now < length tokens.now) }
{
    match after_key(tokens, b"not") {
        Some(rest) => {
            let rest = expect_key(rest, b"null")?;
            Ok((TestKind::IsNotNull, rest))
        }
        None => {
            let rest = expect_key(tokens, b"null")?;
            Ok((TestKind::IsNull, rest))
        }
    }
}

// What stands behind LIKE.
#[tactic(auto, unfolding(crate::specs::TokenReaders::like_at))]
fn like_at(tokens: &[Token]) -> Result<(TestKind, &[Token]), SqlFault>
    ensures read { reading.Gives (λ x. (x.0, x.1.now)) result (reading.like_at tokens.now) }
    ensures shorter { IfOk result (λ x. length x.1.now < length tokens.now) }
{
    let (pattern, rest) = text_at(tokens)?;
    Ok((TestKind::Like(pattern), rest))
}

// What stands behind a comparison.
#[tactic(auto, unfolding(crate::specs::TokenReaders::compared_at))]
fn compared_at(comparison: Comparison, tokens: &[Token]) -> Result<(TestKind, &[Token]), SqlFault>
    ensures read { reading.Gives (λ x. (x.0, x.1.now)) result (reading.compared_at comparison tokens.now) }
    ensures shorter { IfOk result (λ x. length x.1.now < length tokens.now) }
{
    let (literal, rest) = literal_at(tokens)?;
    Ok((TestKind::Compare(comparison, literal), rest))
}

// LIKE with its text, or IS with NULL or NOT NULL.
#[tactic(auto, unfolding(crate::specs::TokenReaders::word_kind_at))]
fn word_kind_at(tokens: &[Token]) -> Result<(TestKind, &[Token]), SqlFault>
    ensures read { reading.Gives (λ x. (x.0, x.1.now)) result (reading.word_kind_at tokens.now) }
    ensures shorter { IfOk result (λ x. length x.1.now < length tokens.now) }
{
    match after_key(tokens, b"like") {
        Some(rest) => like_at(rest),
        None => {
            let rest = expect_key(tokens, b"is")?;
            null_at(rest)
        }
    }
}

// What is asked of a column.
#[tactic(auto, unfolding(crate::specs::TokenReaders::kind_at))]
fn kind_at(tokens: &[Token]) -> Result<(TestKind, &[Token]), SqlFault>
    ensures read { reading.Gives (λ x. (x.0, x.1.now)) result (reading.kind_at tokens.now) }
    ensures shorter { IfOk result (λ x. length x.1.now < length tokens.now) }
{
    match tokens {
        [Token::Compares(comparison), rest @ ..] => compared_at(*comparison, rest),
        _ => word_kind_at(tokens),
    }
}

// One condition.
#[tactic(auto, unfolding(crate::specs::TokenReaders::test_at))]
fn test_at(alloc: Global, tokens: &[Token]) -> Result<(NamedTest, &[Token]), SqlFault>
    ensures read { reading.Gives (λ x. (x.0, x.1.now)) result (reading.test_at tokens.now) }
    ensures shorter { IfOk result (λ x. length x.1.now < length tokens.now) }
{
    let (column, rest) = name_at(alloc, tokens)?;
    let (kind, rest) = kind_at(rest)?;
    Ok((NamedTest { column, kind }, rest))
}

// Conditions with AND between them.
fn tests_at(alloc: Global, tokens: &[Token]) -> Result<(NamedTestList, &[Token]), SqlFault>
    ensures { reading.Gives (λ x. (x.0, x.1.now)) result (reading.tests_at tokens.now) }
{
    let mut tests = Vec::new(alloc);
    let mut rest = tokens;
    'items: loop {
        let (test, behind) = test_at(alloc, rest)?;
        tests.push(test)?;
        match after_key(behind, b"and") {
            Some(more) => rest = more,
            None => return Ok((NamedTestList::new(tests), behind)),
        }
    }
}

/// WHERE with its conditions, or none where it is left out.
pub(crate) fn conditions_at(
    alloc: Global,
    tokens: &[Token],
) -> Result<(NamedTestList, &[Token]), SqlFault>
    ensures { reading.Gives (λ x. (x.0, x.1.now)) result (reading.conditions_at tokens.now) }
{
    match after_key(tokens, b"where") {
        Some(rest) => tests_at(alloc, rest),
        None => Ok((NamedTestList::new(Vec::new(alloc)), tokens)),
    }
}
