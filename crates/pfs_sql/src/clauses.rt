//! ORDER BY, LIMIT, and the assignments of SET.
ghost use Rattle.std.specs.Prelude.{◌≡◌, ◌<◌, ◌≤◌, IfOk, length};
ghost use Rattle.pfs_sql.specs.TokenReaders as reading;

use crate::command::{Assignment, NamedOrder};
use crate::faults::SqlFault;
use crate::lists::{AssignmentList, NamedOrderList};
use crate::names::{name_at, number_at, text_at};
use crate::token::Token;
use crate::words::{after_comma, after_key, expect_equal, expect_key};
use std::alloc::Global;

// Whether DESC stands there, and what stands behind it or behind ASC.
#[tactic(auto, unfolding(crate::specs::TokenReaders::direction_at))]
fn direction_at(tokens: &[Token]) -> (bool, &[Token])
    ensures read { (result.0, result.1.now) ≡ reading.direction_at tokens.now }
    ensures within { length result.1.now ≤ length tokens.now }
{
    match after_key(tokens, b"asc") {
        Some(rest) => (false, rest),
        None => match after_key(tokens, b"desc") {
            Some(rest) => (true, rest),
            None => (false, tokens),
        },
    }
}

// One column to order by.
#[tactic(auto, unfolding(crate::specs::TokenReaders::order_item_at))]
fn order_item_at(alloc: Global, tokens: &[Token]) -> Result<(NamedOrder, &[Token]), SqlFault>
    ensures read { reading.Gives (λ x. (x.0, x.1.now)) result (reading.order_item_at tokens.now) }
    ensures shorter { IfOk result (λ x. length x.1.now < length tokens.now) }
{
    let (column, rest) = name_at(alloc, tokens)?;
    let (descending, rest) = direction_at(rest);
    Ok((NamedOrder { column, descending }, rest))
}

// Columns to order by, with commas between them.
fn order_items_at(alloc: Global, tokens: &[Token]) -> Result<(NamedOrderList, &[Token]), SqlFault>
    ensures { reading.Gives (λ x. (x.0, x.1.now)) result (reading.order_items_at tokens.now) }
{
    let mut items = Vec::new(alloc);
    let mut rest = tokens;
    'items: loop {
        let (item, behind) = order_item_at(alloc, rest)?;
        items.push(item)?;
        match after_comma(behind) {
            Some(more) => rest = more,
            None => return Ok((NamedOrderList::new(items), behind)),
        }
    }
}

/// ORDER BY with its columns, or none where it is left out.
pub(crate) fn order_at(
    alloc: Global,
    tokens: &[Token],
) -> Result<(NamedOrderList, &[Token]), SqlFault>
    ensures { reading.Gives (λ x. (x.0, x.1.now)) result (reading.order_at tokens.now) }
{
    match after_key(tokens, b"order") {
        Some(rest) => {
            let rest = expect_key(rest, b"by")?;
            order_items_at(alloc, rest)
        }
        None => Ok((NamedOrderList::new(Vec::new(alloc)), tokens)),
    }
}

/// LIMIT with its number, or None where it is left out.
pub(crate) fn limit_at(tokens: &[Token]) -> Result<(Option<u64>, &[Token]), SqlFault>
    ensures { reading.Gives (λ x. (x.0, x.1.now)) result (reading.limit_at tokens.now) }
{
    match after_key(tokens, b"limit") {
        Some(rest) => {
            let (number, rest) = number_at(rest)?;
            Ok((Some(number), rest))
        }
        None => Ok((None, tokens)),
    }
}

// One assignment.
#[tactic(auto, unfolding(crate::specs::TokenReaders::assignment_at))]
fn assignment_at(alloc: Global, tokens: &[Token]) -> Result<(Assignment, &[Token]), SqlFault>
    ensures read { reading.Gives (λ x. (x.0, x.1.now)) result (reading.assignment_at tokens.now) }
    ensures shorter { IfOk result (λ x. length x.1.now < length tokens.now) }
{
    let (column, rest) = name_at(alloc, tokens)?;
    let rest = expect_equal(rest)?;
    let (value, rest) = text_at(rest)?;
    Ok((Assignment { column, value }, rest))
}

/// Assignments with commas between them.
pub(crate) fn assignments_at(
    alloc: Global,
    tokens: &[Token],
) -> Result<(AssignmentList, &[Token]), SqlFault>
    ensures { reading.Gives (λ x. (x.0, x.1.now)) result (reading.assignments_at tokens.now) }
{
    let mut assignments = Vec::new(alloc);
    let mut rest = tokens;
    'items: loop {
        let (assignment, behind) = assignment_at(alloc, rest)?;
        assignments.push(assignment)?;
        match after_comma(behind) {
            Some(more) => rest = more,
            None => return Ok((AssignmentList::new(assignments), behind)),
        }
    }
}
