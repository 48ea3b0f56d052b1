//! How far entries were visited.

ghost use Rattle.std.specs.Prelude.{◌≡◌, ◌+◌, IfOk};

use crate::NoMemory;
use std::alloc::AllocError;

/// Entries that were visited in order.
#[derive(Clone, Copy, Debug, PartialEq, Eq)]
pub enum Visited {
    /// All keep the rule, and they are so many.
    Kept(u64),
    /// The place of the first that doesn't, counted from 0.
    Lacking(u64),
}

/// So many more. NoMemory stands too for more than can be counted, which no memory holds.
pub(crate) fn plus(count: u64, more: u64) -> Result<u64, NoMemory>
    ensures { IfOk result (λ all. all ≡ count + more) }
{
    match count.checked_add(more) {
        Some(all) => Ok(all),
        None => Err(AllocError),
    }
}
