//! The greatest version that a row got up to a number.

ghost use Rattle.std.specs.Prelude.{◌≡◌, ◌≤◌, List, length, IfOk};
ghost use Rattle.pfs_check_tops.specs.declared.tops.Given.{Given};
ghost use Rattle.pfs_check_tops.specs.Greatest.{greatest_up_to};
ghost use Rattle.pfs_check_tops.specs.SortedTops.{AreInOrder, AreTops, AreTopsOf, Parts, next_top, within_test};

use crate::NoMemory;
use std::alloc::Global;

/// A row got this version at a number: in this phase, or by this action.
#[derive(Clone, Copy, Debug, PartialEq, Eq, PartialOrd, Ord)]
pub struct Given {
    /// The number of the row, or of the switch word. A printed thread slot may be any number, so a word's may be above
    /// those of rows.
    pub row: u128,
    /// The phase, or the action.
    pub at: u64,
    pub version: u64,
}

/// What rows got, sorted by row and number, each with the greatest version of its row up to it.
#[derive(Debug, Drop)]
pub struct Tops {
    items: Vec<Given>,
}

// The greatest version of the row so far, where the last one was this.
fn next_top(last: Given, given: Given) -> Given
    ensures { result ≡ next_top last given }
{
    let version = if last.row == given.row {
        last.version.max(given.version)
    } else {
        given.version
    };
    Given {
        row: given.row,
        at: given.at,
        version,
    }
}

// Of givens in the order of their rows and numbers, each with the greatest version of its row up to it.
fn rank(alloc: Global, givens: &[Given]) -> Result<Vec<Given>, NoMemory>
    requires { AreInOrder givens.now }
    ensures { IfOk result (λ tops. AreTops tops.items givens.now) }
{
    let mut tops = Vec::new(alloc);
    let mut last = Given {
        row: 0,
        at: 0,
        version: 0,
    };
    for given in givens {
        last = next_top(last, *given);
        tops.push(last)?;
    }
    Ok(tops)
}

/// The tops of what rows got, given in whatever order. Err where memory runs out.
pub fn tops_of(alloc: Global, givens: Vec<Given>) -> Result<Tops, NoMemory>
    ensures { IfOk result (λ tops. AreTopsOf tops givens.items) }
{
    let mut sorted = givens;
    sorted.sort()?;
    let items = rank(alloc, sorted.as_slice())?;
    Ok(Tops { items })
}

// Whether it is in a lower row, or in this one up to this number.
fn is_within(top: Given, row: u128, at: u64) -> bool
    ensures { result ≡ within_test row at top }
{
    top.row < row || (top.row == row && top.at <= at)
}

// The place behind the tops of lower rows, and of this row up to a number.
fn behind(tops: &[Given], row: u128, at: u64) -> usize
    ensures within { result ≤ length tops.now }
    ensures parts { AreInOrder tops.now → Parts tops.now row at result result }
{
    let mut low = 0;
    let mut high = tops.len();
    while low < high {
        let middle = low + (high - low) / 2;
        if is_within(tops[middle], row, at) {
            low = middle + 1;
        } else {
            high = middle;
        }
    }
    low
}

impl Tops {
    /// The greatest version that a row got up to a number; None where it got none.
    pub fn greatest(&self, row: u128, at: u64) -> Option<u64>
        ensures { (givens : List Given) → AreTopsOf self.now givens → result ≡ greatest_up_to row at givens }
    {
        let tops = self.items.as_slice();
        let place = behind(tops, row, at);
        if place == 0 {
            return None;
        }
        let top = tops[place - 1];
        if top.row == row {
            Some(top.version)
        } else {
            None
        }
    }
}
