//! The places of rows by a time that each has.

ghost use Rattle.std.specs.Prelude.{ℕ, ◌≡◌, ◌-◌, ◌<◌, map, length, IfOk, OnOk};
ghost use Rattle.pfs_view.specs.Grids.{greatest};
ghost use Rattle.pfs_html.specs.Rankings.{by_time, number_at as spec_number_at, number_of as spec_number_of, with_rank};

use crate::NoMemory;
use pfs_text::{Row, RowValue};
use std::alloc::Global;
use std::collections::BTreeMap;

/// Places of rows, the greatest time first; of equal times the first place.
type Ranks = BTreeMap<(u64, usize), usize>;

fn number_of(value: &RowValue) -> u64
    ensures { result ≡ spec_number_of value.now }
{
    match value {
        RowValue::Number(number) => *number,
        _ => 0,
    }
}

/// The number in a column of a row, 0 where there is none.
pub(crate) fn number_at(column: usize, row: &Row) -> u64
    ensures { result ≡ spec_number_at column row.now }
{
    match row.as_slice().get(column) {
        Some(value) => number_of(value),
        None => 0,
    }
}

/// The greatest number in a column.
pub(crate) fn greatest_number(column: usize, rows: &[Row]) -> u64
    ensures { result ≡ greatest (spec_number_at column) rows.now }
{
    let mut most = 0;
    for row in rows {
        most = most.max(number_at(column, row));
    }
    most
}

/// Puts the place of a row to its rank.
fn put_rank(column: usize, rows: &[Row], ranks: &mut Ranks, place: usize) -> Result<(), NoMemory>
    requires { place < length rows.now }
    ensures { OnOk result (ranks.new.entries ≡ with_rank column rows.now ranks.old.entries place) }
{
    let time = number_at(column, &rows[place]);
    ranks.insert((u64::MAX - time, place), place)?;
    Ok(())
}

fn in_order(alloc: Global, ranks: Ranks) -> Result<Vec<usize>, NoMemory>
    ensures { IfOk result (λ places. places.items ≡ map (λ (entry : (ℕ × ℕ) × ℕ). entry.1) ranks.entries) }
{
    ranks.into_values().collect(alloc)
}

/// The places of the rows, those with the greatest number in this column first; of equal ones in their order.
#[tactic(auto, unfolding(crate::specs::Rankings::by_time))]
pub(crate) fn places_by_time(
    alloc: Global,
    column: usize,
    rows: &[Row],
) -> Result<Vec<usize>, NoMemory>
    ensures { IfOk result (λ places. places.items ≡ by_time column rows.now) }
{
    let mut ranks = BTreeMap::new(alloc);
    for place in 0..rows.len() {
        put_rank(column, rows, &mut ranks, place)?;
    }
    in_order(alloc, ranks)
}
