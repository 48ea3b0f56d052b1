//! The puts of the long histories, as they are printed.

ghost use Rattle.std.specs.Prelude.{◌≡◌, ◌==◌};
ghost use Rattle.pfs_model.specs.Causes.{kind_of_row, long_row};
ghost use Rattle.pfs_model.specs.Rings.{is_reading_line};
ghost use Rattle.pfs_check_tickets.specs.PrintedPuts.{busy_put, put_of};

use pfs_event::Entry;
use pfs_model::Line;

/// A put: its row, and its ticket where that is shown.
#[derive(Clone, Copy, Debug, PartialEq, Eq)]
pub struct Put {
    pub row: u64,
    pub ticket: Option<u64>,
}

fn is_reading(line: &Line) -> bool
    ensures { result ≡ is_reading_line line.now }
{
    match *line {
        Line::Query => true,
        _ => false,
    }
}

// A busy row is one of a put, unless a SELECT read it.
fn busy_put(line: &Line, row: u64) -> Option<Put>
    ensures { result ≡ busy_put line.now row }
{
    if !is_reading(line) && row >= 10242 {
        return Some(Put { row, ticket: None });
    }
    None
}

/// The put that an entry of a line is, if it is one.
pub(crate) fn put_in(line: &Line, entry: &Entry) -> Option<Put>
    ensures { result ≡ put_of line.now entry.now }
{
    match *entry {
        Entry::Long { row, ticket, .. } => Some(Put {
            row,
            ticket: Some(ticket),
        }),
        Entry::Late { row, ticket, .. } => Some(Put {
            row,
            ticket: Some(ticket),
        }),
        Entry::Busy { row, .. } => busy_put(line, row),
        _ => None,
    }
}

/// The kind whose history a row belongs to.
pub(crate) fn kind_of(row: u64) -> u64
    ensures { result ≡ kind_of_row row }
{
    row.saturating_sub(10242) / 1000
}

/// Whether a ticket belongs to a place of a long history.
pub(crate) fn is_place_of(row: u64, ticket: u64) -> bool
    ensures { result ≡ (row == long_row (kind_of_row row) ticket) }
{
    let kind = row.saturating_sub(10242) / 1000;
    row as u128 == 10242 + 1000 * (kind as u128) + (ticket % 1000) as u128
}
