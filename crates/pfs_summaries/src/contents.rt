//! The contents of rows as the readings found them.

ghost use Rattle.std.specs.Prelude.{◌≡◌, ◌<◌, ◌≤◌, ◌-◌, nat_le, ◌&&◌, length, replicate, slice_set, slice_index_or, None, if◌then◌else◌, IfOk};
ghost use Rattle.pfs_rows.specs.declared.table.Reading.{Reading};
ghost use Rattle.pfs_summaries.specs.FoundContents.{whole_of, contents_of, info_at};
ghost use Rattle.pfs_summaries.specs.ReadingSteps.{with_reading};

use crate::NoMemory;
use pfs_containers::Content;
use pfs_rows::{Reading, Seen};
use std::alloc::Global;

// The content of a row that was found whole.
fn whole_of(seen: &Seen) -> Option<Content>
    ensures { result ≡ whole_of seen.now }
{
    match seen {
        Seen::Whole { content, .. } => Some(*content),
        Seen::Free { .. } | Seen::Busy { .. } => None,
    }
}

// So many rows of which nothing was read.
fn no_contents(alloc: Global, count: usize) -> Result<Vec<Option<Content>>, NoMemory>
    ensures { IfOk result (λ contents. contents.items ≡ replicate count None) }
{
    let mut contents = Vec::with_capacity(alloc, count)?;
    for _row in 0..count {
        contents.push(None)?;
    }
    Ok(contents)
}

// Takes what one reading found.
fn put_reading(contents: &mut [Option<Content>], first: u64, reading: &Reading)
    ensures { contents.new ≡ with_reading first reading.now contents.old }
{
    let Reading::Slot { row, seen } = reading else {
        return;
    };
    if first <= *row && *row - first < contents.len() as u64 {
        contents[(*row - first) as usize] = whole_of(seen);
    }
}

/// The contents of so many rows from the first on: of each what its last reading found, where it
/// found it whole.
pub fn contents_of(
    alloc: Global,
    first: u64,
    count: usize,
    readings: &[Reading],
) -> Result<Vec<Option<Content>>, NoMemory>
    ensures { IfOk result (λ contents. contents.items ≡ contents_of first count readings.now) }
{
    let mut contents = no_contents(alloc, count)?;
    for reading in readings {
        put_reading(&mut contents, first, reading);
    }
    Ok(contents)
}

/// What was found in one of the rows.
pub fn info_at(contents: &[Option<Content>], at: usize) -> Option<Content>
    ensures { result ≡ info_at contents.now at }
{
    if at < contents.len() {
        contents[at]
    } else {
        None
    }
}
