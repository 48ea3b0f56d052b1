//! A journal cut by its lines.

ghost use Rattle.std.specs.Prelude.{◌≤◌, length, IfOk};
ghost use Rattle.pfs_model.specs.Contexts.{Context};
ghost use Rattle.pfs_check_parts.specs.Parts.{IsJournalCut, IsLineCut};
ghost use Rattle.pfs_check_trail.specs.Trails.{IsTrailOf};

use crate::NoMemory;
use crate::cuts::{Stop, cut_at};
use crate::items::put_shape;
use pfs_check_trail::Trail;
use pfs_journal::EntryList;
use pfs_model::{Item, Line};
use std::alloc::Global;

/// A journal cut by its lines.
#[derive(Debug, Drop)]
pub enum Cut {
    /// The place behind the entries of each line.
    Parts(Vec<usize>),
    /// The place of the first entry that fits no line; where one is missing at the end, the place behind the last.
    Misfit(usize),
}

// Cuts off a line's entries, and notes them where they are whole.
fn cut_line(
    trail: &mut Trail,
    items: &mut Vec<Item>,
    line: &Line,
    entries: &EntryList,
    at: usize,
) -> Result<Stop, NoMemory>
    requires { at ≤ length entries.now }
    ensures { IfOk result (λ stop. IsLineCut trail.old line.now entries.now at stop trail.new) }
{
    put_shape(items, trail, line)?;
    let stop = cut_at(items.as_slice(), entries, at);
    if !stop.whole {
        return Ok(stop);
    }
    trail.turn();
    trail.note_part(line, entries, at, stop.at)?;
    Ok(stop)
}

/// Cuts a journal by its lines, behind the entries that the trail has. At parts the trail has this journal's entries too;
/// what it has at a misfit isn't said.
pub fn cut_journal(
    alloc: Global,
    trail: &mut Trail,
    lines: &[Line],
    entries: &EntryList,
) -> Result<Cut, NoMemory>
    ensures { (context : Context) → IsTrailOf context trail.old
        → IfOk result (IsJournalCut context lines.now entries.now trail.new) }
{
    let mut items = Vec::new(alloc);
    let mut ends = Vec::new(alloc);
    let mut at = 0;
    for line in lines {
        let stop = cut_line(trail, &mut items, line, entries, at)?;
        if !stop.whole {
            return Ok(Cut::Misfit(stop.at));
        }
        ends.push(stop.at)?;
        at = stop.at;
    }
    if at < entries.count() {
        return Ok(Cut::Misfit(at));
    }
    Ok(Cut::Parts(ends))
}
