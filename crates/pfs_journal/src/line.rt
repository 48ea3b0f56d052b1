//! One line of a report.

ghost use Rattle.std.specs.Prelude.{◌≡◌, ◌↔◌, IsTrue, OnOk};
ghost use Rattle.pfs_journal.specs.SingleLines.{line_text, IsLine};
ghost use Rattle.pfs_journal.specs.LineWords.{FitsLine};

use crate::NoMemory;
use crate::checks::{is_name, is_row};
use crate::lines::{begin, entry_line, lost_line, one_line, row_line, table_line};
use crate::values::LostReport;
use pfs_event::Entry;
use pfs_text::{Row, Text};

/// What a line says.
#[derive(Drop)]
pub enum Line {
    /// The first line, with the number of the format.
    Head(u64),
    /// A phase begins.
    Phase(u64),
    /// A session's journal begins.
    Session(u64),
    /// An entry of a journal.
    Entry(Entry),
    /// A row of an answer or a table.
    Row(Row),
    /// The journals of a phase are at their end.
    Final,
    /// A table begins.
    Table(Text),
    /// A counter of what was lost.
    Lost(LostReport),
    /// The report is at its end.
    End,
}

/// Makes the line that says this.
#[tactic(auto, unfolding(crate::specs::SingleLines::line_text, crate::specs::Spelling::first_line, crate::specs::Spelling::phase_line, crate::specs::Spelling::session_line, crate::specs::Spelling::final_line))]
pub fn line_of(line: &mut Vec<u8>, says: &Line) -> Result<(), NoMemory>
    ensures text { OnOk result (line.new.items ≡ line_text says.now) }
    ensures fits { OnOk result (FitsLine says.now) }
{
    match says {
        Line::Head(format) => one_line(line, b"pfs-report", *format),
        Line::Phase(number) => one_line(line, b"phase", *number),
        Line::Session(number) => one_line(line, b"session", *number),
        Line::Entry(entry) => entry_line(line, entry),
        Line::Row(row) => row_line(line, row),
        Line::Final => begin(line, b"final\n"),
        Line::Table(name) => table_line(line, name.as_bytes()),
        Line::Lost(lost) => lost_line(line, lost),
        Line::End => begin(line, b"end\n"),
    }
}

/// Whether a report can have a line that says this.
pub fn is_line(says: &Line) -> bool
    ensures { IsTrue result ↔ IsLine says.now }
{
    match says {
        Line::Row(row) => is_row(row),
        Line::Table(name) => is_name(name.as_bytes()),
        Line::Lost(lost) => is_name(lost.name.as_bytes()),
        Line::Head(format) => *format == 1,
        _ => true,
    }
}
