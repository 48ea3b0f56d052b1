//! Which values a report can have.

ghost use Rattle.std.specs.Prelude.{◌≡◌, ◌≤◌, ◌<◌, ◌↔◌, ◌∷◌, List, IsTrue, MatchOption, slice_index, drop, length};
ghost use Rattle.std.specs.List.{All};
ghost use Rattle.pfs_event.specs.declared.entry.Entry.{Entry};
ghost use Rattle.pfs_journal.specs.Reports.{is_text_byte, is_name_byte, IsText, IsName, IsValue, IsRow, IsTable, IsLost, IsBlock, IsPhase, AreAnswered, rows_asked, sizes_of};

use crate::blocks::{BlockReport, EntryList};
use crate::report::PhaseParts;
use crate::values::{LostReport, TableReport};
use pfs_event::Entry;
use pfs_text::{Row, RowValue, Rowset};

/// Whether a text may have the byte.
fn is_text_byte(byte: u8) -> bool
    ensures { result ≡ is_text_byte byte }
{
    byte == 9 || (byte >= 32 && byte <= 126)
}

/// Whether a name may have the byte.
fn is_name_byte(byte: u8) -> bool
    ensures { result ≡ is_name_byte byte }
{
    (byte >= 97 && byte <= 122)
        || (byte >= 65 && byte <= 90)
        || (byte >= 48 && byte <= 57)
        || byte == 95
}

/// Whether a report can have the text.
pub fn is_text(text: &[u8]) -> bool
    ensures { IsTrue result ↔ IsText text.now }
{
    text.iter().all(|byte| is_text_byte(*byte))
}

/// Whether a report can have the name.
pub fn is_name(name: &[u8]) -> bool
    ensures { IsTrue result ↔ IsName name.now }
{
    !name.is_empty() && name.iter().all(|byte| is_name_byte(*byte))
}

fn is_value(value: &RowValue) -> bool
    ensures { IsTrue result ↔ IsValue value.now }
{
    match value {
        RowValue::Null | RowValue::Number(_) => true,
        RowValue::Text(text) => is_text(text.as_bytes()),
    }
}

pub fn is_row(row: &Row) -> bool
    ensures { IsTrue result ↔ IsRow row.now }
{
    row.as_slice().iter().all(|value| is_value(value))
}

fn are_rows(rows: &Rowset) -> bool
    ensures { IsTrue result ↔ All IsRow rows.now }
{
    rows.as_slice().iter().all(|row| is_row(row))
}

fn is_table(table: &TableReport) -> bool
    ensures { IsTrue result ↔ IsTable table.now }
{
    is_name(table.name.as_bytes()) && !table.rows.as_slice().is_empty() && are_rows(&table.rows)
}

fn is_lost(lost: &LostReport) -> bool
    ensures { IsTrue result ↔ IsLost lost.now }
{
    is_name(lost.name.as_bytes())
}

fn are_answers(answers: &[Rowset]) -> bool
    ensures { IsTrue result ↔ All (All IsRow) answers.now }
{
    answers.iter().all(|rows| are_rows(rows))
}

/// How many rows the answer behind an entry has, where one is.
pub fn rows_asked(entry: &Entry) -> Option<u64>
    ensures { result ≡ rows_asked entry.now }
{
    match entry {
        Entry::Rows { number } => Some(*number),
        _ => None,
    }
}

/// Whether the answer in this place is there and has so many rows.
fn has_rows(answers: &[Rowset], place: usize, number: u64) -> bool
    ensures { IsTrue result ↔ ((place < length answers.now) × (slice_index (sizes_of answers.now) place ≡ number)) }
{
    place < answers.len() && answers[place].as_slice().len() as u64 == number
}

/// The place of the next answer behind an entry, or None where the one that is due isn't there.
fn place_behind(entry: &Entry, answers: &[Rowset], place: usize) -> Option<usize>
    requires { place ≤ length answers.now }
    ensures { (rest : List Entry)
        → MatchOption result (¬ AreAnswered (entry.now ∷ rest) (drop place answers.now))
        (λ next. (next ≤ length answers.now)
        × (AreAnswered (entry.now ∷ rest) (drop place answers.now) ↔ AreAnswered rest (drop next answers.now))) }
{
    match rows_asked(entry) {
        Some(number) => {
            if has_rows(answers, place, number) {
                Some(place + 1)
            } else {
                None
            }
        }
        None => Some(place),
    }
}

/// Whether each answer has so many rows as its entry says.
fn are_answered(entries: &EntryList, answers: &[Rowset]) -> bool
    ensures { IsTrue result ↔ AreAnswered entries.now answers.now }
{
    let mut place = 0usize;
    for at in 0..entries.count() {
        match place_behind(&entries.entry(at), answers, place) {
            Some(next) => place = next,
            None => return false,
        }
    }
    place == answers.len()
}

fn is_block(block: &BlockReport) -> bool
    ensures { IsTrue result ↔ IsBlock block.now }
{
    are_answered(&block.entries, block.answers.as_slice()) && are_answers(block.answers.as_slice())
}

fn are_blocks(blocks: &[BlockReport]) -> bool
    ensures { IsTrue result ↔ All IsBlock blocks.now }
{
    blocks.iter().all(|block| is_block(block))
}

fn are_tables(tables: &[TableReport]) -> bool
    ensures { IsTrue result ↔ All IsTable tables.now }
{
    tables.iter().all(|table| is_table(table))
}

fn are_lost(lost: &[LostReport]) -> bool
    ensures { IsTrue result ↔ All IsLost lost.now }
{
    lost.iter().all(|counter| is_lost(counter))
}

/// Whether a report can have a phase of these parts.
pub fn is_phase(parts: &PhaseParts) -> bool
    ensures { IsTrue result ↔ IsPhase parts.now }
{
    are_blocks(parts.blocks.as_slice())
        && are_tables(parts.tables.as_slice())
        && are_lost(parts.lost.as_slice())
}
