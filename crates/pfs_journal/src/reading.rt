//! Taking a report's lines one by one.

ghost use Rattle.std.specs.Prelude.{ℕ, List, ◌≡◌, ◌≢◌, ◌≤◌, ◌++◌, ◌∷◌, [], ◌+◌, ◌^◌, ◌<◌, ◌↔◌, length, IsTrue, Some, IfOk, OnOk, IfSome, MatchOption, take, drop};
ghost use Rattle.pfs_journal.specs.SingleLines.{line_text, IsLine, IsGoodLine};
ghost use Rattle.pfs_journal.specs.ReportPlaces.{Place, Ended, step, capped, Leads, StopsAfter};
ghost use Rattle.pfs_journal.specs.ReportReadings.{IsTaken, IfBad};
ghost use Rattle.pfs_journal.specs.LineWords.{FitsLine, is_line_byte};
ghost use Rattle.std.specs.List.{prefix_len};
ghost use Rattle.pfs_journal.specs.declared.line.Line.{Line};
ghost use Rattle.pfs_journal.specs.declared.reading.ReadStop.TheVariants as stop;

use crate::NoMemory;
use crate::guess::guess;
use crate::line::{Line, is_line, line_of};
use std::alloc::Global;
use thiserror::Error;

/// Why bytes were not read as a report.
#[derive(Clone, Copy, Debug, PartialEq, Eq, Error)]
pub enum ReadStop {
    /// The first wrong line, counted from 1.
    #[error("line {at} of the report is wrong")]
    Bad { at: u64 },
    /// Memory ran out.
    #[error("out of memory")]
    NoMemory,
}

/// What is left of a report's bytes, how many lines were taken, and the buffer in which what a line
/// seems to say is spelled.
#[derive(Drop)]
pub struct Lines<'a> {
    pub rest: &'a [u8],
    pub taken: u64,
    pub buffer: Vec<u8>,
}

/// Appends to a list.
pub fn push<T: Drop>(list: &mut Vec<T>, item: T) -> Result<(), ReadStop>
    ensures pushed { OnOk result (list.new.items ≡ list.old.items ++ item ∷ []) }
    ensures memory { IfBad result (λ at. ⊥) }
{
    match list.push(item) {
        Ok(()) => Ok(()),
        Err(_) => Err(ReadStop::NoMemory),
    }
}

/// Whether the line says this, and a report can have it.
fn is_spelled(buffer: &mut Vec<u8>, line: &[u8], says: &Line) -> Result<bool, NoMemory>
    ensures is { IfOk result (λ is. IsTrue is ↔ (IsLine says.now × (line.now ≡ line_text says.now))) }
    ensures fits { IfOk result (λ _. FitsLine says.now) }
{
    line_of(buffer, says)?;
    Ok(is_line(says) && buffer.as_slice() == line)
}

/// That the line says this, where it does and a report can have it.
fn keep_spelled(buffer: &mut Vec<u8>, line: &[u8], says: Line) -> Result<Option<Line>, NoMemory>
    ensures found { IfOk result (λ found. IfSome found (λ kept. IsGoodLine kept × (line.now ≡ line_text kept))) }
    ensures kept { IsLine says → line.now ≡ line_text says → IfOk result (λ found. found ≡ Some says) }
{
    if is_spelled(buffer, line, &says)? {
        Ok(Some(says))
    } else {
        Ok(None)
    }
}

/// What a line says, with its line feed, where a report can have it. No line that a report can have
/// is refused.
fn read_line(alloc: Global, buffer: &mut Vec<u8>, line: &[u8]) -> Result<Option<Line>, NoMemory>
    requires { 0 < length line.now }
    ensures found { IfOk result (λ found. IfSome found (λ says. IsGoodLine says × (line.now ≡ line_text says))) }
    ensures taken { (says : Line) → IsLine says → FitsLine says → line.now ≡ line_text says
        → IfOk result (λ found. found ≡ Some says) }
{
    match guess(alloc, &line[..line.len() - 1])? {
        Some(says) => keep_spelled(buffer, line, says),
        None => Ok(None),
    }
}

/// How many bytes stand before the first line feed.
fn line_length(bytes: &[u8]) -> usize
    ensures { result ≡ prefix_len is_line_byte bytes.now }
{
    bytes.iter().take_while(|byte| **byte != b'\n').count()
}

/// Where the first line feed is.
fn line_feed(bytes: &[u8]) -> Option<usize>
    ensures inside { IfSome result (λ at. at < length bytes.now) }
    ensures first { MatchOption result (length bytes.now ≤ prefix_len is_line_byte bytes.now)
        (λ at. at ≡ prefix_len is_line_byte bytes.now) }
    ensures size { length bytes.now < 2 ^ 64 }
{
    let at = line_length(bytes);
    if at < bytes.len() { Some(at) } else { None }
}

impl Lines<'_> {
    /// That the line behind those taken is wrong.
    pub fn next_is_wrong(&self) -> ReadStop
        ensures { result ≡ stop.Bad (capped (self.now.taken + 1)) }
    {
        ReadStop::Bad {
            at: self.taken.saturating_add(1),
        }
    }

    /// That the line taken last is wrong.
    pub fn last_is_wrong(&self) -> ReadStop
        ensures { result ≡ stop.Bad self.now.taken }
    {
        ReadStop::Bad { at: self.taken }
    }
}

/// Takes the next line. It is told to be wrong only where no line that a report can have stands in
/// front: so it is wrong in each place of a report.
pub fn next(alloc: Global, lines: &mut Lines<'_>) -> Result<Line, ReadStop>
    ensures taken { IfOk result (λ says. IsTaken says lines.old.rest.now lines.new.rest.now) }
    ensures leads { IfOk result (λ says. (place : Place) → Leads (Some place) lines.old.rest.now lines.old.taken
        (step place says) lines.new.rest.now lines.new.taken) }
    ensures stops { IfBad result (λ at. (place : Place) → place ≢ Ended
        → StopsAfter (Some place) lines.old.rest.now lines.old.taken at) }
    ensures size { length lines.old.rest.now < 2 ^ 64 }
{
    let rest = lines.rest;
    let Some(at) = line_feed(rest) else {
        return Err(lines.next_is_wrong());
    };
    match read_line(alloc, &mut lines.buffer, &rest[..at + 1]) {
        Ok(Some(says)) => {
            lines.rest = &rest[at + 1..];
            lines.taken = lines.taken.saturating_add(1);
            Ok(says)
        }
        Ok(None) => Err(lines.next_is_wrong()),
        Err(_) => Err(ReadStop::NoMemory),
    }
}
