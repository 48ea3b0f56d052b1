//! Writing a report: its lines, offered to a sink one by one, in order.

ghost use Rattle.std.specs.Prelude.{ℕ, List, ◌≡◌, ◌+◌, ◌^◌, ◌<◌, ◌∷◌, ◌++◌, IsOk, OnOk, [], drop, if◌then◌else◌};
ghost use Rattle.std.specs.List.{All, flat_map, slice_index_or};
ghost use Rattle.pfs_outside.specs.WholeStreams.{Puts};
ghost use Rattle.pfs_journal.specs.declared.line.Line.TheVariants as says;
ghost use Rattle.pfs_journal.specs.LineWords.{FitsLine};
ghost use Rattle.pfs_journal.specs.ReportLines.{FitsReport, answered_lines, block_lines, body_lines, journal_lines, phase_lines, results_lines, row_lines, table_lines};
ghost use Rattle.pfs_journal.specs.Spelling.{entry_text, is_answered, answered_text, journal_text, block_text, session_line, row_text, table_line, table_text, lost_text, results_text, final_line, final_text, body_text, phase_line, phase_text, phases_text, first_line, spelling};

use crate::NoMemory;
use crate::blocks::{BlockReport, EntryList};
use crate::lines::{ENTRY, entry_before, lost_line, one_line, row_line, table_line};
use crate::report::{PhaseParts, PhaseReport, Report};
use crate::values::{LostReport, TableReport};
use pfs_event::Entry;
use pfs_outside::{Sink, WriteStop, write_all};
use pfs_text::{Row, Rowset};
use std::alloc::Global;

/// A part of a report that is spelled in lines.
trait Spelled {
    ghost text: { Self → List ℕ };
    // Each number on its lines is below 2^64.
    ghost fits: { Self → Type 0 };

    /// Offers the lines to a sink, in order. Those that may be of any length are built in this buffer.
    fn put<K: Sink>(&self, line: &mut Vec<u8>, sink: &mut K) -> Result<(), WriteStop>
        ensures puts { Puts (K.written sink.old) (K.written sink.new) (K.faults sink.old) (K.faults sink.new)
            (text self.now) result }
        ensures fits { OnOk result (fits self.now) };
}

/// Offers the parts of a list, in order.
fn put_each<T: Spelled, K: Sink>(
    line: &mut Vec<u8>,
    sink: &mut K,
    parts: &[T],
) -> Result<(), WriteStop>
    ensures puts { Puts (K.written sink.old) (K.written sink.new) (K.faults sink.old) (K.faults sink.new)
        (flat_map T.text parts.now) result }
    ensures fits { OnOk result (All T.fits parts.now) }
{
    for part in parts {
        match part.put(line, sink) {
            Ok(()) => {}
            Err(stop) => return Err(stop),
        }
    }
    Ok(())
}

/// Offers a line, or says that memory ran out while it was built.
fn offer<K: Sink>(sink: &mut K, line: &[u8], built: Result<(), NoMemory>) -> Result<(), WriteStop>
    ensures puts { (text : List ℕ) → OnOk built (line.now ≡ text)
        → Puts (K.written sink.old) (K.written sink.new) (K.faults sink.old) (K.faults sink.new) text result }
    ensures built { OnOk result (IsOk built) }
{
    match built {
        Ok(()) => write_all(sink, line),
        Err(_) => Err(WriteStop::NoMemory),
    }
}

/// Offers the line of an entry, which is built in the buffer.
#[inline(always)]
fn put_entry_line<K: Sink>(
    buffer: &mut [u8; ENTRY],
    sink: &mut K,
    entry: &Entry,
) -> Result<(), WriteStop>
    ensures puts { Puts (K.written sink.old) (K.written sink.new) (K.faults sink.old) (K.faults sink.new)
        (entry_text entry.now) result }
    ensures fits { FitsLine (says.Entry entry.now) }
{
    let start = entry_before(buffer, ENTRY, entry);
    write_all(sink, &buffer[start..])
}

impl Spelled for Row {
    ghost text = { row_text };

    ghost fits = { λ row. FitsLine (says.Row row) };

    fn put<K: Sink>(&self, line: &mut Vec<u8>, sink: &mut K) -> Result<(), WriteStop> {
        let built = row_line(line, self);
        offer(sink, line, built)
    }
}

/// Whether an answer stands behind the entry.
fn is_answered(entry: &Entry) -> bool
    ensures { result ≡ is_answered entry.now }
{
    matches!(entry, Entry::Rows { .. })
}

/// The place of the next answer behind an entry.
fn place_behind(entry: &Entry, place: usize) -> usize
    requires { place + 1 < 2 ^ 64 }
    ensures { result ≡ (if is_answered entry.now then place + 1 else place) }
{
    if is_answered(entry) { place + 1 } else { place }
}

/// The answer in this place, or no rows where there is none.
fn answer_at(answers: &[Rowset], place: usize) -> &[Row]
    ensures { result.now ≡ slice_index_or (drop place answers.now) 0 [] }
{
    if place < answers.len() {
        answers[place].as_slice()
    } else {
        &[]
    }
}

/// Offers the answer that is due behind an entry, where one is.
fn put_answer<K: Sink>(
    line: &mut Vec<u8>,
    sink: &mut K,
    entry: &Entry,
    answers: &[Rowset],
    place: usize,
) -> Result<(), WriteStop>
    ensures puts { Puts (K.written sink.old) (K.written sink.new) (K.faults sink.old) (K.faults sink.new)
        (if is_answered entry.now then flat_map row_text (slice_index_or (drop place answers.now) 0 [])
        else []) result }
    ensures fits { OnOk result (All FitsLine (if is_answered entry.now then row_lines (slice_index_or
        (drop place answers.now) 0 []) else [])) }
{
    if is_answered(entry) {
        put_each(line, sink, answer_at(answers, place))
    } else {
        Ok(())
    }
}

/// Offers an entry and the answer behind it, where the answers from this place on are left.
#[tactic(auto, using(pfs_outside::proofs::SinkWrites::puts_then, pfs_outside::proofs::SinkWrites::puts_stop), unfolding(crate::specs::Spelling::answered_text))]
fn put_entry<K: Sink>(
    buffer: &mut [u8; ENTRY],
    line: &mut Vec<u8>,
    sink: &mut K,
    entry: &Entry,
    answers: &[Rowset],
    place: usize,
) -> Result<(), WriteStop>
    ensures puts { Puts (K.written sink.old) (K.written sink.new) (K.faults sink.old) (K.faults sink.new)
        (answered_text entry.now (drop place answers.now)) result }
    ensures fits { OnOk result (All FitsLine (answered_lines entry.now (drop place answers.now))) }
{
    put_entry_line(buffer, sink, entry)?;
    put_answer(line, sink, entry, answers, place)
}

/// Offers a journal without answers, line by line.
#[tactic(auto, using(crate::proofs::EntryLines::leaving_all))]
fn put_entries<K: Sink>(sink: &mut K, entries: &EntryList) -> Result<(), WriteStop>
    ensures puts { Puts (K.written sink.old) (K.written sink.new) (K.faults sink.old) (K.faults sink.new)
        (flat_map entry_text entries.now) result }
    ensures fits { OnOk result (All (λ entry. FitsLine (says.Entry entry)) entries.now) }
{
    let mut buffer = [b'\n'; ENTRY];
    for at in 0..entries.count() {
        match put_entry_line(&mut buffer, sink, &entries.entry(at)) {
            Ok(()) => {}
            Err(stop) => return Err(stop),
        }
    }
    Ok(())
}

/// Offers a journal with its answers.
fn put_answered<K: Sink>(
    line: &mut Vec<u8>,
    sink: &mut K,
    entries: &EntryList,
    answers: &[Rowset],
) -> Result<(), WriteStop>
    ensures puts { Puts (K.written sink.old) (K.written sink.new) (K.faults sink.old) (K.faults sink.new)
        (journal_text entries.now answers.now) result }
    ensures fits { OnOk result (All FitsLine (journal_lines entries.now answers.now)) }
{
    let mut buffer = [b'\n'; ENTRY];
    let mut place = 0usize;
    for at in 0..entries.count() {
        let said = entries.entry(at);
        match put_entry(&mut buffer, line, sink, &said, answers, place) {
            Ok(()) => {}
            Err(stop) => return Err(stop),
        }
        place = place_behind(&said, place);
    }
    Ok(())
}

/// Offers a journal with its answers, where it has some.
fn put_journal<K: Sink>(
    line: &mut Vec<u8>,
    sink: &mut K,
    entries: &EntryList,
    answers: &[Rowset],
) -> Result<(), WriteStop>
    ensures puts { Puts (K.written sink.old) (K.written sink.new) (K.faults sink.old) (K.faults sink.new)
        (journal_text entries.now answers.now) result }
    ensures fits { OnOk result (All FitsLine (journal_lines entries.now answers.now)) }
{
    if answers.is_empty() {
        put_entries(sink, entries)
    } else {
        put_answered(line, sink, entries, answers)
    }
}

#[tactic(auto, unfolding(crate::specs::Spelling::session_line))]
fn put_session_line<K: Sink>(line: &mut Vec<u8>, sink: &mut K, number: u64) -> Result<(), WriteStop>
    ensures puts { Puts (K.written sink.old) (K.written sink.new) (K.faults sink.old) (K.faults sink.new)
        (session_line number) result }
    ensures fits { FitsLine (says.Session number) }
{
    let built = one_line(line, b"session", number);
    offer(sink, line, built)
}

impl Spelled for BlockReport {
    ghost text = { block_text };

    ghost fits = { λ block. All FitsLine (block_lines block) };

    #[tactic(auto, using(pfs_outside::proofs::SinkWrites::puts_then, pfs_outside::proofs::SinkWrites::puts_stop), unfolding(crate::specs::Spelling::block_text))]
    fn put<K: Sink>(&self, line: &mut Vec<u8>, sink: &mut K) -> Result<(), WriteStop> {
        put_session_line(line, sink, self.session)?;
        put_journal(line, sink, &self.entries, self.answers.as_slice())
    }
}

fn put_table_line<K: Sink>(line: &mut Vec<u8>, sink: &mut K, name: &[u8]) -> Result<(), WriteStop>
    ensures { Puts (K.written sink.old) (K.written sink.new) (K.faults sink.old) (K.faults sink.new)
        (table_line name.now) result }
{
    let built = table_line(line, name);
    offer(sink, line, built)
}

impl Spelled for TableReport {
    ghost text = { table_text };

    ghost fits = { λ table. All FitsLine (table_lines table) };

    #[tactic(auto, using(pfs_outside::proofs::SinkWrites::puts_then, pfs_outside::proofs::SinkWrites::puts_stop), unfolding(crate::specs::Spelling::table_text))]
    fn put<K: Sink>(&self, line: &mut Vec<u8>, sink: &mut K) -> Result<(), WriteStop> {
        put_table_line(line, sink, self.name.as_bytes())?;
        put_each(line, sink, self.rows.as_slice())
    }
}

impl Spelled for LostReport {
    ghost text = { lost_text };

    ghost fits = { λ lost. FitsLine (says.Lost lost) };

    fn put<K: Sink>(&self, line: &mut Vec<u8>, sink: &mut K) -> Result<(), WriteStop> {
        let built = lost_line(line, self);
        offer(sink, line, built)
    }
}

/// Offers the tables and counters.
#[tactic(auto, using(pfs_outside::proofs::SinkWrites::puts_then, pfs_outside::proofs::SinkWrites::puts_stop), unfolding(crate::specs::Spelling::results_text))]
fn put_results<K: Sink>(
    line: &mut Vec<u8>,
    sink: &mut K,
    tables: &[TableReport],
    lost: &[LostReport],
) -> Result<(), WriteStop>
    ensures puts { Puts (K.written sink.old) (K.written sink.new) (K.faults sink.old) (K.faults sink.new)
        (results_text tables.now lost.now) result }
    ensures fits { OnOk result (All FitsLine (results_lines tables.now lost.now)) }
{
    put_each(line, sink, tables)?;
    put_each(line, sink, lost)
}

#[tactic(auto, unfolding(crate::specs::Spelling::final_line))]
fn put_final_line<K: Sink>(sink: &mut K) -> Result<(), WriteStop>
    ensures { Puts (K.written sink.old) (K.written sink.new) (K.faults sink.old) (K.faults sink.new) (final_line)
        result }
{
    write_all(sink, b"final\n")
}

#[tactic(auto, using(pfs_outside::proofs::SinkWrites::puts_then, pfs_outside::proofs::SinkWrites::puts_stop), unfolding(crate::specs::Spelling::final_text))]
fn put_final<K: Sink>(
    line: &mut Vec<u8>,
    sink: &mut K,
    tables: &[TableReport],
    lost: &[LostReport],
) -> Result<(), WriteStop>
    ensures puts { Puts (K.written sink.old) (K.written sink.new) (K.faults sink.old) (K.faults sink.new)
        (final_text tables.now lost.now) result }
    ensures fits { OnOk result (All FitsLine (says.Final ∷ results_lines tables.now lost.now)) }
{
    put_final_line(sink)?;
    put_results(line, sink, tables, lost)
}

#[tactic(auto, using(pfs_outside::proofs::SinkWrites::puts_then, pfs_outside::proofs::SinkWrites::puts_stop), unfolding(crate::specs::Spelling::body_text))]
fn put_body<K: Sink>(line: &mut Vec<u8>, sink: &mut K, phase: &PhaseParts) -> Result<(), WriteStop>
    ensures puts { Puts (K.written sink.old) (K.written sink.new) (K.faults sink.old) (K.faults sink.new)
        (body_text phase.now) result }
    ensures fits { OnOk result (All FitsLine (body_lines phase.now)) }
{
    put_each(line, sink, phase.blocks.as_slice())?;
    put_final(line, sink, phase.tables.as_slice(), phase.lost.as_slice())
}

#[tactic(auto, unfolding(crate::specs::Spelling::phase_line))]
fn put_phase_line<K: Sink>(line: &mut Vec<u8>, sink: &mut K, number: u64) -> Result<(), WriteStop>
    ensures puts { Puts (K.written sink.old) (K.written sink.new) (K.faults sink.old) (K.faults sink.new)
        (phase_line number) result }
    ensures fits { FitsLine (says.Phase number) }
{
    let built = one_line(line, b"phase", number);
    offer(sink, line, built)
}

#[tactic(auto, using(pfs_outside::proofs::SinkWrites::puts_then, pfs_outside::proofs::SinkWrites::puts_stop), unfolding(crate::specs::Spelling::phase_text))]
fn put_phase<K: Sink>(line: &mut Vec<u8>, sink: &mut K, phase: &PhaseParts) -> Result<(), WriteStop>
    ensures puts { Puts (K.written sink.old) (K.written sink.new) (K.faults sink.old) (K.faults sink.new)
        (phase_text phase.now) result }
    ensures fits { OnOk result (All FitsLine (phase_lines phase.now)) }
{
    put_phase_line(line, sink, phase.number)?;
    put_body(line, sink, phase)
}

impl Spelled for PhaseReport {
    ghost text = { phase_text };

    ghost fits = { λ phase. All FitsLine (phase_lines phase) };

    fn put<K: Sink>(&self, line: &mut Vec<u8>, sink: &mut K) -> Result<(), WriteStop> {
        put_phase(line, sink, self.parts())
    }
}

#[tactic(auto, using(pfs_outside::proofs::SinkWrites::puts_then, pfs_outside::proofs::SinkWrites::puts_stop), unfolding(crate::specs::Spelling::phases_text))]
fn put_phases<K: Sink>(
    line: &mut Vec<u8>,
    sink: &mut K,
    phases: &[PhaseReport],
) -> Result<(), WriteStop>
    ensures puts { Puts (K.written sink.old) (K.written sink.new) (K.faults sink.old) (K.faults sink.new)
        (phases_text phases.now) result }
    ensures fits { OnOk result (All FitsLine (flat_map phase_lines phases.now ++ says.End ∷ [])) }
{
    put_each(line, sink, phases)?;
    write_all(sink, b"end\n")
}

#[tactic(auto, unfolding(crate::specs::Spelling::first_line))]
fn put_first_line<K: Sink>(line: &mut Vec<u8>, sink: &mut K, format: u64) -> Result<(), WriteStop>
    ensures puts { Puts (K.written sink.old) (K.written sink.new) (K.faults sink.old) (K.faults sink.new)
        (first_line format) result }
    ensures fits { FitsLine (says.Head format) }
{
    let built = one_line(line, b"pfs-report", format);
    offer(sink, line, built)
}

/// Writes a table's line and its rows to a sink, line by line, each line built in a buffer. The rest of
/// a line that was taken in part is offered again. On a refusal a front of these lines was written.
pub fn write_table<K: Sink>(
    alloc: Global,
    table: &TableReport,
    sink: &mut K,
) -> Result<(), WriteStop>
    ensures puts { Puts (K.written sink.old) (K.written sink.new) (K.faults sink.old) (K.faults sink.new)
        (table_text table.now) result }
    ensures fits { OnOk result (All FitsLine (table_lines table.now)) }
{
    let mut line = Vec::new(alloc);
    table.put(&mut line, sink)
}

/// Writes a report to a sink, line by line, each with its line feed and built in a buffer. The rest of a line that was
/// taken in part is offered again. On a refusal a front of the report was written.
#[tactic(auto, using(pfs_outside::proofs::SinkWrites::puts_then, pfs_outside::proofs::SinkWrites::puts_stop), unfolding(crate::specs::Spelling::spelling))]
pub fn write<K: Sink>(alloc: Global, report: &Report, sink: &mut K) -> Result<(), WriteStop>
    ensures puts { Puts (K.written sink.old) (K.written sink.new) (K.faults sink.old) (K.faults sink.new)
        (spelling report.now) result }
    ensures fits { OnOk result (FitsReport report.now) }
{
    let parts = report.parts();
    let mut line = Vec::new(alloc);
    put_first_line(&mut line, sink, parts.format)?;
    put_phases(&mut line, sink, parts.phases.as_slice())
}
