//! The texts of a phase's sessions beside their answers.

ghost use Rattle.std.specs.Prelude.{◌≡◌, ◌+◌, ◌<◌, ◌++◌, [], ◌^◌, OnOk, slice_index_or, take};
ghost use Rattle.pfs_outside.specs.WholeStreams.{Puts};
ghost use Rattle.pfs_view.specs.Answers.{answered_text, answered_texts, answered_with, block_at, block_beside, block_text, blocks_text, change_line, error_line, error_number, error_words as spec_error_words, exchange_of, number_words, outcome_at, outcome_text, question_line, rows_text, session_line, session_text, short_text, some_answers};
ghost use Rattle.pfs_view.specs.AskedTexts.{bytes_of};

use crate::NoMemory;
use crate::columns::{Headings, Times};
use crate::grids::{Grid, offer};
use crate::lines::{Buffers, Layout};
use crate::replies::{Outcome, outcomes_of};
use crate::script_lines::put_printed;
use crate::texts::texts_of;
use pfs_journal::BlockReport;
use pfs_outside::{Sink, WriteStop, write_all};
use pfs_script::Block;
use pfs_text::{Row, Rowset, put_u64};
use std::alloc::Global;

/// How many bytes of a text are shown: MySQL's SQL_TEXT has so many.
const MOST_SHOWN: usize = 1_024;

/// The first so many bytes.
fn front(text: &[u8], count: usize) -> &[u8]
    ensures { result.now ≡ take count text.now }
{
    if count < text.len() {
        &text[..count]
    } else {
        text
    }
}

/// Appends a text, of a longer one its front.
#[tactic(auto, unfolding(crate::specs::Answers::short_text))]
fn put_short(out: &mut Vec<u8>, text: &[u8]) -> Result<(), NoMemory>
    ensures { OnOk result (out.new.items ≡ out.old.items ++ short_text text.now) }
{
    if text.len() <= MOST_SHOWN {
        return put_printed(out, text);
    }
    put_printed(out, front(text, MOST_SHOWN))?;
    out.extend_from_slice(b"...")
}

#[tactic(auto, unfolding(crate::specs::Answers::number_words))]
fn put_number_words(out: &mut Vec<u8>, number: u64) -> Result<(), NoMemory>
    ensures { OnOk result (out.new.items ≡ out.old.items ++ number_words number) }
{
    out.extend_from_slice(b"\n")?;
    put_u64(out, number)?;
    out.extend_from_slice(b": ")
}

/// Builds the line of a text behind its number.
#[tactic(auto, unfolding(crate::specs::Answers::question_line))]
fn question_line(line: &mut Vec<u8>, number: u64, text: &[u8]) -> Result<(), NoMemory>
    ensures { OnOk result (line.new.items ≡ question_line number text.now) }
{
    line.clear();
    put_number_words(line, number)?;
    put_short(line, text)?;
    line.extend_from_slice(b"\n")
}

#[tactic(auto, unfolding(crate::specs::Answers::change_line))]
fn change_line(line: &mut Vec<u8>, rows: u64) -> Result<(), NoMemory>
    ensures { OnOk result (line.new.items ≡ change_line rows) }
{
    line.clear();
    line.extend_from_slice(b"done, rows: ")?;
    put_u64(line, rows)?;
    line.extend_from_slice(b"\n")
}

/// What is wrong with a text that is refused by the error of this number.
fn error_words(number: u64) -> &'static [u8]
    ensures { result.now ≡ spec_error_words number }
{
    match number {
        1064 =>
            b"this is no command that is known here, or a value is of another type than its column",
        1146 => b"there is no such table",
        1142 => b"the command is not allowed on this table",
        1054 => b"a column is not in the table",
        1683 => b"a column may not be changed, or may not have this value",
        1062 => b"such a row is there",
        1114 => b"the table is full",
        _ => b"its number has no words here",
    }
}

#[tactic(auto, unfolding(crate::specs::Answers::error_number))]
fn put_error_number(out: &mut Vec<u8>, number: u64) -> Result<(), NoMemory>
    ensures { OnOk result (out.new.items ≡ out.old.items ++ error_number number) }
{
    out.extend_from_slice(b"error ")?;
    put_u64(out, number)?;
    out.extend_from_slice(b": ")
}

#[tactic(auto, unfolding(crate::specs::Answers::error_line))]
fn error_line(line: &mut Vec<u8>, number: u64) -> Result<(), NoMemory>
    ensures { OnOk result (line.new.items ≡ error_line number) }
{
    line.clear();
    put_error_number(line, number)?;
    line.extend_from_slice(error_words(number))?;
    line.extend_from_slice(b"\n")
}

/// Offers the rows of an answer in numbered columns.
#[tactic(auto, unfolding(crate::specs::Answers::rows_text))]
fn put_rows<K: Sink>(
    alloc: Global,
    times: Times,
    rows: &[Row],
    buffers: &mut Buffers,
    sink: &mut K,
) -> Result<(), WriteStop>
    ensures { Puts (K.written sink.old) (K.written sink.new) (K.faults sink.old) (K.faults sink.new)
        (rows_text times rows.now) result }
{
    if rows.is_empty() {
        return write_all(sink, b"no rows\n");
    }
    let layout = Layout {
        headings: Headings::Numbered,
        times,
    };
    Grid { layout, rows }.put(alloc, buffers, sink)
}

fn put_change<K: Sink>(buffers: &mut Buffers, sink: &mut K, rows: u64) -> Result<(), WriteStop>
    ensures { Puts (K.written sink.old) (K.written sink.new) (K.faults sink.old) (K.faults sink.new)
        (change_line rows) result }
{
    let built = change_line(&mut buffers.line, rows);
    offer(sink, buffers.line.as_slice(), built)
}

fn put_error<K: Sink>(buffers: &mut Buffers, sink: &mut K, number: u64) -> Result<(), WriteStop>
    ensures { Puts (K.written sink.old) (K.written sink.new) (K.faults sink.old) (K.faults sink.new)
        (error_line number) result }
{
    let built = error_line(&mut buffers.line, number);
    offer(sink, buffers.line.as_slice(), built)
}

/// The rows of the answer at a place, none where there is none.
fn rows_at(answers: &[Rowset], place: usize) -> &[Row]
    ensures { result.now ≡ slice_index_or answers.now place [] }
{
    match answers.get(place) {
        Some(rows) => rows.as_slice(),
        None => &[],
    }
}

/// The text at a place, an empty one where there is none.
fn text_at<'a>(texts: &[&'a [u8]], place: usize) -> &'a [u8]
    ensures { result.now ≡ slice_index_or (bytes_of texts.now) place [] }
{
    match texts.get(place) {
        Some(text) => *text,
        None => &[],
    }
}

fn put_question<K: Sink>(
    buffers: &mut Buffers,
    sink: &mut K,
    number: u64,
    text: &[u8],
) -> Result<(), WriteStop>
    ensures { Puts (K.written sink.old) (K.written sink.new) (K.faults sink.old) (K.faults sink.new)
        (question_line number text.now) result }
{
    let built = question_line(&mut buffers.line, number, text);
    offer(sink, buffers.line.as_slice(), built)
}

#[tactic(auto, unfolding(crate::specs::Answers::session_line))]
fn session_line(line: &mut Vec<u8>, session: u64) -> Result<(), NoMemory>
    ensures { OnOk result (line.new.items ≡ session_line session) }
{
    line.clear();
    line.extend_from_slice(b"\nsession ")?;
    put_u64(line, session)?;
    line.extend_from_slice(b"\n")
}

fn put_session_line<K: Sink>(
    buffers: &mut Buffers,
    sink: &mut K,
    session: u64,
) -> Result<(), WriteStop>
    ensures { Puts (K.written sink.old) (K.written sink.new) (K.faults sink.old) (K.faults sink.new)
        (session_line session) result }
{
    let built = session_line(&mut buffers.line, session);
    offer(sink, buffers.line.as_slice(), built)
}

/// What a session asked in a phase and how that was answered, and how the times of its answers are shown.
#[derive(Clone, Copy)]
struct Dialogue<'a> {
    times: Times,
    session: u64,
    answers: &'a [Rowset],
    texts: &'a [&'a [u8]],
    outcomes: &'a [Outcome],
}

impl Dialogue<'_> {
    fn put_outcome<K: Sink>(
        &self,
        alloc: Global,
        outcome: Outcome,
        buffers: &mut Buffers,
        sink: &mut K,
    ) -> Result<(), WriteStop>
        ensures { Puts (K.written sink.old) (K.written sink.new) (K.faults sink.old) (K.faults sink.new)
            (outcome_text (exchange_of self.now) outcome) result }
    {
        match outcome {
            Outcome::Rows(place) => {
                let rows = rows_at(self.answers, place);
                put_rows(alloc, self.times, rows, buffers, sink)
            }
            Outcome::Changed(rows) => put_change(buffers, sink, rows),
            Outcome::Refused(number) => put_error(buffers, sink, number),
        }
    }

    fn put_outcome_at<K: Sink>(
        &self,
        alloc: Global,
        place: usize,
        buffers: &mut Buffers,
        sink: &mut K,
    ) -> Result<(), WriteStop>
        ensures { Puts (K.written sink.old) (K.written sink.new) (K.faults sink.old) (K.faults sink.new)
            (outcome_at (exchange_of self.now) place) result }
    {
        match self.outcomes.get(place) {
            Some(outcome) => self.put_outcome(alloc, *outcome, buffers, sink),
            None => Ok(()),
        }
    }

    /// Offers a text under the number of its place, from 1, and the answer at that place.
    #[tactic(auto, using(pfs_outside::proofs::SinkWrites::puts_then, pfs_outside::proofs::SinkWrites::puts_stop), unfolding(crate::specs::Answers::answered_with))]
    fn put_answered_with<K: Sink>(
        &self,
        alloc: Global,
        place: usize,
        text: &[u8],
        buffers: &mut Buffers,
        sink: &mut K,
    ) -> Result<(), WriteStop>
        requires { place + 1 < 2 ^ 64 }
        ensures { Puts (K.written sink.old) (K.written sink.new) (K.faults sink.old) (K.faults sink.new)
            (answered_with (exchange_of self.now) place text.now) result }
    {
        put_question(buffers, sink, place as u64 + 1, text)?;
        self.put_outcome_at(alloc, place, buffers, sink)
    }

    /// The same of the text at the place.
    fn put_answered<K: Sink>(
        &self,
        alloc: Global,
        place: usize,
        buffers: &mut Buffers,
        sink: &mut K,
    ) -> Result<(), WriteStop>
        requires { place + 1 < 2 ^ 64 }
        ensures { Puts (K.written sink.old) (K.written sink.new) (K.faults sink.old) (K.faults sink.new)
            (answered_text (exchange_of self.now) place) result }
    {
        let text = text_at(self.texts, place);
        self.put_answered_with(alloc, place, text, buffers, sink)
    }

    /// Offers each text and its answer, in order.
    #[tactic(auto, unfolding(crate::specs::Answers::answered_texts))]
    fn put_all<K: Sink>(
        &self,
        alloc: Global,
        buffers: &mut Buffers,
        sink: &mut K,
    ) -> Result<(), WriteStop>
        ensures { Puts (K.written sink.old) (K.written sink.new) (K.faults sink.old) (K.faults sink.new)
            (answered_texts (exchange_of self.now)) result }
    {
        for place in 0..self.outcomes.len() {
            match self.put_answered(alloc, place, buffers, sink) {
                Ok(()) => {}
                Err(stop) => return Err(stop),
            }
        }
        Ok(())
    }

    #[tactic(auto, using(pfs_outside::proofs::SinkWrites::puts_then, pfs_outside::proofs::SinkWrites::puts_stop), unfolding(crate::specs::Answers::some_answers))]
    fn put_some<K: Sink>(
        &self,
        alloc: Global,
        buffers: &mut Buffers,
        sink: &mut K,
    ) -> Result<(), WriteStop>
        ensures { Puts (K.written sink.old) (K.written sink.new) (K.faults sink.old) (K.faults sink.new)
            (some_answers (exchange_of self.now)) result }
    {
        put_session_line(buffers, sink, self.session)?;
        self.put_all(alloc, buffers, sink)
    }

    /// Offers the session's texts and answers, where it asked any.
    #[tactic(auto, unfolding(crate::specs::Answers::session_text))]
    fn put<K: Sink>(
        &self,
        alloc: Global,
        buffers: &mut Buffers,
        sink: &mut K,
    ) -> Result<(), WriteStop>
        ensures { Puts (K.written sink.old) (K.written sink.new) (K.faults sink.old) (K.faults sink.new)
            (session_text (exchange_of self.now)) result }
    {
        if self.outcomes.is_empty() {
            Ok(())
        } else {
            self.put_some(alloc, buffers, sink)
        }
    }
}

/// Offers the texts of a script's block beside the answers that the report has for it.
#[tactic(auto, unfolding(crate::specs::Answers::block_text))]
fn put_block<K: Sink>(
    alloc: Global,
    times: Times,
    report: &BlockReport,
    block: &Block,
    buffers: &mut Buffers,
    sink: &mut K,
) -> Result<(), WriteStop>
    ensures { Puts (K.written sink.old) (K.written sink.new) (K.faults sink.old) (K.faults sink.new)
        (block_text times report.now block.now) result }
{
    let Ok(texts) = texts_of(alloc, block.lines.as_slice()) else {
        return Err(WriteStop::NoMemory);
    };
    let Ok(outcomes) = outcomes_of(alloc, &report.entries) else {
        return Err(WriteStop::NoMemory);
    };
    let dialogue = Dialogue {
        times,
        session: report.session,
        answers: report.answers.as_slice(),
        texts: texts.as_slice(),
        outcomes: outcomes.as_slice(),
    };
    dialogue.put(alloc, buffers, sink)
}

/// The same with the script's block at a place, where there is one.
#[tactic(auto, unfolding(crate::specs::Answers::block_beside))]
fn put_block_beside<K: Sink>(
    alloc: Global,
    times: Times,
    blocks: &[Block],
    place: usize,
    report: &BlockReport,
    buffers: &mut Buffers,
    sink: &mut K,
) -> Result<(), WriteStop>
    ensures { Puts (K.written sink.old) (K.written sink.new) (K.faults sink.old) (K.faults sink.new)
        (block_beside times blocks.now place report.now) result }
{
    match blocks.get(place) {
        Some(block) => put_block(alloc, times, report, block, buffers, sink),
        None => Ok(()),
    }
}

/// Offers the block at a place.
#[tactic(auto, unfolding(crate::specs::Answers::block_at))]
fn put_block_at<K: Sink>(
    alloc: Global,
    times: Times,
    blocks: &[Block],
    reports: &[BlockReport],
    place: usize,
    buffers: &mut Buffers,
    sink: &mut K,
) -> Result<(), WriteStop>
    ensures { Puts (K.written sink.old) (K.written sink.new) (K.faults sink.old) (K.faults sink.new)
        (block_at times blocks.now reports.now place) result }
{
    match reports.get(place) {
        Some(report) => put_block_beside(alloc, times, blocks, place, report, buffers, sink),
        None => Ok(()),
    }
}

/// Offers the texts of a script's phase beside the answers that the report has for it, block by block.
#[tactic(auto, unfolding(crate::specs::Answers::blocks_text))]
pub(crate) fn put_blocks<K: Sink>(
    alloc: Global,
    times: Times,
    blocks: &[Block],
    reports: &[BlockReport],
    buffers: &mut Buffers,
    sink: &mut K,
) -> Result<(), WriteStop>
    ensures { Puts (K.written sink.old) (K.written sink.new) (K.faults sink.old) (K.faults sink.new)
        (blocks_text times blocks.now reports.now) result }
{
    for place in 0..reports.len() {
        match put_block_at(alloc, times, blocks, reports, place, buffers, sink) {
            Ok(()) => {}
            Err(stop) => return Err(stop),
        }
    }
    Ok(())
}
