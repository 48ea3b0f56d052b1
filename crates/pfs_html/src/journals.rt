//! The journals of a phase in a page.

ghost use Rattle.std.specs.Prelude.{◌≡◌, ◌+◌, ◌<◌, ◌++◌, ◌∷◌, [], ◌^◌, Some, codes, length, OnOk};
ghost use Rattle.std.specs.List.{flat_map};
ghost use Rattle.pfs_event.specs.Verdicts.{verdict_name};
ghost use Rattle.pfs_journal.specs.Spelling.{entry_text, numbers_text, optional_text};
ghost use Rattle.pfs_html.specs.Journals.{answer_head_html, answer_html, answers_html, entries_html, entry_html, journal_end_html, journal_head_html, journal_html, journals_html, session_html};

use crate::NoMemory;
use crate::cells::Pen;
use crate::escapes::put_escaped;
use crate::tables::{put_count, put_table};
use pfs_event::{Entry, Verdict};
use pfs_journal::{BlockReport, EntryList};
use pfs_text::{Rowset, put_u64};
use pfs_view::Headings;
use std::alloc::Global;

/// Appends a number behind a space, `-` where there is none.
#[tactic(auto, unfolding(pfs_journal::specs::Spelling::field_text))]
fn put_optional(out: &mut Vec<u8>, number: Option<u64>) -> Result<(), NoMemory>
    ensures { OnOk result (out.new.items ≡ out.old.items ++ optional_text number) }
{
    match number {
        Some(number) => {
            out.extend_from_slice(b" ")?;
            put_u64(out, number)?;
            Ok(())
        }
        None => out.extend_from_slice(b" -"),
    }
}

fn put_numbers(out: &mut Vec<u8>, numbers: &[Option<u64>]) -> Result<(), NoMemory>
    ensures { OnOk result (out.new.items ≡ out.old.items ++ flat_map optional_text numbers.now) }
{
    for number in numbers {
        put_optional(out, *number)?;
    }
    Ok(())
}

/// Appends the line of a word and its numbers.
#[tactic(auto, unfolding(pfs_journal::specs::Spelling::numbers_text))]
fn put_line(out: &mut Vec<u8>, word: &[u8], numbers: &[Option<u64>]) -> Result<(), NoMemory>
    ensures { OnOk result (out.new.items ≡ out.old.items ++ numbers_text word.now numbers.now) }
{
    out.extend_from_slice(word)?;
    put_numbers(out, numbers)?;
    out.extend_from_slice(b"\n")
}

fn put_one(out: &mut Vec<u8>, word: &[u8], number: u64) -> Result<(), NoMemory>
    ensures { OnOk result (out.new.items ≡ out.old.items ++ numbers_text word.now (Some number ∷ [])) }
{
    put_line(out, word, &[Some(number)])
}

fn put_two(out: &mut Vec<u8>, word: &[u8], first: u64, second: u64) -> Result<(), NoMemory>
    ensures { OnOk result (out.new.items
        ≡ out.old.items ++ numbers_text word.now (Some first ∷ Some second ∷ [])) }
{
    put_line(out, word, &[Some(first), Some(second)])
}

fn put_three(
    out: &mut Vec<u8>,
    word: &[u8],
    first: u64,
    second: u64,
    third: u64,
) -> Result<(), NoMemory>
    ensures { OnOk result (out.new.items
        ≡ out.old.items ++ numbers_text word.now (Some first ∷ Some second ∷ Some third ∷ [])) }
{
    put_line(out, word, &[Some(first), Some(second), Some(third)])
}

fn put_start_event(out: &mut Vec<u8>, event: Option<u64>) -> Result<(), NoMemory>
    ensures { OnOk result (out.new.items ≡ out.old.items ++ (codes "start" ++ optional_text event)) }
{
    out.extend_from_slice(b"start")?;
    put_optional(out, event)
}

fn put_start_word(out: &mut Vec<u8>, event: Option<u64>, verdict: Verdict) -> Result<(), NoMemory>
    ensures { OnOk result (out.new.items
        ≡ out.old.items ++ (codes "start" ++ optional_text event ++ codes " " ++ verdict_name verdict)) }
{
    put_start_event(out, event)?;
    out.extend_from_slice(b" ")?;
    out.extend_from_slice(verdict.name().as_bytes())
}

/// Appends the line of an event's start: its number, its verdict and the versions that were loaded.
#[tactic(auto, unfolding(pfs_journal::specs::Spelling::numbers_text))]
fn put_start(
    out: &mut Vec<u8>,
    event: Option<u64>,
    verdict: Verdict,
    versions: &[Option<u64>],
) -> Result<(), NoMemory>
    ensures { OnOk result (out.new.items ≡ out.old.items
        ++ numbers_text (codes "start" ++ optional_text event ++ codes " " ++ verdict_name verdict) versions.now) }
{
    put_start_word(out, event, verdict)?;
    put_numbers(out, versions)?;
    out.extend_from_slice(b"\n")
}

/// Appends an entry as its line in the report.
fn put_entry_line(out: &mut Vec<u8>, entry: &Entry) -> Result<(), NoMemory>
    ensures { OnOk result (out.new.items ≡ out.old.items ++ entry_text entry.now) }
{
    match entry {
        Entry::Connect {
            action,
            thread,
            account,
            user,
            host,
        } => {
            put_line(
                out,
                b"connect",
                &[Some(*action), *thread, *account, *user, *host],
            )
        }
        Entry::Start {
            event,
            verdict,
            consumers,
            thread,
            class,
            table,
        } => {
            put_start(
                out,
                *event,
                *verdict,
                &[*consumers, *thread, *class, *table],
            )
        }
        Entry::End {
            event,
            last,
            consumers,
            thread,
        } => { put_line(out, b"end", &[*event, *last, *consumers, *thread]) }
        Entry::Add { row, version } => put_two(out, b"add", *row, *version),
        Entry::Held { row, first, second } => put_three(out, b"held", *row, *first, *second),
        Entry::Ring { row, version } => put_two(out, b"ring", *row, *version),
        Entry::Long {
            row,
            version,
            ticket,
        } => put_three(out, b"long", *row, *version, *ticket),
        Entry::Busy { row, first, second } => put_three(out, b"busy", *row, *first, *second),
        Entry::Late {
            row,
            ticket,
            greater,
        } => put_three(out, b"late", *row, *ticket, *greater),
        Entry::Settle => put_line(out, b"settle", &[]),
        Entry::Act { action } => put_one(out, b"act", *action),
        Entry::Take { row, version } => put_two(out, b"take", *row, *version),
        Entry::Give {
            row,
            version,
            source,
        } => put_three(out, b"give", *row, *version, *source),
        Entry::Tag { row, version } => put_two(out, b"tag", *row, *version),
        Entry::Free { row, version } => put_two(out, b"free", *row, *version),
        Entry::Set {
            word,
            version,
            flags,
        } => put_three(out, b"set", *word, *version, *flags),
        Entry::Reply { number } => put_one(out, b"reply", *number),
        Entry::Error { number } => put_one(out, b"error", *number),
        Entry::Query => put_line(out, b"query", &[]),
        Entry::Seen { row, version } => put_two(out, b"seen", *row, *version),
        Entry::Vacant { row } => put_one(out, b"vacant", *row),
        Entry::Saw { word, version } => put_two(out, b"saw", *word, *version),
        Entry::Rows { number } => put_one(out, b"rows", *number),
    }
}

#[tactic(auto, unfolding(crate::specs::Journals::entry_html))]
fn put_entry(pen: &mut Pen, entry: &Entry) -> Result<(), NoMemory>
    ensures { OnOk result (pen.new.page.items ≡ pen.old.page.items ++ entry_html entry.now) }
{
    pen.cell.clear();
    put_entry_line(&mut pen.cell, entry)?;
    put_escaped(&mut pen.page, pen.cell.as_slice())
}

/// Appends a journal's entries, each as its line in the report.
#[tactic(auto, unfolding(crate::specs::Journals::entries_html))]
fn put_entries(pen: &mut Pen, entries: &EntryList) -> Result<(), NoMemory>
    ensures { OnOk result (pen.new.page.items ≡ pen.old.page.items ++ entries_html entries.now) }
{
    for at in 0..entries.count() {
        put_entry(pen, &entries.entry(at))?;
    }
    Ok(())
}

#[tactic(auto, unfolding(crate::specs::Journals::answer_head_html))]
fn put_answer_head(out: &mut Vec<u8>, number: u64) -> Result<(), NoMemory>
    ensures { OnOk result (out.new.items ≡ out.old.items ++ answer_head_html number) }
{
    out.extend_from_slice(b"<h4>Answer ")?;
    put_u64(out, number)?;
    out.extend_from_slice(b"</h4>\n")
}

/// Appends the answer at a place, under its number from 1.
#[tactic(auto, unfolding(crate::specs::Journals::answer_html))]
fn put_answer(
    alloc: Global,
    pen: &mut Pen,
    answers: &[Rowset],
    place: usize,
) -> Result<(), NoMemory>
    requires { place < length answers.now }
    ensures { OnOk result (pen.new.page.items ≡ pen.old.page.items ++ answer_html answers.now place) }
{
    put_answer_head(&mut pen.page, place as u64 + 1)?;
    put_table(alloc, pen, Headings::Numbered, answers[place].as_slice())
}

#[tactic(auto, unfolding(crate::specs::Journals::answers_html))]
fn put_answers(alloc: Global, pen: &mut Pen, answers: &[Rowset]) -> Result<(), NoMemory>
    ensures { OnOk result (pen.new.page.items ≡ pen.old.page.items ++ answers_html answers.now) }
{
    for place in 0..answers.len() {
        put_answer(alloc, pen, answers, place)?;
    }
    Ok(())
}

#[tactic(auto, unfolding(crate::specs::Journals::session_html))]
fn put_session(out: &mut Vec<u8>, session: u64) -> Result<(), NoMemory>
    ensures { OnOk result (out.new.items ≡ out.old.items ++ session_html session) }
{
    out.extend_from_slice(b"<details><summary>Session ")?;
    put_u64(out, session)?;
    out.extend_from_slice(b" ")
}

#[tactic(auto, unfolding(crate::specs::Journals::journal_head_html))]
fn put_journal_head(out: &mut Vec<u8>, session: u64, count: usize) -> Result<(), NoMemory>
    ensures { OnOk result (out.new.items ≡ out.old.items ++ journal_head_html session count) }
{
    put_session(out, session)?;
    put_count(out, count)?;
    out.extend_from_slice(b"<pre>")
}

#[tactic(auto, unfolding(crate::specs::Journals::journal_end_html))]
fn put_journal_end(alloc: Global, pen: &mut Pen, answers: &[Rowset]) -> Result<(), NoMemory>
    ensures { OnOk result (pen.new.page.items ≡ pen.old.page.items ++ journal_end_html answers.now) }
{
    pen.page.extend_from_slice(b"</pre>\n")?;
    put_answers(alloc, pen, answers)?;
    pen.page.extend_from_slice(b"</details>\n")
}

/// Appends a session's journal, folded, and the answers of its SELECTs.
#[tactic(auto, unfolding(crate::specs::Journals::journal_html))]
fn put_journal(alloc: Global, pen: &mut Pen, block: &BlockReport) -> Result<(), NoMemory>
    ensures { OnOk result (pen.new.page.items ≡ pen.old.page.items ++ journal_html block.now) }
{
    put_journal_head(&mut pen.page, block.session, block.entries.count())?;
    put_entries(pen, &block.entries)?;
    put_journal_end(alloc, pen, block.answers.as_slice())
}

/// Appends the journals of a phase in their order.
#[tactic(auto, unfolding(crate::specs::Journals::journals_html))]
pub(crate) fn put_journals(
    alloc: Global,
    pen: &mut Pen,
    blocks: &[BlockReport],
) -> Result<(), NoMemory>
    ensures { OnOk result (pen.new.page.items ≡ pen.old.page.items ++ journals_html blocks.now) }
{
    for block in blocks {
        put_journal(alloc, pen, block)?;
    }
    Ok(())
}
