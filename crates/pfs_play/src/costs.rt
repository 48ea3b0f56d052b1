//! How many journal entries lines take at most.

ghost use Rattle.std.specs.Prelude.{◌≡◌, ◌<◌, ◌≤◌, ◌+◌, ◌*◌, ◌∷◌, [], IfOk, length, drop};
ghost use Rattle.pfs_script.specs.Marks.{written_out};
ghost use Rattle.pfs_exec.specs.Requests.{request_of};
ghost use Rattle.pfs_play.specs.Errands.{actions_on, cost_of, cost_on, errand_on, sql_errand};
ghost use Rattle.pfs_play.specs.Repeats.{repeated};

use crate::NoMemory;
use crate::repeats::{done_in, times_of};
use pfs_exec::{Request, request_of};
use pfs_script::BlockLine;
use std::alloc::Global;

// So many lines, and the entries that they take.
#[derive(Clone, Copy)]
struct Cost {
    lines: usize,
    entries: u64,
}

/// How many entries the lines of a block take at most, each repeat gone over so many times as it says. Each text is read
/// once.
pub fn written_cost(alloc: Global, lines: &[BlockLine]) -> Result<u64, NoMemory>
    requires short { length (written_out lines.now) ≤ 200000 }
    ensures cost { IfOk result (λ entries. entries ≡ cost_on (written_out lines.now)) }
    ensures small { IfOk result (λ entries. entries
        ≤ 14405 * length (written_out lines.now) + 5791 * actions_on (written_out lines.now)) }
{
    let mut entries = 0;
    let mut at = 0;
    while at < lines.len() {
        match next_cost(alloc, &lines[at..]) {
            Ok(next) => {
                entries += next.entries;
                at += next.lines;
            }
            Err(fault) => return Err(fault),
        }
    }
    Ok(entries)
}

// The line that stands first, or the repeat that it begins.
fn next_cost(alloc: Global, lines: &[BlockLine]) -> Result<Cost, NoMemory>
    requires some { 0 < length lines.now }
    requires short { length (written_out lines.now) ≤ 200000 }
    ensures count { IfOk result (λ next. (0 < next.lines) × (next.lines ≤ length lines.now)) }
    ensures cost { IfOk result (λ next. cost_on (written_out lines.now)
        ≡ next.entries + cost_on (written_out (drop next.lines lines.now))) }
    ensures shorter { IfOk result (λ next. length (written_out (drop next.lines lines.now))
        ≤ length (written_out lines.now)) }
{
    let Some((first, others)) = lines.split_first() else {
        return Ok(Cost {
            lines: 0,
            entries: 0,
        });
    };
    match times_of(first) {
        Some(times) => match repeat_cost(alloc, others, times) {
            Ok(cost) => Ok(Cost {
                lines: 1 + cost.lines,
                entries: cost.entries,
            }),
            Err(fault) => Err(fault),
        },
        None => match line_cost(alloc, first) {
            Ok(entries) => Ok(Cost { lines: 1, entries }),
            Err(fault) => Err(fault),
        },
    }
}

// The lines of a repeat up to its end, so many times; one that isn't done runs once.
fn repeat_cost(alloc: Global, lines: &[BlockLine], times: u64) -> Result<Cost, NoMemory>
    requires short { length (repeated times lines.now) ≤ 200000 }
    ensures count { IfOk result (λ next. next.lines ≤ length lines.now) }
    ensures cost { IfOk result (λ next. cost_on (repeated times lines.now)
        ≡ next.entries + cost_on (written_out (drop next.lines lines.now))) }
    ensures shorter { IfOk result (λ next. length (written_out (drop next.lines lines.now))
        ≤ length (repeated times lines.now)) }
{
    match done_in(lines) {
        Some(end) => match rounds_cost(alloc, &lines[..end], times) {
            Ok(entries) => Ok(Cost {
                lines: end + 1,
                entries,
            }),
            Err(fault) => Err(fault),
        },
        None => match rounds_cost(alloc, lines, 1) {
            Ok(entries) => Ok(Cost {
                lines: lines.len(),
                entries,
            }),
            Err(fault) => Err(fault),
        },
    }
}

// Lines so many times.
fn rounds_cost(alloc: Global, body: &[BlockLine], times: u64) -> Result<u64, NoMemory>
    requires short { times * length body.now ≤ 200000 }
    ensures { IfOk result (λ entries. entries ≡ times * cost_on body.now) }
{
    // Of empty rounds there may be up to 2^64 - 1, and of lines that run no time any number.
    if body.is_empty() {
        return Ok(0);
    }
    if times == 0 {
        return Ok(0);
    }
    let mut entries = 0;
    for line in body {
        match line_cost(alloc, line) {
            Ok(more) => entries += more,
            Err(fault) => return Err(fault),
        }
    }
    Ok(times * entries)
}

// A line that is written out.
fn line_cost(alloc: Global, line: &BlockLine) -> Result<u64, NoMemory>
    ensures cost { IfOk result (λ entries. entries ≡ cost_of (errand_on line.now)) }
    ensures few { IfOk result (λ entries. entries ≤ 20196) }
{
    match line {
        BlockLine::Wait(_)
        | BlockLine::TableWait { .. }
        | BlockLine::Statement { .. }
        | BlockLine::Transaction(_) => Ok(2),
        BlockLine::Stage(_) | BlockLine::StageEnd => Ok(8),
        BlockLine::End | BlockLine::EndStatement(_) => Ok(14),
        BlockLine::Sql(text) => sql_cost(alloc, text.as_bytes()),
        BlockLine::Spend(_) | BlockLine::Quit | BlockLine::Repeat(_) | BlockLine::Done => Ok(0),
    }
}

// One SQL command.
fn sql_cost(alloc: Global, text: &[u8]) -> Result<u64, NoMemory>
    ensures cost { IfOk result (λ entries. entries ≡ cost_of (sql_errand (request_of text.now))) }
    ensures few { IfOk result (λ entries. entries ≤ 20196) }
{
    match request_of(alloc, text) {
        Ok(request) => Ok(request_cost(&request)),
        Err(fault) => Err(fault),
    }
}

fn request_cost(request: &Request) -> u64
    ensures cost { result ≡ cost_of (sql_errand request.now) }
    ensures few { result ≤ 20196 }
{
    match request {
        Request::Truncate(_) => 20_196,
        Request::Query(_) => 14_405,
        Request::Update(_) | Request::Insert(_) | Request::Delete(_) | Request::Show(_) => 260,
        Request::Refused(_) => 1,
    }
}
