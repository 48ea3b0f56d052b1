//! Showing the report that a source has.

ghost use Rattle.std.specs.Prelude.{ℕ, List, ◌≡◌, take, drop, IfOk, OnOk};
ghost use Rattle.pfs_outside.specs.DeviceCalls.{Rose};
ghost use Rattle.pfs_outside.specs.WholeStreams.{Puts};
ghost use Rattle.pfs_journal.specs.declared.report.ReportParts.{ReportParts};
ghost use Rattle.pfs_view.specs.Views.{Ends, HasView, IsExplained, IsRefusedAt, IsWrongAt, Tells, exit_number, status_after as spec_status_after, wrong_line as spec_wrong_line};
ghost use Rattle.pfs_view.specs.ShownReports.{chosen_of, shown_text};

use crate::NoMemory;
use crate::phases::{Choice, show};
use crate::refusals::{Refusal, refusal_of, refusal_text};
use pfs_journal::{ReadStop as ReportStop, Report, read};
use pfs_outside::{ReadStop, Sink, Source, WriteStop, read_all, write_all};
use pfs_text::put_u64;
use std::alloc::Global;

/// How many bytes a report may have.
const MOST_BYTES: usize = 268_435_456;

/// How showing a report ended.
#[derive(Clone, Copy, Debug, PartialEq, Eq)]
pub enum Status {
    /// The report was shown.
    Done,
    /// The text is no report: its first wrong line, counted from 1, was told.
    BadReport { at: u64 },
    /// The text is no report but the line that tells a script's first faulty line and the number of its reason: that
    /// line and the reason in words were told.
    BadScript { line: u64, reason: u64 },
    /// The text has more than 268,435,456 bytes. Nothing was written.
    TooLong,
    /// A read failed. Nothing was written.
    ReadFault,
    /// A write failed. A front of the text due was written.
    WriteFault,
    /// Memory ran out. A front of the text due was written, maybe none of it.
    NoMemory,
}

impl Status {
    /// The exit status of a program whose call ended so.
    pub fn exit_number(self) -> u8
        ensures { result ≡ exit_number self }
    {
        match self {
            Status::Done => 0,
            Status::BadReport { .. } | Status::BadScript { .. } | Status::TooLong => 2,
            Status::ReadFault => 3,
            Status::WriteFault => 4,
            Status::NoMemory => 5,
        }
    }
}

/// A way to write a report for people.
pub trait Rendering {
    /// How a report is written, beside the script that is given with it.
    ghost text: { Self → List ℕ → ReportParts → List ℕ };

    /// Writes a report to a sink; an empty script stands for none. On a refusal a front of it was written.
    fn put<K: Sink>(
        &self,
        alloc: Global,
        script: &[u8],
        report: &Report,
        sink: &mut K,
    ) -> Result<(), WriteStop>
        ensures { Puts (K.written sink.old) (K.written sink.new) (K.faults sink.old) (K.faults sink.new)
            (text self.now script.now report.now) result };
}

impl Rendering for Choice<'_> {
    ghost text = { λ choice. shown_text (chosen_of choice) };

    fn put<K: Sink>(
        &self,
        alloc: Global,
        script: &[u8],
        report: &Report,
        sink: &mut K,
    ) -> Result<(), WriteStop> {
        show(alloc, self, script, report, sink)
    }
}

/// The status where a text of this status was offered.
fn status_after(outcome: Result<(), WriteStop>, status: Status) -> Status
    ensures { result ≡ spec_status_after outcome status }
{
    match outcome {
        Ok(()) => status,
        Err(WriteStop::Failed) => Status::WriteFault,
        Err(WriteStop::NoMemory) => Status::NoMemory,
    }
}

/// The line that tells that a text is no report.
#[tactic(auto, unfolding(crate::specs::Views::wrong_line))]
fn wrong_line(alloc: Global, at: u64) -> Result<Vec<u8>, NoMemory>
    ensures { IfOk result (λ line. line.items ≡ spec_wrong_line at) }
{
    let mut line = Vec::new(alloc);
    line.extend_from_slice(b"this is no report: line ")?;
    put_u64(&mut line, at)?;
    line.extend_from_slice(b" is wrong\n")?;
    Ok(line)
}

/// Tells that a text is no report.
fn complain<K: Sink>(alloc: Global, sink: &mut K, at: u64) -> Status
    ensures { Tells (IsWrongAt at) (K.written sink.old) (K.written sink.new)
        (Rose (K.faults sink.old) (K.faults sink.new)) result }
{
    match wrong_line(alloc, at) {
        Ok(line) => status_after(write_all(sink, &line), Status::BadReport { at }),
        Err(_) => Status::NoMemory,
    }
}

/// Tells a script's first faulty line and its reason in words.
fn explain<K: Sink>(alloc: Global, script: &[u8], sink: &mut K, refusal: Refusal) -> Status
    ensures { Tells (IsExplained script.now refusal.line refusal.reason) (K.written sink.old) (K.written sink.new)
        (Rose (K.faults sink.old) (K.faults sink.new)) result }
{
    let Refusal { line, reason } = refusal;
    match refusal_text(alloc, script, refusal) {
        Ok(text) => status_after(write_all(sink, &text), Status::BadScript { line, reason }),
        Err(_) => Status::NoMemory,
    }
}

/// Tells of bytes that are no report what they say of a script, or that they are wrong first at this line.
fn refuse<K: Sink>(alloc: Global, script: &[u8], sink: &mut K, bytes: &[u8], at: u64) -> Status
    ensures { Tells (IsRefusedAt script.now bytes.now at) (K.written sink.old) (K.written sink.new)
        (Rose (K.faults sink.old) (K.faults sink.new)) result }
{
    match refusal_of(alloc, bytes) {
        Ok(Some(refusal)) => explain(alloc, script, sink, refusal),
        Ok(None) => complain(alloc, sink, at),
        Err(_) => Status::NoMemory,
    }
}

/// Writes the report that these bytes are, or tells the first wrong line.
fn view_bytes<R: Rendering, K: Sink>(
    alloc: Global,
    rendering: &R,
    script: &[u8],
    sink: &mut K,
    bytes: &[u8],
) -> Status
    ensures { Tells (HasView (R.text rendering.now) script.now bytes.now) (K.written sink.old) (K.written sink.new)
        (Rose (K.faults sink.old) (K.faults sink.new)) result }
{
    match read(alloc, bytes) {
        Ok(report) => status_after(rendering.put(alloc, script, &report, sink), Status::Done),
        Err(ReportStop::Bad { at }) => refuse(alloc, script, sink, bytes, at),
        Err(ReportStop::NoMemory) => Status::NoMemory,
    }
}

/// The first so many bytes, and those behind them.
fn cut(bytes: &[u8], count: usize) -> (&[u8], &[u8])
    ensures front { result.0.now ≡ take count bytes.now }
    ensures back { result.1.now ≡ drop count bytes.now }
{
    if count < bytes.len() {
        bytes.split_at(count)
    } else {
        (bytes, &[])
    }
}

/// The same of bytes that begin with so many of a script.
fn view_input<R: Rendering, K: Sink>(
    alloc: Global,
    rendering: &R,
    script_bytes: usize,
    sink: &mut K,
    bytes: &[u8],
) -> Status
    ensures { Tells (HasView (R.text rendering.now) (take script_bytes bytes.now) (drop script_bytes bytes.now))
        (K.written sink.old) (K.written sink.new) (Rose (K.faults sink.old) (K.faults sink.new)) result }
{
    let (script, report) = cut(bytes, script_bytes);
    view_bytes(alloc, rendering, script, sink, report)
}

/// Reads a report from a source and writes it to a sink in the way that is asked for: of a `Choice` its tables and
/// counters under their headings. Of a text that is no report its first wrong line is told, and of the line of a bad
/// script its reason in words. Before the report so many bytes of its script come, whose texts, or whose faulty line,
/// are told then; 0 where it doesn't.
pub fn view<R: Rendering, S: Source, K: Sink>(
    alloc: Global,
    rendering: &R,
    script_bytes: usize,
    source: &mut S,
    sink: &mut K,
) -> Status
    ensures ends { Ends (R.text rendering.now) script_bytes (S.left source.old) (K.written sink.old) (K.written sink.new)
        (Rose (S.faults source.old) (S.faults source.new)) (Rose (K.faults sink.old) (K.faults sink.new)) result }
{
    match read_all(alloc, source, MOST_BYTES) {
        Ok(bytes) => view_input(alloc, rendering, script_bytes, sink, &bytes),
        Err(ReadStop::TooLong) => Status::TooLong,
        Err(ReadStop::Failed) => Status::ReadFault,
        Err(ReadStop::NoMemory) => Status::NoMemory,
    }
}
