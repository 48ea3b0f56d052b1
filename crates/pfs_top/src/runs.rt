//! Running a script, and writing its report.

ghost use Rattle.std.specs.Prelude.{ℕ, ◌≡◌, List, IfOk, Some, None};
ghost use Rattle.pfs_law_summaries.specs.SummaryLaws.{IsPlainCountedRun};
ghost use Rattle.pfs_outside.specs.DeviceCalls.{Rose};
ghost use Rattle.pfs_script.specs.Scripts.{IsScript};
ghost use Rattle.pfs_top.specs.Commands.{Ends, HasInput, HasReport, HasStore, ReadBy, RunOn, Tells, Writes, store_at};

use crate::NoMemory;
use crate::ends::RunEnd;
use crate::scripts::read_script;
use crate::statuses::{Status, status_after};
use pfs_board_store::Seats;
use pfs_journal::{Report, write};
use pfs_outside::{Sink, Source};
use pfs_run::run_plain;
use pfs_script::Script;
use pfs_threads::{Gate, Recorded, run_threads};
use std::alloc::Global;
use std::sync::Wait;
use std::thread::Threads;

/// Runs a script, the sessions of a phase at once; before each line its session asks the gate. The summaries of its
/// report show what counts there, its histories and current places the last puts, its long history the greatest
/// tickets, and its counter of lost digests how many digested statements had no place.
pub fn run_at_once<R: Threads + Wait + Sync, G: Gate>(
    rt: &R,
    gate: &G,
    alloc: Global,
    script: &Script,
) -> Result<Recorded, NoMemory>
    requires { (text : List ℕ) × IsScript text script.now.setting script.now.phases }
    ensures { IfOk result (λ recorded. RunOn (Some recorded.store) script.now.setting script.now.phases recorded.report) }
{
    pfs_law_summaries::summaries::counted();
    pfs_law_summaries::summaries::digested();
    pfs_law_summaries::summaries::histories();
    pfs_law_summaries::summaries::currents();
    pfs_law_summaries::summaries::longs();
    pfs_law_summaries::summaries::lost_digests();
    run_threads(rt, gate, alloc, &script.setting, script.phases.as_slice())
}

/// Runs a script on one thread, its sessions one after another. Its report shows what that of `run_at_once` shows, and
/// what it read is the last of each row.
pub fn run_in_turn(alloc: Global, script: &Script) -> Result<Report, NoMemory>
    requires { (text : List ℕ) × IsScript text script.now.setting script.now.phases }
    ensures { IfOk result (λ report. IsPlainCountedRun script.now.setting script.now.phases report) }
{
    pfs_law_summaries::summaries::counted();
    pfs_law_summaries::summaries::digested();
    pfs_law_summaries::summaries::histories();
    pfs_law_summaries::summaries::currents();
    pfs_law_summaries::summaries::longs();
    pfs_law_summaries::summaries::lost_digests();
    run_plain(alloc, &script.setting, script.phases.as_slice())
}

/// Writes a report.
fn write_report<K: Sink>(alloc: Global, report: &Report, sink: &mut K) -> Status
    ensures { Writes report.now (K.written sink.old) (K.written sink.new) (Rose (K.faults sink.old) (K.faults sink.new))
        result }
{
    // A report's parts tell that they can be spelled.
    let _ = report.parts();
    status_after(write(alloc, report, sink), Status::Done)
}

/// The end of a run over this store, with this status.
fn end_of(status: Status, store: Seats) -> RunEnd
    ensures status { result.status ≡ status }
    ensures store { result.store ≡ store_at status store }
{
    let store = match status {
        Status::Done => Some(store),
        _ => None,
    };
    RunEnd { status, store }
}

/// Runs a script, the sessions of a phase at once, and writes the report. The store that recorded it is there at Done.
fn report_at_once<R: Threads + Wait + Sync, G: Gate, K: Sink>(
    rt: &R,
    gate: &G,
    alloc: Global,
    script: &Script,
    sink: &mut K,
) -> RunEnd
    requires { (text : List ℕ) × IsScript text script.now.setting script.now.phases }
    ensures told { Tells (HasReport (RunOn result.store) script.now.setting script.now.phases) (K.written sink.old)
        (K.written sink.new) (Rose (K.faults sink.old) (K.faults sink.new)) result.status }
    ensures store { HasStore (Unit {0}) result.status result.store }
{
    match run_at_once(rt, gate, alloc, script) {
        Ok(recorded) => end_of(write_report(alloc, &recorded.report, sink), recorded.store),
        Err(_) => RunEnd {
            status: Status::NoMemory,
            store: None,
        },
    }
}

/// The same of a run on one thread.
fn report_in_turn<K: Sink>(alloc: Global, script: &Script, sink: &mut K) -> Status
    requires { (text : List ℕ) × IsScript text script.now.setting script.now.phases }
    ensures { Tells (HasReport IsPlainCountedRun script.now.setting script.now.phases) (K.written sink.old)
        (K.written sink.new) (Rose (K.faults sink.old) (K.faults sink.new)) result }
{
    match run_in_turn(alloc, script) {
        Ok(report) => write_report(alloc, &report, sink),
        Err(_) => Status::NoMemory,
    }
}

/// Reads a script and runs it, the sessions of a phase at once.
pub fn run<R: Threads + Wait + Sync, G: Gate, S: Source, K: Sink>(
    rt: &R,
    gate: &G,
    alloc: Global,
    source: &mut S,
    sink: &mut K,
) -> RunEnd
    ensures ends { Ends (Unit {0}) (HasInput (RunOn result.store) (S.left source.old)) (K.written sink.old)
        (K.written sink.new) (Rose (S.faults source.old) (S.faults source.new))
        (Rose (K.faults sink.old) (K.faults sink.new)) result.status }
    ensures reads { ReadBy S.left S.faults source.old source.new result.status }
    ensures store { HasStore (Unit {0}) result.status result.store }
{
    match read_script(alloc, source, sink) {
        Ok(script) => report_at_once(rt, gate, alloc, &script, sink),
        Err(status) => RunEnd {
            status,
            store: None,
        },
    }
}

/// Reads a script and runs it on one thread.
pub fn plain<S: Source, K: Sink>(alloc: Global, source: &mut S, sink: &mut K) -> Status
    ensures ends { Ends (Unit {0}) (HasInput IsPlainCountedRun (S.left source.old)) (K.written sink.old)
        (K.written sink.new) (Rose (S.faults source.old) (S.faults source.new))
        (Rose (K.faults sink.old) (K.faults sink.new)) result }
    ensures reads { ReadBy S.left S.faults source.old source.new result }
{
    match read_script(alloc, source, sink) {
        Ok(script) => report_in_turn(alloc, &script, sink),
        Err(status) => status,
    }
}
