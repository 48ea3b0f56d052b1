//! The commands: what words ask for is done over a source and a sink.

ghost use Rattle.pfs_outside.specs.DeviceCalls.{Rose};
ghost use Rattle.pfs_outside.specs.WholeStreams.{Puts};
ghost use Rattle.pfs_top.specs.Commands.{usage_text, HasUsage, HasPlain, HasStore, Has, Tells, Ends, Completes, CompletesLoad, LeavesSource};
ghost use Rattle.pfs_top.specs.CommandWords.{AsksPlain, AsksRun, AsksScript};

use crate::ends::RunEnd;
use crate::loads::load;
use crate::runs::{plain, run};
use crate::statuses::{Status, status_after};
use crate::words::{is_word, load_number};
use pfs_outside::{Sink, Source, WriteStop, write_all};
use pfs_script::laws;
use pfs_threads::{Gate, OpenGate};
use std::alloc::Global;
use std::sync::Wait;
use std::thread::Threads;

#[tactic(auto, unfolding(crate::specs::Commands::usage_text))]
fn put_usage<K: Sink>(sink: &mut K) -> Result<(), WriteStop>
    ensures { Puts (K.written sink.old) (K.written sink.new) (K.faults sink.old) (K.faults sink.new) usage_text result }
{
    write_all(sink, b"usage: run | plain | load N\n")
}

/// Writes the usage line.
fn usage<K: Sink>(sink: &mut K) -> Status
    ensures { Tells HasUsage (K.written sink.old) (K.written sink.new) (Rose (K.faults sink.old) (K.faults sink.new))
        result }
{
    status_after(put_usage(sink), Status::Usage)
}

/// Does what the words say, on one thread and without waiting: `plain` reads a script from the source, runs it, its
/// sessions one after another, and writes its report to the sink. Every other list of words gets the usage line, and
/// the source is not read.
pub fn pfs_plain<S: Source, K: Sink>(
    alloc: Global,
    words: &[String],
    source: &mut S,
    sink: &mut K,
) -> Status
    ensures ends { Ends (AsksPlain words.now) (HasPlain words.now (S.left source.old)) (K.written sink.old)
        (K.written sink.new) (Rose (S.faults source.old) (S.faults source.new))
        (Rose (K.faults sink.old) (K.faults sink.new)) result }
    ensures reads { LeavesSource S.left S.faults (AsksPlain words.now) source.old source.new result }
    ensures completes { Completes (AsksPlain words.now) (S.left source.old)
        (Rose (S.faults source.old) (S.faults source.new)) (Rose (K.faults sink.old) (K.faults sink.new)) result }
{
    laws::exact();
    if is_word(words, "plain") {
        plain(alloc, source, sink)
    } else {
        usage(sink)
    }
}

/// Does what the words say. `run` reads a script from the source, runs it, and writes its report to the sink. `load N`
/// reads nothing, runs the generated script of the number N, and writes the `table` and `row` lines that the end of its
/// last phase has for `events_K_summary_global_by_event_name` of the four kinds and for
/// `events_statements_summary_by_digest`, then the line `done`. Both run the sessions of a phase at once, each in a
/// thread of its own where one can be started. Every other list of words is handed to `pfs_plain`.
pub fn pfs<R: Threads + Wait + Sync, S: Source, K: Sink>(
    rt: &R,
    alloc: Global,
    words: &[String],
    source: &mut S,
    sink: &mut K,
) -> RunEnd
    ensures ends { Ends (AsksScript words.now) (Has result.store words.now (S.left source.old)) (K.written sink.old)
        (K.written sink.new) (Rose (S.faults source.old) (S.faults source.new))
        (Rose (K.faults sink.old) (K.faults sink.new)) result.status }
    ensures store { HasStore (AsksRun words.now) result.status result.store }
    ensures reads { LeavesSource S.left S.faults (AsksScript words.now) source.old source.new result.status }
    ensures completes { Completes (AsksScript words.now) (S.left source.old)
        (Rose (S.faults source.old) (S.faults source.new)) (Rose (K.faults sink.old) (K.faults sink.new)) result.status }
    ensures loads { CompletesLoad words.now (Rose (K.faults sink.old) (K.faults sink.new)) result.status }
{
    pfs_gated(rt, &OpenGate, alloc, words, source, sink)
}

/// The same with a gate: before each line of a block its session asks the gate, and goes on when that has answered.
pub fn pfs_gated<R: Threads + Wait + Sync, G: Gate, S: Source, K: Sink>(
    rt: &R,
    gate: &G,
    alloc: Global,
    words: &[String],
    source: &mut S,
    sink: &mut K,
) -> RunEnd
    ensures ends { Ends (AsksScript words.now) (Has result.store words.now (S.left source.old)) (K.written sink.old)
        (K.written sink.new) (Rose (S.faults source.old) (S.faults source.new))
        (Rose (K.faults sink.old) (K.faults sink.new)) result.status }
    ensures store { HasStore (AsksRun words.now) result.status result.store }
    ensures reads { LeavesSource S.left S.faults (AsksScript words.now) source.old source.new result.status }
    ensures completes { Completes (AsksScript words.now) (S.left source.old)
        (Rose (S.faults source.old) (S.faults source.new)) (Rose (K.faults sink.old) (K.faults sink.new)) result.status }
    ensures loads { CompletesLoad words.now (Rose (K.faults sink.old) (K.faults sink.new)) result.status }
{
    laws::exact();
    if is_word(words, "run") {
        return run(rt, gate, alloc, source, sink);
    }
    match load_number(words) {
        Some(number) => RunEnd {
            status: load(rt, gate, alloc, number, sink),
            store: None,
        },
        None => RunEnd {
            status: pfs_plain(alloc, words, source, sink),
            store: None,
        },
    }
}
