//! Running the generated script of a number, and writing its summaries.

ghost use Rattle.std.specs.Prelude.{ℕ, ◌≡◌, List, filter, IfOk};
ghost use Rattle.std.specs.List.{flat_map};
ghost use Rattle.pfs_gen.specs.GeneratedScript.{script_text};
ghost use Rattle.pfs_journal.specs.Spelling.{table_text};
ghost use Rattle.pfs_outside.specs.DeviceCalls.{Rose};
ghost use Rattle.pfs_outside.specs.WholeStreams.{Puts};
ghost use Rattle.pfs_script.specs.Scripts.{IsScript};
ghost use Rattle.pfs_law_load.specs.LoadText.{is_named, is_summary, last_tables, done_line, load_text};
ghost use Rattle.pfs_top.specs.Commands.{HasLoad, HasSummaries, Tells};

use crate::NoMemory;
use crate::runs::run_at_once;
use crate::statuses::{Status, status_after};
use pfs_gen::script_of;
use pfs_journal::{Report, TableReport, write_table};
use pfs_outside::{Sink, WriteStop, write_all};
use pfs_rows::{SummaryTable, Table, TableKind};
use pfs_script::{Script, ScriptFault};
use pfs_threads::Gate;
use std::alloc::Global;
use std::sync::Wait;
use std::thread::Threads;

/// The summaries that a load shows: those by event name over all sessions, of each kind, and that by digest.
const SUMMARIES: [Table; 5] = [
    Table::Summary(TableKind::Waits, SummaryTable::Global),
    Table::Summary(TableKind::Stages, SummaryTable::Global),
    Table::Summary(TableKind::Statements, SummaryTable::Global),
    Table::Summary(TableKind::Transactions, SummaryTable::Global),
    Table::DigestSummary,
];

/// Whether it is this table's.
#[tactic(auto, unfolding(pfs_law_load::specs::LoadText::is_named))]
fn is_named(table: &TableReport, named: Table) -> bool
    ensures { result ≡ is_named table.now named }
{
    table.name.as_bytes() == named.name().as_bytes()
}

/// Whether a load shows this table.
fn is_summary(table: &TableReport) -> bool
    ensures { result ≡ is_summary table.now }
{
    SUMMARIES.iter().any(|summary| is_named(table, *summary))
}

/// The tables under the end of the last phase, and none without a phase.
fn last_tables(report: &Report) -> &[TableReport]
    ensures { result.now ≡ last_tables report.now.phases }
{
    match report.parts().phases.as_slice().last() {
        Some(phase) => phase.parts().tables.as_slice(),
        None => &[],
    }
}

/// Writes those of the tables that a load shows.
fn put_summaries<K: Sink>(
    alloc: Global,
    tables: &[TableReport],
    sink: &mut K,
) -> Result<(), WriteStop>
    ensures { Puts (K.written sink.old) (K.written sink.new) (K.faults sink.old) (K.faults sink.new)
        (flat_map table_text (filter is_summary tables.now)) result }
{
    for table in tables {
        if is_summary(table) {
            match write_table(alloc, table, sink) {
                Ok(()) => {}
                Err(stop) => return Err(stop),
            }
        }
    }
    Ok(())
}

#[tactic(auto, unfolding(pfs_law_load::specs::LoadText::done_line))]
fn put_done<K: Sink>(sink: &mut K) -> Result<(), WriteStop>
    ensures { Puts (K.written sink.old) (K.written sink.new) (K.faults sink.old) (K.faults sink.new) (done_line) result }
{
    write_all(sink, b"done\n")
}

/// Writes what a load shows of its report.
#[tactic(auto, using(pfs_outside::proofs::SinkWrites::puts_then, pfs_outside::proofs::SinkWrites::puts_stop), unfolding(pfs_law_load::specs::LoadText::load_text))]
fn put_load<K: Sink>(alloc: Global, report: &Report, sink: &mut K) -> Result<(), WriteStop>
    ensures { Puts (K.written sink.old) (K.written sink.new) (K.faults sink.old) (K.faults sink.new)
        (load_text report.now) result }
{
    put_summaries(alloc, last_tables(report), sink)?;
    put_done(sink)
}

/// The script of a number.
fn generated(alloc: Global, number: u64) -> Result<Script, NoMemory>
    ensures { IfOk result (λ script. IsScript (script_text number) script.setting script.phases) }
{
    pfs_script::laws::exact();
    pfs_gen::laws::is_script();
    let bytes = script_of(alloc, number)?;
    match Script::read(alloc, &bytes) {
        Ok(script) => Ok(script),
        Err(ScriptFault::Bad { .. }) => unreachable!(),
        Err(ScriptFault::NoMemory) => Err(NoMemory),
    }
}

/// Runs a script, the sessions of a phase at once, and writes the summaries of its last phase.
fn show_summaries<R: Threads + Wait + Sync, G: Gate, K: Sink>(
    rt: &R,
    gate: &G,
    alloc: Global,
    script: &Script,
    sink: &mut K,
) -> Status
    requires { (text : List ℕ) × IsScript text script.now.setting script.now.phases }
    ensures { Tells (HasSummaries script.now.setting script.now.phases) (K.written sink.old) (K.written sink.new)
        (Rose (K.faults sink.old) (K.faults sink.new)) result }
{
    match run_at_once(rt, gate, alloc, script) {
        Ok(recorded) => {
            // A report's parts tell that they can be spelled.
            let _ = recorded.report.parts();
            status_after(put_load(alloc, &recorded.report, sink), Status::Done)
        }
        Err(_) => Status::NoMemory,
    }
}

/// Runs the script of a number, the sessions of a phase at once, and writes the summaries of its last phase: at Done the
/// text that a run on one thread has there.
pub fn load<R: Threads + Wait + Sync, G: Gate, K: Sink>(
    rt: &R,
    gate: &G,
    alloc: Global,
    number: u64,
    sink: &mut K,
) -> Status
    ensures { Tells (HasLoad number) (K.written sink.old) (K.written sink.new)
        (Rose (K.faults sink.old) (K.faults sink.new)) result }
{
    pfs_law_load::laws::one_text();
    match generated(alloc, number) {
        Ok(script) => show_summaries(rt, gate, alloc, &script, sink),
        Err(_) => Status::NoMemory,
    }
}
