//! A page of a report.

ghost use Rattle.std.specs.Prelude.{ℕ, List, ◌≡◌, OnOk};
ghost use Rattle.std.specs.List.{flat_map};
ghost use Rattle.pfs_outside.specs.WholeStreams.{Puts};
ghost use Rattle.pfs_html.specs.Pages.{body_html, opening_html, page_html, phase_html, phases_html};

use crate::cells::Pen;
use crate::phases::build_phase;
use pfs_journal::{PhaseReport, Report};
use pfs_outside::{Sink, WriteStop, write_all};
use pfs_view::Rendering;
use std::alloc::Global;

/// What stands before the phases: the page's style, which is all that it needs.
const HEAD: &[u8] = b"<!DOCTYPE html>
<html lang=en>
<head>
<meta charset=utf-8>
<meta name=viewport content='width=device-width, initial-scale=1'>
<title>Recorded events</title>
<style>
:root { color-scheme: light dark; --line: #8885; --soft: #8882; --bar: #2f7fc1; }
body { font: 15px/1.45 system-ui, sans-serif; margin: 0 auto; padding: 1rem; max-width: 76rem; }
h1 { font-size: 1.5rem; margin: 0; }
h2 { font-size: 1.25rem; margin: 1.5rem 0 0.5rem; padding-bottom: 0.2rem; border-bottom: 2px solid var(--bar); }
h3 { font-size: 1rem; margin: 1.5rem 0 0.4rem; }
h4 { font-size: 0.9rem; margin: 0.8rem 0 0.3rem; }
div { overflow-x: auto; }
table { border-collapse: collapse; font-size: 0.85rem; }
th, td { padding: 0.25rem 0.7rem; border-bottom: 1px solid var(--line); text-align: left; white-space: nowrap; }
th { font-size: 0.7rem; font-weight: 600; background: var(--soft); }
td.n { text-align: right; font-variant-numeric: tabular-nums; }
h3 + div td:nth-child(2) { white-space: normal; overflow-wrap: anywhere; min-width: 13rem; }
meter { appearance: none; width: 12rem; height: 0.8rem; display: block; background: none; border: 0; }
meter::-webkit-meter-inner-element { display: block; height: 100%; }
meter::-webkit-meter-bar { background: var(--soft); border: 0; border-radius: 0; height: 100%; }
meter::-webkit-meter-optimum-value { background: var(--bar); }
meter::-moz-meter-bar { background: var(--bar); }
details { border-bottom: 1px solid var(--line); padding: 0.3rem 0; }
summary { cursor: pointer; overflow-wrap: anywhere; }
summary i { color: gray; font-style: normal; }
pre { max-height: 28rem; overflow: auto; margin: 0.4rem 0; padding: 0.5rem; background: var(--soft); }
@media (max-width: 45rem) { body { padding: 0.6rem; } meter { width: 5rem; } th, td { padding: 0.2rem 0.4rem; } }
</style>
</head>
<body>
<h1>Recorded events</h1>
";

/// What stands behind them.
const FOOT: &[u8] = b"</body>\n</html>\n";

/// A report as one page of HTML, which needs nothing else: no file, no script.
#[derive(Clone, Copy)]
pub struct Page;

/// Offers a phase, which is built in the pen.
fn put_phase<K: Sink>(
    alloc: Global,
    pen: &mut Pen,
    sink: &mut K,
    phase: &PhaseReport,
) -> Result<(), WriteStop>
    ensures { Puts (K.written sink.old) (K.written sink.new) (K.faults sink.old) (K.faults sink.new)
        (phase_html phase.now) result }
{
    match build_phase(alloc, pen, phase.parts()) {
        Ok(()) => write_all(sink, pen.page.as_slice()),
        Err(_) => Err(WriteStop::NoMemory),
    }
}

/// Offers the phases, in order.
#[tactic(auto, unfolding(crate::specs::Pages::phases_html))]
fn put_phases<K: Sink>(
    alloc: Global,
    pen: &mut Pen,
    sink: &mut K,
    phases: &[PhaseReport],
) -> Result<(), WriteStop>
    ensures { Puts (K.written sink.old) (K.written sink.new) (K.faults sink.old) (K.faults sink.new)
        (phases_html phases.now) result }
{
    for phase in phases {
        match put_phase(alloc, pen, sink, phase) {
            Ok(()) => {}
            Err(stop) => return Err(stop),
        }
    }
    Ok(())
}

#[tactic(auto, using(pfs_outside::proofs::SinkWrites::puts_then, pfs_outside::proofs::SinkWrites::puts_stop), unfolding(crate::specs::Pages::body_html))]
fn put_body<K: Sink>(
    alloc: Global,
    pen: &mut Pen,
    sink: &mut K,
    phases: &[PhaseReport],
) -> Result<(), WriteStop>
    ensures { Puts (K.written sink.old) (K.written sink.new) (K.faults sink.old) (K.faults sink.new)
        (body_html phases.now) result }
{
    put_phases(alloc, pen, sink, phases)?;
    write_all(sink, FOOT)
}

#[tactic(auto, unfolding(crate::specs::Pages::opening_html))]
fn put_opening<K: Sink>(sink: &mut K) -> Result<(), WriteStop>
    ensures { Puts (K.written sink.old) (K.written sink.new) (K.faults sink.old) (K.faults sink.new) (opening_html)
        result }
{
    write_all(sink, HEAD)
}

impl Rendering for Page {
    ghost text = { λ page script report. page_html report };

    /// Writes the page phase by phase, whatever the script. On a refusal a front of it was written.
    #[tactic(auto, using(pfs_outside::proofs::SinkWrites::puts_then, pfs_outside::proofs::SinkWrites::puts_stop), unfolding(crate::specs::Pages::page_html))]
    fn put<K: Sink>(
        &self,
        alloc: Global,
        _script: &[u8],
        report: &Report,
        sink: &mut K,
    ) -> Result<(), WriteStop> {
        let mut pen = Pen {
            page: Vec::new(alloc),
            cell: Vec::new(alloc),
        };
        put_opening(sink)?;
        put_body(alloc, &mut pen, sink, report.parts().phases.as_slice())
    }
}
