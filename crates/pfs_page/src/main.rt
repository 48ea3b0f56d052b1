//! Writes a report as a page: a report in, HTML out.
#![tactic(auto)]

use pfs_html::Page;
use pfs_outside::{NoMemory, Sink, Source, StdSink, StdSource, write_all};
use pfs_view::view;
use std::alloc::Global;
use std::env::FillError;
use std::process::ExitCode;
use std::rt::Env;

const USAGE: &[u8] = b"usage: page\n";

// Whether a word stands behind the program's name.
fn has_word<R: Env>(rt: &R) -> bool {
    let mut buffer = [0; 1];
    !matches!(rt.arg(1, &mut buffer), Err(FillError::NotPresent))
}

// Writes the report that the source has as a page.
fn written<S: Source, K: Sink>(alloc: Global, is_asked: bool, source: &mut S, sink: &mut K) -> u8 {
    if is_asked {
        return view(alloc, &Page, 0, source, sink).exit_number();
    }
    match write_all(sink, USAGE) {
        Ok(()) => 1,
        Err(_) => 4,
    }
}

// Writes a page over the standard streams. Where what the buffer still holds can't be written out, the status is that of
// a failed write, whatever came before.
fn run(rt: &HostRuntime) -> Result<u8, NoMemory> {
    let mut source = StdSource::new(rt.stdin());
    let mut sink = StdSink::new(rt.alloc(), rt.stdout())?;
    let status = written(rt.alloc(), !has_word(rt), &mut source, &mut sink);
    match sink.flush() {
        Ok(()) => Ok(status),
        Err(_) => Ok(4),
    }
}

fn main(rt: HostRuntime) -> ExitCode {
    ExitCode::from(run(&rt).unwrap_or(5))
}
