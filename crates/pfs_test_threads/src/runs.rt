//! What `run` and `plain` write for a script, and parts of it.

use pfs_journal::{Report, read};
use pfs_outside::{MemorySink, MemorySource};
use pfs_top::{Gate, OpenGate, Status, pfs_gated, pfs_plain};
use std::alloc::{AllocError, Global};
use std::sync::Wait;
use std::test::Fail;
use std::thread::Threads;

/// The room for a report.
const ROOM: u64 = 4_000_000;

/// The one word of a command.
fn words(alloc: Global, word: &str) -> Result<Vec<String>, AllocError> {
    let mut words = Vec::new(alloc);
    words.push(String::from_str(alloc, word)?)?;
    Ok(words)
}

/// The report that `run` writes with this gate. It is done, and hands its store out.
pub(crate) fn ran_gated<R: Threads + Wait + Sync, G: Gate>(
    rt: &R,
    gate: &G,
    alloc: Global,
    script: &[u8],
) -> Result<MemorySink, Fail> {
    let words = words(alloc, "run")?;
    let mut source = MemorySource::new(alloc, script, &[])?;
    let mut sink = MemorySink::new(alloc, ROOM, &[])?;
    let end = pfs_gated(rt, gate, alloc, &words, &mut source, &mut sink);
    if end.status != Status::Done || end.store.is_none() {
        return Err(Fail::from("run is done"));
    }
    Ok(sink)
}

/// The report that `run` writes.
pub(crate) fn ran<R: Threads + Wait + Sync>(
    rt: &R,
    alloc: Global,
    script: &[u8],
) -> Result<MemorySink, Fail> {
    ran_gated(rt, &OpenGate, alloc, script)
}

/// The report that `plain` writes.
pub(crate) fn ran_in_turn(alloc: Global, script: &[u8]) -> Result<MemorySink, Fail> {
    let words = words(alloc, "plain")?;
    let mut source = MemorySource::new(alloc, script, &[])?;
    let mut sink = MemorySink::new(alloc, ROOM, &[])?;
    let status = pfs_plain(alloc, &words, &mut source, &mut sink);
    if status != Status::Done {
        return Err(Fail::from("plain is done"));
    }
    Ok(sink)
}

/// The text read back as a report.
pub(crate) fn report_of(alloc: Global, text: &[u8]) -> Result<Report, Fail> {
    match read(alloc, text) {
        Ok(report) => Ok(report),
        Err(_) => Err(Fail::from("the report is read")),
    }
}

/// Whether a text has this part.
pub(crate) fn has(text: &[u8], part: &[u8]) -> bool {
    text.windows(part.len().max(1)).any(|window| window == part)
}

/// What follows the first line `final`: the tables at the end of the first phase, and all behind them.
pub(crate) fn behind_final(text: &[u8]) -> &[u8] {
    let mark: &[u8] = b"\nfinal\n";
    match text.windows(mark.len()).position(|window| window == mark) {
        Some(place) => text.get(place..).unwrap_or(b""),
        None => b"",
    }
}
