//! Shows a report as tables: options in, a report in, tables out.
#![tactic(auto)]

ghost use Rattle.std.specs.Prelude.{◌≡◌, length, IfOk};

use pfs_outside::{NoMemory, Sink, Source, StdSink, StdSource, write_all};
use pfs_view::{Asked, Choice, Times, choose, view};
use std::alloc::Global;
use std::env::FillError;
use std::process::ExitCode;
use std::rt::Env;

// The room for a word: Linux hands over none that is longer.
const MOST_BYTES: usize = 131_072;

// The words behind the program's name. A list in which one is no UTF-8 or too long is told by one empty word, which is
// no option.
fn words<R: Env + AllocGlobal>(rt: &R) -> Result<Vec<String>, NoMemory> {
    let alloc = rt.alloc();
    let mut buffer = zeros(alloc, MOST_BYTES)?;
    let mut words = Vec::new(alloc);
    for place in 1..usize::MAX {
        match rt.arg(place, &mut buffer) {
            Ok(n) => match str::from_utf8(&buffer[..n]) {
                Ok(word) => words.push(String::from_str(alloc, word)?)?,
                Err(_) => return no_option(alloc),
            },
            Err(FillError::NotPresent) => break,
            Err(FillError::TooLong) => return no_option(alloc),
        }
    }
    Ok(words)
}

// One empty word.
fn no_option(alloc: Global) -> Result<Vec<String>, NoMemory> {
    let mut words = Vec::new(alloc);
    words.push(String::new(alloc))?;
    Ok(words)
}

// A buffer of so many bytes.
fn zeros(alloc: Global, len: usize) -> Result<Vec<u8>, NoMemory>
    ensures { IfOk result (λ buffer. length buffer.items ≡ len) }
{
    Vec::from_elem(alloc, 0, len)
}

const USAGE: &[u8] = b"usage: show [--raw] [--phase N] [--table NAME] [--script FILE]\n";

// Shows what the words choose of the report that the source has.
fn shown<S: Source, K: Sink>(alloc: Global, words: &[String], source: &mut S, sink: &mut K) -> u8 {
    let all = Choice {
        phase: None,
        table: None,
        times: Times::Units,
    };
    let asked = Asked {
        choice: all,
        script_bytes: 0,
    };
    match choose(words, asked) {
        Some(asked) => view(alloc, &asked.choice, asked.script_bytes, source, sink).exit_number(),
        None => match write_all(sink, USAGE) {
            Ok(()) => 1,
            Err(_) => 4,
        },
    }
}

// Shows a report over the standard streams. Where what the buffer still holds can't be written out, the status is that of
// a failed write, whatever came before.
fn run(rt: &HostRuntime) -> Result<u8, NoMemory> {
    let words = words(rt)?;
    let mut source = StdSource::new(rt.stdin());
    let mut sink = StdSink::new(rt.alloc(), rt.stdout())?;
    let status = shown(rt.alloc(), &words, &mut source, &mut sink);
    match sink.flush() {
        Ok(()) => Ok(status),
        Err(_) => Ok(4),
    }
}

fn main(rt: HostRuntime) -> ExitCode {
    ExitCode::from(run(&rt).unwrap_or(5))
}
