//! The program: words in, standard input in, standard output out, and the status as its exit code.
#![tactic(auto)]

ghost use Rattle.std.specs.Prelude.{◌≡◌, length, IfOk};

use pfs_outside::{NoMemory, StdSink, StdSource};
use pfs_top::{Status, pfs};
use std::alloc::Global;
use std::env::FillError;
use std::io::{Stdin, Stdout};
use std::process::ExitCode;
use std::rt::Env;
use std::sync::Wait;
use std::thread::Threads;

// The room for a word: Linux hands over none that is longer. Zeros may lead the number of a load, so a command may be
// as long.
const MOST_BYTES: usize = 131_072;

// The words behind the program's name. A list in which one is no UTF-8 or too long is no command, as the empty list is
// none, and is answered as that one.
fn words<R: Env + AllocGlobal>(rt: &R) -> Result<Vec<String>, NoMemory> {
    let alloc = rt.alloc();
    let mut buffer = zeros(alloc, MOST_BYTES)?;
    let mut words = Vec::new(alloc);
    for place in 1..usize::MAX {
        match rt.arg(place, &mut buffer) {
            Ok(n) => match str::from_utf8(&buffer[..n]) {
                Ok(word) => words.push(String::from_str(alloc, word)?)?,
                Err(_) => return Ok(Vec::new(alloc)),
            },
            Err(FillError::NotPresent) => break,
            Err(FillError::TooLong) => return Ok(Vec::new(alloc)),
        }
    }
    Ok(words)
}

// A buffer of so many bytes.
fn zeros(alloc: Global, len: usize) -> Result<Vec<u8>, NoMemory>
    ensures { IfOk result (λ buffer. length buffer.items ≡ len) }
{
    Vec::from_elem(alloc, 0, len)
}

// Runs the command of the words over the standard streams. Where what the buffer still holds can't be written out, the
// status is that of a failed write, whatever came before.
fn run<R: Env + AllocGlobal + Threads + Wait + Sync>(
    rt: &R,
    input: Stdin,
    output: Stdout,
) -> Result<Status, NoMemory> {
    let words = words(rt)?;
    let mut source = StdSource::new(input);
    let mut sink = StdSink::new(rt.alloc(), output)?;
    let end = pfs(rt, rt.alloc(), &words, &mut source, &mut sink);
    match sink.flush() {
        Ok(()) => Ok(end.status),
        Err(_) => Ok(Status::WriteFault),
    }
}

fn main(rt: HostRuntime) -> ExitCode {
    let status = run(&rt, rt.stdin(), rt.stdout()).unwrap_or(Status::NoMemory);
    ExitCode::from(status.number())
}
