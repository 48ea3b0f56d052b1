//! The standard streams as a source and a sink. They tell nothing of content: the trusted edge. Over a reader or a
//! writer that tells what it has, as a slice or a `Vec`, the clauses of each call say what comes from it and what
//! reaches it.

ghost use Rattle.std.specs.Prelude.{ℕ, List, Option, None, Ok, Err, ◌≡◌, ◌≢◌, ◌<◌, ◌≤◌, [], length, IfOk, OnOk};
ghost use Rattle.std.specs.Io.KnownBytes.{Keeps};
ghost use Rattle.pfs_outside.specs.MemoryDevices.{faults_after_read, faults_after_write};
ghost use Rattle.pfs_outside.specs.DeviceCalls.{Moved, RoseAtFault, RoseAtRefusal, Taken};
ghost use Rattle.pfs_outside.specs.StandardStreams.{Accepts, Draws, accepted, faults_after_flush};

use crate::NoMemory;
use crate::sink::{Sink, Wrote};
use crate::source::{Got, Source};
use crate::writing::WriteStop;
use std::alloc::{AllocError, Global};
use std::io::{BufWriter, ErrorKind, Read, Write};
use std::marker::Model;

#[cfg(test)]
mod tests;

// How often a read is made that is interrupted each time, before it counts as failed. The number is our own.
const MOST_TRIES: u32 = 1000;

// How many bytes a sink holds back from its writer, at most.
const ROOM: usize = 65_536;

// How many bytes of a buffer are taken at a time, at most. They are fewer than the room, so that the writer is offered
// held bytes alone, by std's loop, which makes an interrupted write again.
const PIECE: usize = 32_768;

/// A reader of the system, as standard input.
#[derive(Drop)]
pub struct StdSource<R: Read> {
    reader: R,
    faults: u64,
}

impl<R: Read> Model for StdSource<R> {
    ghost use Rattle.pfs_outside.specs.StandardStreams.{ReaderSource};

    ghost Value = { ReaderSource R };

    ghost view = { λ s. record { reader = s.reader; faults = s.faults } };
}

impl<R: Read> StdSource<R> {
    /// A source over this reader that has not failed yet.
    pub fn new(reader: R) -> StdSource<R>
        ensures { result ≡ record { reader = reader; faults = 0 } }
    {
        StdSource { reader, faults: 0 }
    }
}

impl<R: Read> Source for StdSource<R> {
    ghost left = { λ _. None };

    ghost faults = { λ s. s.faults };

    fn read(&mut self, buffer: &mut [u8]) -> Got
        requires { 0 < length buffer.old }
        ensures moved { Moved None None (length buffer.old) buffer.new result }
        ensures cause { RoseAtFault self.old.faults self.new.faults result }
        ensures draws { Draws (R.remaining self.old.reader) (R.remaining self.new.reader) buffer.new result }
        ensures faults { self.new.faults ≡ faults_after_read self.old.faults result }
    {
        let got = read_again(&mut self.reader, buffer);
        if got == Got::Failed {
            self.faults = self.faults.saturating_add(1);
        }
        got
    }
}

// One read, made again where it is interrupted.
fn read_again<R: Read>(reader: &mut R, buffer: &mut [u8]) -> Got
    requires { 0 < length buffer.old }
    ensures moved { Moved None None (length buffer.old) buffer.new result }
    ensures draws { Draws (R.remaining reader.old) (R.remaining reader.new) buffer.new result }
{
    for _ in 0..MOST_TRIES {
        match reader.read(buffer) {
            Ok(0) => return Got::End,
            Ok(n) => return Got::Bytes(n),
            Err(fault) => {
                if fault.kind() != ErrorKind::Interrupted {
                    return Got::Failed;
                }
            }
        }
    }
    Got::Failed
}

/// A writer of the system, as standard output, behind a buffer: it is called once for some 64 KiB. What is held back
/// at the end goes out by `flush` alone.
#[derive(Drop)]
pub struct StdSink<W: Write + Drop> {
    writer: BufWriter<W>,
    faults: u64,
}

impl<W: Write + Drop> Model for StdSink<W> {
    ghost use Rattle.std.specs.Io.Buffered.{writer_buffer, writer_inner};
    ghost use Rattle.pfs_outside.specs.StandardStreams.{WriterSink};

    ghost Value = { WriterSink W };

    ghost view = { λ s. record { writer = writer_inner s.writer; held = writer_buffer s.writer; faults = s.faults } };
}

impl<W: Write + Drop> StdSink<W> {
    /// A sink over this writer that holds nothing and has not failed yet. The memory of its buffer is taken here, and
    /// no other call takes any.
    pub fn new(alloc: Global, writer: W) -> Result<StdSink<W>, NoMemory>
        ensures { IfOk result (λ sink. sink ≡ record { writer = writer; held = []; faults = 0 }) }
    {
        match BufWriter::with_capacity(alloc, ROOM, writer) {
            Ok(writer) => Ok(StdSink { writer, faults: 0 }),
            Err(_) => Err(AllocError),
        }
    }

    /// Writes out what is held back. On a refusal what did not reach the writer is still held.
    pub fn flush(&mut self) -> Result<(), WriteStop>
        ensures ok { OnOk result (self.new.held ≡ []) }
        ensures keeps { Keeps (accepted W.contents self.old) (accepted W.contents self.new) }
        ensures faults { self.new.faults ≡ faults_after_flush self.old.faults result }
        ensures takes_no_memory { result ≢ Err WriteStop.NoMemory }
    {
        match self.writer.flush() {
            Ok(()) => Ok(()),
            Err(_) => {
                self.faults = self.faults.saturating_add(1);
                Err(WriteStop::Failed)
            }
        }
    }
}

impl<W: Write + Drop> Sink for StdSink<W> {
    ghost written = { λ _. None };

    ghost faults = { λ s. s.faults };

    fn write(&mut self, buffer: &[u8]) -> Wrote
        requires { 0 < length buffer.now }
        ensures taken { Taken None None buffer.now result }
        ensures cause { RoseAtRefusal self.old.faults self.new.faults result }
        ensures accepts { Accepts (accepted W.contents self.old) (accepted W.contents self.new) buffer.now result }
        ensures faults { self.new.faults ≡ faults_after_write self.old.faults result }
    {
        let piece = &buffer[..buffer.len().min(PIECE)];
        match self.writer.write(piece) {
            Ok(0) | Err(_) => {
                self.faults = self.faults.saturating_add(1);
                Wrote::Failed
            }
            Ok(n) => Wrote::Bytes(n),
        }
    }
}
