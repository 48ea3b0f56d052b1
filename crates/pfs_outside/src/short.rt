//! A source and a sink in memory that move few bytes a call.

ghost use Rattle.std.specs.Prelude.{ℕ, List, Some, ◌≡◌, ◌<◌, ◌↔◌, length, min, IfOk};
ghost use Rattle.pfs_outside.specs.DeviceCalls.{Moved, RoseAtFault, Taken, RoseAtRefusal};

use crate::NoMemory;
use crate::memory::{MemorySink, MemorySource};
use crate::sink::{Sink, Wrote};
use crate::source::{Got, Source};
use std::alloc::Global;
use std::marker::Model;

/// A source over bytes in memory that gives at most so many of them a read. It tells what it has left.
#[derive(Drop)]
pub struct ShortSource {
    device: MemorySource,
    most: usize,
}

impl Model for ShortSource {
    ghost use Rattle.std.specs.Prelude.{◌<◌};
    ghost use Rattle.pfs_outside.specs.MemoryDevices.{ShortReading};

    ghost Value = { ShortReading };

    ghost view = { λ s. record { device = s.device; most = s.most } };

    ghost invariant = { λ s. 0 < s.most };
}

impl ShortSource {
    ghost use Rattle.pfs_outside.specs.MemoryDevices.{new_source};

    /// A source that gives a copy of these bytes, at most so many at a time, and fails at the calls of these numbers,
    /// counted from 1. It is refused where there is no memory.
    pub fn new(
        alloc: Global,
        bytes: &[u8],
        most: u64,
        fails: &[u64],
    ) -> Result<ShortSource, NoMemory>
        requires { 0 < most }
        ensures { IfOk result (λ source. source ≡ record { device = new_source bytes.now fails.now; most = most }) }
    {
        Ok(ShortSource {
            device: MemorySource::new(alloc, bytes, fails)?,
            most: most as usize,
        })
    }
}

impl Source for ShortSource {
    ghost use Rattle.pfs_outside.specs.MemoryDevices.{NextReadFails, CountsRead, Fills, faults_after_read};

    ghost left = { λ s. Some s.device.left };

    ghost faults = { λ s. s.device.faults };

    fn read(&mut self, buffer: &mut [u8]) -> Got
        requires { 0 < length buffer.old }
        ensures moved { Moved (Some self.old.device.left) (Some self.new.device.left) (length buffer.old) buffer.new
            result }
        ensures cause { RoseAtFault self.old.device.faults self.new.device.faults result }
        ensures fails { (result ≡ Got.Failed) ↔ NextReadFails self.old.device }
        ensures counts { CountsRead self.old.device self.new.device }
        ensures fills { Fills (min (length buffer.old) self.old.most) (length self.old.device.left) result }
        ensures faults { self.new.device.faults ≡ faults_after_read self.old.device.faults result }
        ensures most { self.new.most ≡ self.old.most }
    {
        let size = buffer.len().min(self.most);
        self.device.read(&mut buffer[..size])
    }
}

/// A sink in memory that takes at most so many bytes a write. It tells what was written.
#[derive(Drop)]
pub struct ShortSink {
    device: MemorySink,
    most: usize,
}

impl Model for ShortSink {
    ghost use Rattle.std.specs.Prelude.{◌<◌};
    ghost use Rattle.pfs_outside.specs.MemoryDevices.{ShortWriting};

    ghost Value = { ShortWriting };

    ghost view = { λ s. record { device = s.device; most = s.most } };

    ghost invariant = { λ s. 0 < s.most };
}

impl ShortSink {
    ghost use Rattle.pfs_outside.specs.MemoryDevices.{new_sink};

    /// A sink with room for so many bytes, taken here, that takes at most so many at a time and fails at the calls of
    /// these numbers, counted from 1, and where it is full. It is refused where there is no memory.
    pub fn new(alloc: Global, room: u64, most: u64, fails: &[u64]) -> Result<ShortSink, NoMemory>
        requires { 0 < most }
        ensures { IfOk result (λ sink. sink ≡ record { device = new_sink room fails.now; most = most }) }
    {
        Ok(ShortSink {
            device: MemorySink::new(alloc, room, fails)?,
            most: most as usize,
        })
    }

    /// What was written.
    pub fn bytes(&self) -> &[u8]
        ensures { result.now ≡ self.now.device.text }
    {
        self.device.bytes()
    }
}

impl Sink for ShortSink {
    ghost use Rattle.pfs_outside.specs.MemoryDevices.{NextWriteFails, CountsWrite, TakesWhatFits, faults_after_write};

    ghost written = { λ s. Some s.device.text };

    ghost faults = { λ s. s.device.faults };

    fn write(&mut self, buffer: &[u8]) -> Wrote
        requires { 0 < length buffer.now }
        ensures taken { Taken (Some self.old.device.text) (Some self.new.device.text) buffer.now result }
        ensures cause { RoseAtRefusal self.old.device.faults self.new.device.faults result }
        ensures fails { (result ≡ Wrote.Failed) ↔ NextWriteFails self.old.device }
        ensures counts { CountsWrite self.old.device self.new.device }
        ensures fits { TakesWhatFits (min (length buffer.now) self.old.most) self.old.device.room
            (length self.old.device.text) result }
        ensures faults { self.new.device.faults ≡ faults_after_write self.old.device.faults result }
        ensures most { self.new.most ≡ self.old.most }
    {
        let size = buffer.len().min(self.most);
        self.device.write(&buffer[..size])
    }
}
