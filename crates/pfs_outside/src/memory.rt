//! A source and a sink in memory, which tell everything and fail at chosen calls.

ghost use Rattle.std.specs.Prelude.{ℕ, List, Option, Some, ◌≡◌, ◌+◌, ◌<◌, ◌≤◌, ◌↔◌, ◌++◌, length, take, drop, min, IfOk, vec_capacity};
ghost use Rattle.pfs_outside.specs.DeviceCalls.{Moved, RoseAtFault, Taken, RoseAtRefusal};

use crate::NoMemory;
use crate::sink::{Sink, Wrote};
use crate::source::{Got, Source};
use std::alloc::Global;
use std::marker::Model;

/// A source over bytes in memory. It tells what it has left.
#[derive(Drop)]
pub struct MemorySource {
    bytes: Vec<u8>,
    at: usize,
    fails: Vec<u64>,
    calls: u64,
    faults: u64,
}

impl Model for MemorySource {
    ghost use Rattle.std.specs.Prelude.{drop};
    ghost use Rattle.pfs_outside.specs.MemoryDevices.{Reading};

    ghost Value = { Reading };

    ghost view = { λ s. record {
      left = drop s.at s.bytes.items;
      fails = s.fails.items;
      calls = s.calls;
      faults = s.faults;
    } };
}

impl MemorySource {
    ghost use Rattle.pfs_outside.specs.MemoryDevices.{new_source};

    /// A source that gives a copy of these bytes, as many at a time as the buffer takes, and fails at
    /// the calls of these numbers, counted from 1.
    pub fn new(alloc: Global, bytes: &[u8], fails: &[u64]) -> Result<MemorySource, NoMemory>
        ensures { IfOk result (λ source. source ≡ new_source bytes.now fails.now) }
    {
        Ok(MemorySource {
            bytes: Vec::from_slice(alloc, bytes)?,
            at: 0,
            fails: Vec::from_slice(alloc, fails)?,
            calls: 0,
            faults: 0,
        })
    }
}

impl Source for MemorySource {
    ghost use Rattle.pfs_outside.specs.MemoryDevices.{NextReadFails, CountsRead, Fills, faults_after_read};

    ghost left = { λ s. Some s.left };

    ghost faults = { λ s. s.faults };

    fn read(&mut self, buffer: &mut [u8]) -> Got
        requires { 0 < length buffer.old }
        ensures moved { Moved (Some self.old.left) (Some self.new.left) (length buffer.old) buffer.new result }
        ensures cause { RoseAtFault self.old.faults self.new.faults result }
        ensures fails { (result ≡ Got.Failed) ↔ NextReadFails self.old }
        ensures counts { CountsRead self.old self.new }
        ensures fills { Fills (length buffer.old) (length self.old.left) result }
        ensures faults { self.new.faults ≡ faults_after_read self.old.faults result }
    {
        self.calls = self.calls.saturating_add(1);
        if self.fails.contains(&self.calls) {
            self.faults = self.faults.saturating_add(1);
            return Got::Failed;
        }
        if self.at >= self.bytes.len() {
            return Got::End;
        }
        let n = copy_front(buffer, &self.bytes, self.at);
        self.at += n;
        Got::Bytes(n)
    }
}

// Copies what stands at a place of the bytes to the front of the buffer, as much as fits.
fn copy_front(buffer: &mut [u8], bytes: &[u8], at: usize) -> usize
    requires room { 0 < length buffer.old }
    requires some { at < length bytes.now }
    ensures moves { (0 < result) × (result ≤ length buffer.old) × (at + result ≤ length bytes.now) }
    ensures fills { result ≡ min (length buffer.old) (length (drop at bytes.now)) }
    ensures bytes { drop at bytes.now ≡ take result buffer.new ++ drop (at + result) bytes.now }
{
    let n = buffer.len().min(bytes.len() - at);
    buffer[..n].copy_from_slice(&bytes[at..at + n]);
    n
}

/// A sink in memory. It tells what was written.
#[derive(Drop)]
pub struct MemorySink {
    text: Vec<u8>,
    room: usize,
    fails: Vec<u64>,
    calls: u64,
    faults: u64,
}

impl Model for MemorySink {
    ghost use Rattle.std.specs.Prelude.{◌≤◌, vec_capacity};
    ghost use Rattle.pfs_outside.specs.MemoryDevices.{Writing};

    ghost Value = { Writing };

    ghost view = { λ s. record {
      text = s.text.items;
      room = s.room;
      fails = s.fails.items;
      calls = s.calls;
      faults = s.faults;
    } };

    ghost invariant = { λ s. s.room ≤ vec_capacity s.text };
}

impl MemorySink {
    ghost use Rattle.pfs_outside.specs.MemoryDevices.{new_sink};

    /// A sink with room for so many bytes, taken here, that fails at the calls of these numbers,
    /// counted from 1. A write past its room takes what fits; where nothing fits, it fails.
    pub fn new(alloc: Global, room: u64, fails: &[u64]) -> Result<MemorySink, NoMemory>
        ensures { IfOk result (λ sink. sink ≡ new_sink room fails.now) }
    {
        let room = room as usize;
        Ok(MemorySink {
            text: Vec::with_capacity(alloc, room)?,
            room,
            fails: Vec::from_slice(alloc, fails)?,
            calls: 0,
            faults: 0,
        })
    }

    /// What was written.
    pub fn bytes(&self) -> &[u8]
        ensures { result.now ≡ self.now.text }
    {
        self.text.as_slice()
    }
}

impl Sink for MemorySink {
    ghost use Rattle.pfs_outside.specs.MemoryDevices.{NextWriteFails, CountsWrite, TakesWhatFits, faults_after_write};

    ghost written = { λ s. Some s.text };

    ghost faults = { λ s. s.faults };

    fn write(&mut self, buffer: &[u8]) -> Wrote
        requires { 0 < length buffer.now }
        ensures taken { Taken (Some self.old.text) (Some self.new.text) buffer.now result }
        ensures cause { RoseAtRefusal self.old.faults self.new.faults result }
        ensures fails { (result ≡ Wrote.Failed) ↔ NextWriteFails self.old }
        ensures counts { CountsWrite self.old self.new }
        ensures fits { TakesWhatFits (length buffer.now) self.old.room (length self.old.text) result }
        ensures faults { self.new.faults ≡ faults_after_write self.old.faults result }
    {
        self.calls = self.calls.saturating_add(1);
        let n = buffer.len().min(self.room.saturating_sub(self.text.len()));
        if n == 0 || self.fails.contains(&self.calls) {
            self.faults = self.faults.saturating_add(1);
            return Wrote::Failed;
        }
        match self.text.extend_from_slice(&buffer[..n]) {
            Ok(()) => Wrote::Bytes(n),
            Err(_) => unreachable!(),
        }
    }
}
