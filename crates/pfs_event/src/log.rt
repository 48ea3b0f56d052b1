//! A list of journal entries with its room.

ghost use Rattle.std.specs.Prelude.{◌≡◌, ◌<◌, ◌^◌, ◌+◌, ◌-◌, ◌++◌, ◌∷◌, [], IfOk, OnOk, OnErr, length, slice_get, Some};

use crate::NoMemory;
use crate::entry::Entry;
use crate::packed::{Packed, pack};
use crate::short::{Short, lengthen, shorten};
use std::alloc::{AllocError, Global};
use std::marker::Model;

/// Entries in the order in which they were added, and room for more.
#[derive(Drop)]
pub struct Log {
    shorts: Vec<Short>,
    others: Vec<Packed>,
    room: u64,
}

impl Model for Log {
    ghost use Rattle.std.specs.Prelude.{◌+◌, ◌≤◌, length, vec_len, vec_capacity};
    ghost use Rattle.std.specs.List.{All};
    ghost use Rattle.pfs_event.specs.Logs.{Journal};
    ghost use Rattle.pfs_event.specs.PackedEntries.{IsAmong, entries_of};

    ghost Value = { Journal };

    ghost view = { λ s. record { entries = entries_of s.others.items s.shorts.items; room = s.room } };

    ghost invariant = { λ s. (vec_len s.shorts + s.room ≤ vec_capacity s.shorts)
        × (vec_len s.others + s.room ≤ vec_capacity s.others)
        × All (IsAmong (length s.others.items)) s.shorts.items };
}

impl Log {
    /// An empty log without room. It takes no memory.
    pub fn new(alloc: Global) -> Log
        ensures { result ≡ record { entries = []; room = 0 } }
    {
        Log {
            shorts: Vec::new(alloc),
            others: Vec::new(alloc),
            room: 0,
        }
    }

    /// An empty log with room for so many entries. The room is taken here, and no other call takes memory.
    pub fn with_room(alloc: Global, entries: u64) -> Result<Log, NoMemory>
        ensures { IfOk result (λ log. log ≡ record { entries = []; room = entries }) }
    {
        Ok(Log {
            shorts: Vec::with_capacity(alloc, entries as usize)?,
            others: Vec::with_capacity(alloc, entries as usize)?,
            room: entries,
        })
    }

    /// Makes room for so many entries more. Out of memory the log is as before.
    pub fn reserve(&mut self, entries: u64) -> Result<(), NoMemory>
        ensures ok { OnOk result (self.new ≡ record { entries = self.old.entries; room = self.old.room + entries }) }
        ensures err { OnErr result (self.new ≡ self.old) }
    {
        let Some(room) = self.room.checked_add(entries) else {
            return Err(AllocError);
        };
        self.shorts.reserve(room as usize)?;
        self.others.reserve(room as usize)?;
        self.room = room;
        Ok(())
    }

    /// Adds an entry at the end.
    #[inline(always)]
    #[tactic(auto, using(crate::proofs::Logs::short_more, crate::proofs::Logs::short_among))]
    pub fn push(&mut self, entry: Entry)
        requires { 0 < self.old.room }
        ensures { self.new ≡ record { entries = self.old.entries ++ entry ∷ []; room = self.old.room - 1 } }
    {
        match shorten(&entry) {
            Some(short) => {
                self.room -= 1;
                self.shorts.push_reserved(short);
            }
            None => self.push_long(entry),
        }
    }

    // The same of an entry whose numbers are large.
    #[inline(never)]
    #[tactic(auto, using(crate::proofs::Logs::long_more, crate::proofs::Logs::long_among))]
    fn push_long(&mut self, entry: Entry)
        requires { 0 < self.old.room }
        ensures { self.new ≡ record { entries = self.old.entries ++ entry ∷ []; room = self.old.room - 1 } }
    {
        self.room -= 1;
        self.shorts
            .push_reserved(Short::Long(self.others.len() as u64));
        self.others.push_reserved(pack(entry));
    }

    /// How many more entries have room.
    pub fn room(&self) -> u64
        ensures { result ≡ self.now.room }
    {
        self.room
    }

    /// How many entries there are.
    pub fn count(&self) -> usize
        ensures count { result ≡ length self.now.entries }
        ensures few { result < 2 ^ 63 }
    {
        self.shorts.as_slice().len()
    }

    /// The entry at a place.
    #[inline(always)]
    pub fn entry(&self, place: usize) -> Entry
        requires { place < length self.now.entries }
        ensures { slice_get self.now.entries place ≡ Some result }
    {
        lengthen(self.shorts[place], self.others.as_slice())
    }
}
