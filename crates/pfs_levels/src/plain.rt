//! The store as plain vectors.

ghost use Rattle.std.specs.Prelude.{◌≡◌, ◌^◌, [], ℕ, None, Some, IfOk, length, map};
ghost use Rattle.pfs_levels.specs.Calls.{Opening, known_version};
ghost use Rattle.pfs_levels.specs.PlainStore.{IsAt, HasRoom, slot_at, in_hand, word};

use crate::NoMemory;
use crate::answers::{Added, RingPut, Word};
use crate::slots::Slots;
use crate::store::{Acts, Hold, Readable, Rows};
use pfs_board::{Content, Label};
use pfs_rows::{LONG_HISTORY, Seen};
use pfs_stat::Stat;
use std::alloc::Global;

/// A row as contracts see it: how often it was published, whether it is in hand, whether it is allocated or free, and
/// its content.
#[derive(Clone, Copy, Debug, PartialEq, Eq)]
pub struct Slot {
    pub version: u64,
    pub taken: bool,
    pub allocated: bool,
    pub content: [u64; 16],
}

/// A store for actors that work one after another.
#[derive(Drop)]
pub struct PlainRows {
    slots: Slots,
    words: Vec<Word>,
    tickets: [u64; 4],
    left: u64,
    draws: u64,
    ghost room: { HasRoom left draws slots words.items tickets },
}

impl Readable for PlainRows {
    ghost seen = { λ s. record {
      reached = λ start calls. IsAt s.slots s.words.items s.tickets start.flags calls;
      hand = λ row. in_hand (slot_at s.slots row);
      left = s.left;
      draws = s.draws;
      words = Some s.words.items;
      name = 0;
    } };

    fn read(&mut self, row: u64) -> Seen {
        let at = row as usize;
        let version = self.slots.version(at);
        if self.slots.is_allocated(at) {
            let content = *self.slots.content(at);
            Seen::Whole { version, content }
        } else {
            Seen::Free { word: 4 * version }
        }
    }

    fn load(&mut self, word: u64) -> (u64, u16) {
        let found = self.words[word as usize];
        (found.version, found.flags)
    }
}

impl Rows for PlainRows {
    #[inline(always)]
    fn add_try(&mut self, row: u64, amount: &Stat) -> Added {
        let at = row as usize;
        let version = self.slots.version(at) + 1;
        self.slots.merge(at, amount);
        self.left -= 1;
        Added::Counted { row, version }
    }

    fn ring_try(&mut self, row: u64, content: &Content) -> RingPut {
        let at = row as usize;
        if row >= LONG_HISTORY && self.slots.is_allocated(at) {
            let held = self.slots.content(at)[15];
            if held > content[15] {
                return RingPut::Late {
                    ticket: held - 1,
                    version: self.slots.version(at),
                };
            }
        }
        let version = self.slots.version(at) + 1;
        self.slots.publish(at, content);
        self.left -= 1;
        RingPut::Done { version }
    }

    fn ticket(&mut self, kind: u64) -> u64 {
        let at = kind as usize;
        let ticket = self.tickets[at];
        self.tickets[at] = ticket + 1;
        self.draws -= 1;
        ticket
    }
}

impl Hold for PlainRows {
    fn take(&mut self, row: u64) -> (u64, Content) {
        let at = row as usize;
        let version = self.slots.version(at);
        let content = *self.slots.content(at);
        self.slots.hold(at);
        self.left -= 1;
        (version, content)
    }

    fn put(&mut self, row: u64, content: &Content) -> u64 {
        let at = row as usize;
        let version = self.slots.version(at) + 1;
        self.slots.publish(at, content);
        version
    }

    fn free(&mut self, row: u64) {
        self.slots.release(row as usize);
    }

    fn set(&mut self, word: u64, flags: u16) -> u64 {
        let at = word as usize;
        let found = self.words[at];
        let version = found.version + 1;
        self.words[at] = Word { version, flags };
        version
    }
}

impl Acts for PlainRows {
    fn enter(&mut self, label: Label) -> u64 {
        // A plain store keeps no label: the list of its calls has it.
        let _ = label;
        let version = self.slots.version(0);
        self.slots.hold(0);
        self.left -= 1;
        version + 1
    }

    fn leave(&mut self) {
        let content = *self.slots.content(0);
        self.slots.publish(0, &content);
    }
}

impl PlainRows {
    /// The rows as they are at first, the words with these flags, everything at version 0, with 2^47 publications
    /// and as many tickets.
    pub fn new(alloc: Global, flags: &[u16]) -> Result<PlainRows, NoMemory>
        requires { length flags.now ≡ 160 }
        ensures opened { IfOk result (λ rows. (start : Opening) → start.flags ≡ flags.now
            → (⟦<PlainRows as Readable>⟧.seen rows).reached start []) }
        ensures left { IfOk result (λ rows. (⟦<PlainRows as Readable>⟧.seen rows).left ≡ 2 ^ 47) }
        ensures draws { IfOk result (λ rows. (⟦<PlainRows as Readable>⟧.seen rows).draws ≡ 2 ^ 47) }
        ensures hand { IfOk result (λ rows. (r : ℕ) → (⟦<PlainRows as Readable>⟧.seen rows).hand r ≡ None) }
        ensures words { IfOk result (λ rows. (⟦<PlainRows as Readable>⟧.seen rows).words ≡ Some (map (word 0) flags.now)) }
        ensures versions { IfOk result (λ rows. (at : ℕ) → known_version (⟦<PlainRows as Readable>⟧.seen rows).words at
            ≡ 0) }
    {
        let slots = Slots::opening(alloc)?;
        let words = opening_words(alloc, flags)?;
        Ok(PlainRows {
            slots,
            words,
            tickets: [0; 4],
            left: 1 << 47,
            draws: 1 << 47,
        })
    }
}

fn opening_words(alloc: Global, flags: &[u16]) -> Result<Vec<Word>, NoMemory>
    ensures { IfOk result (λ words. words.items ≡ map (word 0) flags.now) }
{
    let mut words = Vec::with_capacity(alloc, flags.len())?;
    for flag in flags {
        words.push(Word {
            version: 0,
            flags: *flag,
        })?;
    }
    Ok(words)
}
