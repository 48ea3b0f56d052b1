//! Flags as the words of the table, and back. A word has its version above sixteen bits of flags.
ghost use Rattle.std.specs.Prelude.{◌≡◌, ℕ, ◌+◌, ◌*◌, ◌<◌, ◌≤◌, [], length, take, map, vec_capacity, slice_index, IfOk};
ghost use Rattle.std.specs.Slots.{slots_items, slots_len, IsFull};
ghost use Rattle.pfs_switches.specs.OpeningWords.{opening_words, IsOpening, parts};

use atomic_table::Closed;
use std::alloc::{AllocError, Global};

/// The number above the flags.
pub(crate) const SPAN: u64 = 65536;

/// The flags at version 0, and a word behind them that no call names, so that there always is one.
pub(crate) fn open_words(alloc: Global, flags: &[u16]) -> Result<Vec<u64>, AllocError>
    ensures words { IfOk result (λ w. w.items ≡ opening_words flags.now) }
    ensures form { IfOk result (λ w. IsOpening w.items) }
{
    let mut words = Vec::new(alloc);
    for flag in flags {
        words.push(u64::from(*flag))?;
    }
    words.push(0)?;
    Ok(words)
}

/// The version and the flags of each word but the last.
pub(crate) fn hand_back<S>(closed: &Closed<S, Global>, rows: &mut Vec<(u64, u16)>, count: usize)
    requires words { (count ≤ slots_len closed.now.words) × IsFull closed.now.words
        × (slots_len closed.now.words ≡ length (slots_items closed.now.words)) }
    requires room { (rows.old.items ≡ []) × (count ≤ vec_capacity rows.old) }
    ensures rows { rows.new.items ≡ map parts (take count (slots_items closed.now.words)) }
{
    for i in 0..count {
        let word = closed.word(i);
        rows.push_reserved((word / SPAN, (word % SPAN) as u16));
    }
}
