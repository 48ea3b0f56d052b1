//! Rows as the words of the table, and back.
ghost use Rattle.std.specs.Prelude.{◌≡◌, ℕ, List, ◌+◌, ◌*◌, ◌<◌, ◌≤◌, ◌++◌, ◌∷◌, [], length, take, drop, slice_range, vec_capacity, OnOk, IfOk};
ghost use Rattle.std.specs.Slots.{slots_items, slots_len, IsFull};
ghost use Rattle.pfs_board.specs.SeatViews.{final_words};
ghost use Rattle.pfs_board.specs.declared.answers.Opening.{Opening};
ghost use Rattle.pfs_board.specs.OpeningWords.{IsOpening, opening_words, row_of};

use crate::answers::{Content, FinalRow, Opening};
use atomic_table::Closed;
use std::alloc::{AllocError, Global};

fn push_row(words: &mut Vec<u64>, lock: u64, content: &Content) -> Result<(), AllocError>
    ensures words { OnOk result (words.new.items ≡ words.old.items ++ lock ∷ content.now) }
    ensures told { OnOk result (length content.now ≡ 16) }
{
    words.push(lock)?;
    words.extend_from_slice(content)?;
    Ok(())
}

/// The rows that a board opens with, told one by one: nobody need hold them all.
pub trait Openings {
    ghost rows: { Self → List Opening };

    /// How many they are.
    fn count(&self) -> u64
        ensures { result ≡ length (rows self.now) };

    /// The row at a place.
    fn row(&self, at: u64) -> Opening
        requires { at < length (rows self.now) }
        ensures { result ≡ row_of (rows self.now) at };
}

/// Rows that stand in a list.
#[derive(Drop)]
pub(crate) struct Listed<'a> {
    pub rows: &'a [Opening],
}

impl Openings for Listed<'_> {
    ghost rows = { λ l. l.rows.now };

    fn count(&self) -> u64 {
        self.rows.len() as u64
    }

    fn row(&self, at: u64) -> Opening {
        self.rows[at as usize]
    }
}

/// Row 0 is allocated.
pub(crate) fn open_words<O: Openings>(alloc: Global, openings: &O) -> Result<Vec<u64>, AllocError>
    requires { 0 < length (O.rows openings.now) }
    ensures words { IfOk result (λ w. w.items ≡ opening_words (O.rows openings.now)) }
    ensures form { IfOk result (λ w. IsOpening w.items (length (O.rows openings.now))) }
{
    let count = openings.count();
    let mut words = Vec::with_capacity(alloc, (count as usize).saturating_mul(17))?;
    push_row(&mut words, 2, &openings.row(0).content)?;
    for at in 1..count {
        let row = openings.row(at);
        let lock = if row.allocated { 2 } else { 0 };
        push_row(&mut words, lock, &row.content)?;
    }
    Ok(words)
}

// The row at a place of the closed table.
fn final_row<S>(closed: &Closed<S, Global>, row: usize) -> FinalRow
    requires { (17 * row + 17 ≤ slots_len closed.now.words) × IsFull closed.now.words
        × (slots_len closed.now.words ≡ length (slots_items closed.now.words)) }
    ensures { slice_range (slots_items closed.now.words) (17 * row) (17 * row + 17) ≡ result.word ∷ result.content }
{
    let mut content = [0u64; 16];
    for i in 0..16 {
        content[i] = closed.word(17 * row + i + 1);
    }
    FinalRow {
        word: closed.word(17 * row),
        content,
    }
}

/// The rows of the closed table.
pub(crate) fn hand_back<S>(closed: &Closed<S, Global>, rows: &mut Vec<FinalRow>, count: usize)
    requires words { (17 * count ≡ slots_len closed.now.words) × IsFull closed.now.words
        × (slots_len closed.now.words ≡ length (slots_items closed.now.words)) }
    requires room { (rows.old.items ≡ []) × (count ≤ vec_capacity rows.old) }
    ensures words { final_words rows.new.items ≡ slots_items closed.now.words }
    ensures count { length rows.new.items ≡ count }
{
    for row in 0..count {
        rows.push_reserved(final_row(closed, row));
    }
}
