//! The rows of a plain store. A row's content takes memory once it is first published.

ghost use Rattle.std.specs.Prelude.{◌≡◌, ◌<◌, ◌≤◌, ◌+◌, ◌^◌, ◌++◌, ◌∷◌, [], ℕ, IfOk, false, true, length, vec_len, vec_capacity, slice_set, if◌then◌else◌};
ghost use Rattle.pfs_levels.specs.declared.slots.Home.TheVariants.{ZeroStat, Zeros, At};
ghost use Rattle.pfs_levels.specs.RowWords.{merged};
ghost use Rattle.pfs_levels.specs.RowHeads.{IsOwn, slot_of, words_at, to_place, contents_with, place_with};
ghost use Rattle.pfs_levels.specs.PlainStore.{Merges, Becomes, Holds, Releases, slot_by, slot_at, opening_slot};

use crate::NoMemory;
use pfs_rows::{RINGS, THREAD_CELLS};
use pfs_stat::Stat;
use std::alloc::Global;
use std::marker::Model;

/// How many rows a store has.
const ROWS: usize = pfs_rows::ROWS as usize;

/// The words of a cell that has counted nothing.
static ZERO_STAT: [u64; 16] = [0, 0, u64::MAX, 0, 0, 0, 0, 0, 0, 0, 0, 0, 0, 0, 0, 0];

static ZEROS: [u64; 16] = [0; 16];

/// Where the content of a row is.
#[derive(Clone, Copy)]
pub enum Home {
    /// Nowhere: it is that of a cell that has counted nothing.
    ZeroStat,
    /// Nowhere: it is sixteen zeros.
    Zeros,
    /// At this place of the contents.
    At(u32),
}

/// A row without its content.
#[derive(Clone, Copy)]
pub struct Head {
    version: u64,
    taken: bool,
    allocated: bool,
    home: Home,
}

/// A content that was published, and its row.
#[derive(Clone, Copy)]
pub struct Kept {
    row: usize,
    words: [u64; 16],
}

/// The rows of a plain store. No call but the first takes memory.
#[derive(Drop)]
pub struct Slots {
    heads: Vec<Head>,
    // With room for a content of each row from the start, though a page of it is used only with the contents in it.
    contents: Vec<Kept>,
}

impl Model for Slots {
    ghost use Rattle.std.specs.Prelude.{List, map, vec_capacity};
    ghost use Rattle.pfs_levels.specs.declared.plain.Slot.{Slot};
    ghost use Rattle.pfs_levels.specs.RowHeads.{AreKept, slot_of};

    ghost Value = { List Slot };

    ghost view = { λ s. map (slot_of s.contents.items) s.heads.items };

    ghost invariant = { λ s. AreKept s.heads.items s.contents.items (vec_capacity s.contents) };
}

impl Slots {
    /// The rows as they are at first.
    pub fn opening(alloc: Global) -> Result<Slots, NoMemory>
        ensures wide { IfOk result (λ slots. length slots ≡ 14242) }
        ensures each { IfOk result (λ slots. (row : ℕ) → row < 14242 → slot_at slots row ≡ opening_slot row) }
    {
        let mut heads = Vec::with_capacity(alloc, ROWS)?;
        for row in 0..ROWS {
            heads.push(opening_head(row as u64))?;
        }
        let contents = Vec::with_capacity(alloc, ROWS)?;
        Ok(Slots { heads, contents })
    }

    /// How often a row was published.
    #[inline(always)]
    pub fn version(&self, at: usize) -> u64
        requires { at < 14242 }
        ensures { result ≡ (slot_at self.now at).version }
    {
        let head = self.heads[at];
        head.version
    }

    /// Whether a row is allocated or free.
    #[inline(always)]
    pub fn is_allocated(&self, at: usize) -> bool
        requires { at < 14242 }
        ensures { result ≡ (slot_at self.now at).allocated }
    {
        let head = self.heads[at];
        head.allocated
    }

    /// The content of a row.
    #[inline(always)]
    pub fn content(&self, at: usize) -> &[u64; 16]
        requires { at < 14242 }
        ensures { result.now ≡ (slot_at self.now at).content }
    {
        let head = self.heads[at];
        words_in(self.contents.as_slice(), at, head.home)
    }

    /// Publishes a content in a row, which is allocated and in nobody's hand from then on.
    #[inline(always)]
    pub fn publish(&mut self, at: usize, content: &[u64; 16])
        requires known { at < 14242 }
        requires early { (slot_at self.old at).version + 1 < 2 ^ 64 }
        ensures { self.new ≡ slice_set self.old at (slot_by (Becomes content.now) (slot_at self.old at)) }
    {
        let head = self.heads[at];
        let place = keep(&mut self.contents, head.home, at, content);
        self.heads[at] = published(head, place);
    }

    /// Merges an amount into the numbers of a row, and publishes them. It does so in place, so that a row that was
    /// published before is not copied.
    #[inline(always)]
    pub fn merge(&mut self, at: usize, amount: &Stat)
        requires known { at < 14242 }
        requires early { (slot_at self.old at).version + 1 < 2 ^ 64 }
        ensures { self.new ≡ slice_set self.old at (slot_by (Merges amount.now) (slot_at self.old at)) }
    {
        let head = self.heads[at];
        let place = merge_kept(&mut self.contents, head.home, at, amount);
        self.heads[at] = published(head, place);
    }

    /// Marks a row as in hand.
    #[inline(always)]
    pub fn hold(&mut self, at: usize)
        requires { at < 14242 }
        ensures { self.new ≡ slice_set self.old at (slot_by Holds (slot_at self.old at)) }
    {
        let head = self.heads[at];
        self.heads[at] = Head {
            version: head.version,
            taken: true,
            allocated: head.allocated,
            home: head.home,
        };
    }

    /// Marks a row as free, and in nobody's hand.
    #[inline(always)]
    pub fn release(&mut self, at: usize)
        requires { at < 14242 }
        ensures { self.new ≡ slice_set self.old at (slot_by Releases (slot_at self.old at)) }
    {
        let head = self.heads[at];
        self.heads[at] = Head {
            version: head.version,
            taken: false,
            allocated: false,
            home: head.home,
        };
    }
}

// A row at first: row 0, cells and digest rows are allocated.
fn opening_head(row: u64) -> Head
    ensures row { slot_of [] result ≡ opening_slot row }
    ensures nowhere { to_place result.home ≡ 1 }
{
    let cell = THREAD_CELLS <= row && row < RINGS;
    let home = opening_home(cell);
    Head {
        version: 0,
        taken: false,
        allocated: row == 0 || cell,
        home,
    }
}

fn opening_home(cell: bool) -> Home
    ensures { result ≡ (if cell then ZeroStat else Zeros) }
{
    if cell { Home::ZeroStat } else { Home::Zeros }
}

// The head of a row once its content is published at this place.
#[inline(always)]
fn published(head: Head, place: u32) -> Head
    requires { head.version + 1 < 2 ^ 64 }
    ensures { result ≡ record { version = head.version + 1; taken = false; allocated = true; home = At place } }
{
    Head {
        version: head.version + 1,
        taken: false,
        allocated: true,
        home: Home::At(place),
    }
}

// The content of a row that has this home.
#[inline(always)]
fn words_in(contents: &[Kept], row: usize, home: Home) -> &[u64; 16]
    requires { IsOwn contents.now row home }
    ensures { result.now ≡ words_at contents.now home }
{
    match home {
        Home::ZeroStat => &ZERO_STAT,
        Home::Zeros => &ZEROS,
        Home::At(place) => &contents[place as usize].words,
    }
}

// Keeps the content of a row at its place, or at a new one where it has none.
#[inline(always)]
fn keep(contents: &mut Vec<Kept>, home: Home, row: usize, words: &[u64; 16]) -> u32
    requires own { IsOwn contents.old.items row home }
    requires few { vec_len contents.old + to_place home ≤ 14242 }
    requires room { 14242 ≤ vec_capacity contents.old }
    ensures items { contents.new.items
        ≡ contents_with contents.old.items home (record { row = row; words = words.now }) }
    ensures place { result ≡ place_with contents.old.items home }
    ensures capacity { vec_capacity contents.new ≡ vec_capacity contents.old }
{
    match home {
        Home::At(place) => {
            contents[place as usize] = Kept { row, words: *words };
            place
        }
        Home::ZeroStat | Home::Zeros => keep_first(contents, row, words),
    }
}

// Keeps the numbers of a row with an amount merged into them.
#[inline(always)]
fn merge_kept(contents: &mut Vec<Kept>, home: Home, row: usize, amount: &Stat) -> u32
    requires own { IsOwn contents.old.items row home }
    requires few { vec_len contents.old + to_place home ≤ 14242 }
    requires room { 14242 ≤ vec_capacity contents.old }
    ensures items { contents.new.items ≡ contents_with contents.old.items home (record {
      row = row;
      words = merged (words_at contents.old.items home) amount.now;
    }) }
    ensures place { result ≡ place_with contents.old.items home }
    ensures capacity { vec_capacity contents.new ≡ vec_capacity contents.old }
{
    match home {
        Home::At(place) => {
            let at = place as usize;
            let words = with_amount(&contents[at].words, amount);
            contents[at] = Kept { row, words };
            place
        }
        Home::ZeroStat => keep_first(contents, row, &with_amount(&ZERO_STAT, amount)),
        Home::Zeros => keep_first(contents, row, &with_amount(&ZEROS, amount)),
    }
}

#[inline(always)]
fn with_amount(words: &[u64; 16], amount: &Stat) -> [u64; 16]
    ensures { result ≡ merged words.now amount.now }
{
    Stat::of_words(words).merge(*amount).to_words()
}

// Keeps the first content of a row at a new place.
#[inline(never)]
fn keep_first(contents: &mut Vec<Kept>, row: usize, words: &[u64; 16]) -> u32
    requires few { vec_len contents.old < 14242 }
    requires room { 14242 ≤ vec_capacity contents.old }
    ensures items { contents.new.items ≡ contents.old.items ++ record { row = row; words = words.now } ∷ [] }
    ensures place { result ≡ length contents.old.items }
    ensures capacity { vec_capacity contents.new ≡ vec_capacity contents.old }
{
    let place = contents.len() as u32;
    contents.push_reserved(Kept { row, words: *words });
    place
}
