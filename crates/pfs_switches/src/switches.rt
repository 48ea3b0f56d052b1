//! The setup words, their seats and their writer, and the calls.
ghost use Rattle.std.specs.Prelude.{◌≡◌, ℕ, ◌+◌, ◌<◌, ◌≤◌, [], List, length, slice_index, IfOk, MatchResult, vec_capacity};
ghost use Rattle.pfs_switches.specs.declared.view.View.{View};
ghost use Rattle.pfs_switches.specs.SharedKnowledge.{IsTold, IsClosed};
ghost use Rattle.pfs_switches.specs.Knowledge.{last_version, reader, writer, whole, loaded, was_set, split_left, split_right, joined, met};
ghost use Rattle.pfs_switches.specs.SeatViews.{Place, Known, place, known, first_view, IsSized, IsReady, IsWriting, HasWord};
ghost use Rattle.pfs_switches.specs.OpeningWords.{opening_words};

use crate::both::{load_by, meet_by};
use crate::rules::{Cut, Glue, Hand, Look, Part, Put, Rules, Weigh};
use crate::view::View;
use crate::words::{SPAN, hand_back, open_words};
use atomic_table::{Badge, Table};
use std::alloc::{AllocError, Global};
use std::marker::Model;
use std::mem;

/// There was no memory.
pub type NoMemory = AllocError;

/// The word is at its last version, 2^48 - 1.
#[derive(Clone, Copy, Debug, PartialEq, Eq)]
pub struct Spent;

const LAST_VERSION: u64 = 281474976710655;

/// The setup words. Contracts see which ones they are and their opening words.
#[derive(Drop)]
pub struct Switches {
    table: Table<(), View, Vec<u64>, Rules, Global>,
    // Room for the rows that `close` hands back.
    rows: Vec<(u64, u16)>,
}

impl Model for Switches {
    ghost Value = { Place };

    ghost view = { λ b. place b.table.shared.table_id b.table.shared.key.items };

    ghost invariant = { λ b. IsSized b.table.shared.table_id b.table.shared.key.items b.rows.items
        (vec_capacity b.rows) };
}

/// What one actor knows of the setup words. It has no bytes. Contracts see which words it is of, and the view.
#[derive(Drop)]
pub struct SwitchSeat {
    badge: Badge<View>,
}

impl Model for SwitchSeat {
    ghost Value = { Known };

    ghost view = { λ s. known s.badge.table_id (first_view s.badge.views) };

    ghost invariant = { λ s. IsReady s.badge.table_id s.badge.views };
}

/// The one that sets the words, and what it knows: all sets. It has no bytes. Contracts see which words it is of, and
/// the view.
#[derive(Drop)]
pub struct Writer {
    badge: Badge<View>,
}

impl Model for Writer {
    ghost Value = { Known };

    ghost view = { λ s. known s.badge.table_id (first_view s.badge.views) };

    ghost invariant = { λ s. IsWriting s.badge.table_id s.badge.views };
}

/// The version and the flags of each word as it was left, in order. Contracts see the list.
#[derive(Drop)]
pub struct FlagRows {
    rows: Vec<(u64, u16)>,
}

impl Model for FlagRows {
    ghost Value = { List (ℕ × ℕ) };

    ghost view = { λ r. r.rows.items };
}

impl FlagRows {
    /// Lends the rows.
    pub fn as_slice(&self) -> &[(u64, u16)]
        ensures { result.now ≡ self.now }
    {
        self.rows.as_slice()
    }
}

impl Switches {
    /// Words with these flags at version 0, the root seat, and the writer.
    pub fn open(alloc: Global, flags: &[u16]) -> Result<(Switches, SwitchSeat, Writer), NoMemory>
        ensures words { IfOk result (λ b. b.0.start ≡ opening_words flags.now) }
        ensures seat { IfOk result (λ b. b.1 ≡ known b.0.id (reader (whole b.0.start))) }
        ensures writer { IfOk result (λ b. b.2 ≡ known b.0.id (writer (whole b.0.start))) }
    {
        let words = open_words(alloc, flags)?;
        let rows = Vec::with_capacity(alloc, flags.len())?;
        let (table, mut seat) = Table::of_words(alloc, words.as_slice(), &words)?;
        let writer = table.shared.split_seat::<Part>(&mut seat);
        Ok((
            Switches { table, rows },
            SwitchSeat {
                badge: seat.into_badge(),
            },
            Writer {
                badge: writer.into_badge(),
            },
        ))
    }

    /// Ends the words: a seat and the writer are handed in, and the version and the flags of each word come back, in
    /// room that `open` made.
    pub fn close(self, seat: SwitchSeat, writer: Writer) -> FlagRows
        requires switches { (seat.switches ≡ self.id) × (writer.switches ≡ self.id) }
        ensures count { length result + 1 ≡ length self.start }
        ensures history { IsClosed self.start seat.view writer.view result }
    {
        let Switches { table, mut rows } = self;
        let SwitchSeat { badge } = seat;
        let Writer { badge: pen } = writer;
        let count = table.word_count() - 1;
        let mut sitting = badge.into_seat::<()>();
        table
            .shared
            .join_seat::<Hand>(&mut sitting, pen.into_seat::<()>());
        let closed = table.close_with(sitting);
        hand_back(&closed, &mut rows, count);
        closed.free();
        FlagRows { rows }
    }

    /// Loads a word: its version, never below what the seat saw, and its flags. One load; it waits for nobody.
    pub fn load(&self, seat: &mut SwitchSeat, word: u64) -> (u64, u16)
        requires switches { seat.old.switches ≡ self.now.id }
        requires word { HasWord self.now word }
        ensures switches { seat.new.switches ≡ seat.old.switches }
        ensures later { slice_index seat.old.view.seen word ≤ result.0 }
        ensures seen { (r : ℕ) → slice_index seat.old.view.seen r ≤ slice_index seat.new.view.seen r }
        ensures view { seat.new.view ≡ loaded seat.old.view word result.0 result.1 }
    {
        let badge = mem::replace(&mut seat.badge, Badge::blank());
        let mut sitting = badge.into_seat::<()>();
        let found = self.table.shared.load::<Look>(&mut sitting, word as usize);
        seat.badge = sitting.into_badge();
        (found / SPAN, (found % SPAN) as u16)
    }

    /// Sets the flags of a word, at the version one higher, which it answers. Refused as `Spent` exactly at the last
    /// version, and then nothing changes.
    pub fn set(&self, writer: &mut Writer, word: u64, flags: u16) -> Result<u64, Spent>
        requires switches { writer.old.switches ≡ self.now.id }
        requires word { HasWord self.now word }
        ensures switches { writer.new.switches ≡ writer.old.switches }
        ensures set { MatchResult result (λ k. (k ≡ slice_index writer.old.view.seen word + 1) × (k ≤ last_version)
            × (writer.new.view ≡ was_set writer.old.view word k flags))
            (λ _. (slice_index writer.old.view.seen word ≡ last_version) × (writer.new.view ≡ writer.old.view)) }
    {
        let badge = mem::replace(&mut writer.badge, Badge::blank());
        let mut sitting = badge.into_seat::<()>();
        let found = self.table.shared.load::<Weigh>(&mut sitting, word as usize);
        let version = found / SPAN;
        if version == LAST_VERSION {
            writer.badge = sitting.into_badge();
            return Err(Spent);
        }
        let next = (version + 1) * SPAN + u64::from(flags);
        self.table
            .shared
            .store::<Put>(&mut sitting, word as usize, next);
        writer.badge = sitting.into_badge();
        Ok(version + 1)
    }

    /// The seat meets the writer, and has then seen exactly each word's present version. It tells what holds of all
    /// that the two know, as `close` does at the end. It waits for nobody.
    pub fn meet(&self, seat: &mut SwitchSeat, writer: &mut Writer)
        requires switches { (seat.old.switches ≡ self.now.id) × (writer.old.switches ≡ self.now.id) }
        ensures seat { seat.new ≡ known seat.old.switches (met seat.old.view writer.old.view) }
        ensures seen { (r : ℕ) → HasWord self.now r
            → (slice_index seat.old.view.seen r ≤ slice_index seat.new.view.seen r)
            × (slice_index writer.old.view.seen r ≤ slice_index seat.new.view.seen r) }
        ensures exact { seat.new.view.seen ≡ writer.new.view.seen }
        ensures writer { writer.new ≡ writer.old }
        ensures told { IsTold seat.new.view.start seat.new.view writer.new.view }
    {
        let pen = mem::replace(&mut writer.badge, Badge::blank());
        let badge = mem::replace(&mut seat.badge, Badge::blank());
        let (sitting, writing) = meet_by(&self.table.shared, badge, pen);
        writer.badge = writing;
        seat.badge = sitting;
    }

    /// Sets the flags of a word, and then loads it: the seat meets the writer after the set, and the load gives that
    /// version and these flags, which it answers. Refused as `Spent` exactly at the last version, and then nothing
    /// changes. It waits for nobody.
    pub fn set_and_load(
        &self,
        seat: &mut SwitchSeat,
        writer: &mut Writer,
        word: u64,
        flags: u16,
    ) -> Result<(u64, u16), Spent>
        requires switches { (seat.old.switches ≡ self.now.id) × (writer.old.switches ≡ self.now.id) }
        requires word { HasWord self.now word }
        ensures switches { (seat.new.switches ≡ seat.old.switches) × (writer.new.switches ≡ writer.old.switches) }
        ensures set { MatchResult result (λ l. (l.0 ≡ slice_index writer.old.view.seen word + 1)
            × (l.0 ≤ last_version) × (l.1 ≡ flags) × (writer.new.view ≡ was_set writer.old.view word l.0 flags))
            (λ _. (slice_index writer.old.view.seen word ≡ last_version) × (writer.new.view ≡ writer.old.view)) }
        ensures seen { (r : ℕ) → HasWord self.now r
            → slice_index seat.old.view.seen r ≤ slice_index seat.new.view.seen r }
        ensures load { MatchResult result (λ l. seat.new.view
            ≡ loaded (met seat.old.view writer.new.view) word l.0 l.1) (λ _. seat.new.view ≡ seat.old.view) }
        ensures told { IfOk result (λ l. IsTold seat.new.view.start seat.new.view writer.new.view) }
    {
        self.set(writer, word, flags)?;
        let pen = mem::replace(&mut writer.badge, Badge::blank());
        let badge = mem::replace(&mut seat.badge, Badge::blank());
        let (found, sitting, writing) = load_by(&self.table.shared, badge, pen, word as usize);
        writer.badge = writing;
        seat.badge = sitting;
        Ok((found / SPAN, (found % SPAN) as u16))
    }

    /// A new seat that has seen what the root saw. Its number is how many the root has then made.
    pub fn split(&self, seat: &mut SwitchSeat) -> SwitchSeat
        requires switches { seat.old.switches ≡ self.now.id }
        requires root { seat.old.view.number ≡ 0 }
        ensures seat { seat.new ≡ known seat.old.switches (split_left seat.old.view) }
        ensures new { result ≡ known seat.old.switches (split_right seat.old.view) }
    {
        let badge = mem::replace(&mut seat.badge, Badge::blank());
        let mut sitting = badge.into_seat::<()>();
        let other = self.table.shared.split_seat::<Cut>(&mut sitting);
        seat.badge = sitting.into_badge();
        SwitchSeat {
            badge: other.into_badge(),
        }
    }

    /// Takes a seat in: its loads and meets with their makers' numbers, and the greater of each version seen.
    pub fn join(&self, seat: &mut SwitchSeat, other: SwitchSeat)
        requires switches { (seat.old.switches ≡ self.now.id) × (other.switches ≡ self.now.id) }
        requires root { seat.old.view.number ≡ 0 }
        ensures seat { seat.new ≡ known seat.old.switches (joined seat.old.view other.view) }
        ensures seen { (r : ℕ) → HasWord self.now r
            → (slice_index seat.old.view.seen r ≤ slice_index seat.new.view.seen r)
            × (slice_index other.view.seen r ≤ slice_index seat.new.view.seen r) }
    {
        let SwitchSeat { badge: other } = other;
        let badge = mem::replace(&mut seat.badge, Badge::blank());
        let mut sitting = badge.into_seat::<()>();
        self.table
            .shared
            .join_seat::<Glue>(&mut sitting, other.into_seat::<()>());
        seat.badge = sitting.into_badge();
    }
}
