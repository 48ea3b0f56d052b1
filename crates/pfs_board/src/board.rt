//! A board, its seats, and the calls.
ghost use Rattle.std.specs.Prelude.{◌≡◌, ℕ, ◌+◌, ◌*◌, ◌/◌, ◌%◌, ◌^◌, ◌<◌, ◌≤◌, ◌≢◌, ◌⊎◌, [], ◌∷◌, ◌++◌, List, length, slice_index, false, true, Some, IfOk, vec_capacity};
ghost use Rattle.atomic_table.specs.Table.{Me};
ghost use Rattle.pfs_board.specs.declared.answers.FinalRow.{FinalRow};
ghost use Rattle.pfs_board.specs.declared.view.View.{View};
ghost use Rattle.pfs_board.specs.ActionKnowledge.{HasBegun};
ghost use Rattle.pfs_board.specs.WholeSeats.{History};
ghost use Rattle.pfs_board.specs.Hands.{IsAside, IsHandTaken, IsLetGo};
ghost use Rattle.pfs_board.specs.History.{labels_of};
ghost use Rattle.pfs_board.specs.Knowledge.{corner, is_holding, held, version_held, found_in, published_at, freed_at, joined, root, stake, weighed, ended, lent_with, restored, IsWhole};
ghost use Rattle.pfs_board.specs.SeatViews.{Place, Known, IsPoised, HasSeenItsOwn, place, known, first_view, IsSized, IsReady, HasRow, split_off, given, final_words};
ghost use Rattle.pfs_board.specs.OpeningWords.{opening_words};
ghost use Rattle.pfs_board.specs.ReadAnswers.{IsSeenAs, IsNarrow, read_looks};
ghost use Rattle.pfs_board.specs.TakeAnswers.{IsTaken, IsFrom, take_looks};

use crate::actions::{enter_by, leave_by, lend_by, restore_by};
use crate::answers::{Content, FinalRow, Opening, Seen, Taken};
use crate::rules::{Cut, Glue, Kept, Rules, Tell};
use crate::steps::{free_by, put_by, read_by, seize, take_by};
use crate::view::{Label, View};
use crate::words::{Listed, Openings, hand_back, open_words};
use atomic_table::{Badge, Refused, Table};
use std::alloc::{AllocError, Global};
use std::marker::Model;
use std::mem;
use std::sync::Wait;

/// There was no memory.
pub type NoMemory = AllocError;

/// Rows that many seats read and change, and one kept value. Contracts see which board it is and its opening words.
#[derive(Drop)]
pub struct Board<V: Kept> {
    table: Table<Option<V>, View, Vec<u64>, Rules<V>, Global>,
    // Room for the rows that `close` hands back.
    rows: Vec<FinalRow>,
}

impl<V: Kept> Model for Board<V> {
    ghost Value = { Place };

    ghost view = { λ b. place b.table.shared.table_id b.table.shared.key.items };

    ghost invariant = { λ b. IsSized b.table.shared.table_id b.table.shared.key.items b.rows.items
        (vec_capacity b.rows) };
}

/// What one actor knows of a board. It has no bytes. Contracts see which board it is of, and the view.
#[derive(Drop)]
pub struct BoardSeat {
    badge: Badge<View>,
}

impl Model for BoardSeat {
    ghost Value = { Known };

    ghost view = { λ s. known s.badge.table_id (first_view s.badge.views) };

    ghost invariant = { λ s. IsReady s.badge.table_id s.badge.views };
}

impl BoardSeat {
    /// What holds of a seat between calls. Outside an action it doesn't hold row 0. Inside one it does, the value is
    /// out with it, the labels that it found are one fewer than the action's number, and each action before it has
    /// ended. It has seventeen words of the board for each row that its view has, and its last word of a row that it
    /// saw since its last split, join and beginning of an action is a lock word at no version below what it saw. It
    /// has seen each change of its own, and each of the seats that it took in.
    pub fn tell(&self)
        ensures poised { IsPoised self.now.view }
        ensures rows { 17 * length self.now.view.rows ≡ self.now.board.words }
        ensures words { (r n : ℕ) → (corner self.now.view r).last ≡ Some n → n % 4 < 3 }
        ensures tops { (r n : ℕ) → (corner self.now.view r).fresh ≡ true → (corner self.now.view r).last ≡ Some n
            → (corner self.now.view r).seen ≤ n / 4 }
        ensures own { HasSeenItsOwn self.now.view }
        ensures live { self.now.view.live ≡ true }
    {
        // Reads the badge, so that the clauses may speak of it.
        let _ = &self.badge;
    }
}

/// The rows as they were left, in their order. Contracts see the list.
#[derive(Drop)]
pub struct FinalRows {
    rows: Vec<FinalRow>,
}

impl Model for FinalRows {
    ghost Value = { List FinalRow };

    ghost view = { λ r. r.rows.items };
}

impl FinalRows {
    /// Lends the rows.
    pub fn as_slice(&self) -> &[FinalRow]
        ensures { result.now ≡ self.now }
    {
        self.rows.as_slice()
    }
}

impl<V: Kept> Board<V> {
    /// A board with these rows at version 0 and this value, and the root seat, which has the whole allowance. Row 0
    /// is allocated whatever its opening says.
    pub fn open(alloc: Global, rows: &[Opening], kept: V) -> Result<(Board<V>, BoardSeat), NoMemory>
        requires rows { 0 < length rows.now }
        requires kept { V.stands_for kept [] }
        ensures board { IfOk result (λ b. (b.0.start ≡ opening_words rows.now)
            × (length b.0.start ≡ 17 * length rows.now)) }
        ensures seat { IfOk result (λ b. b.1 ≡ known b.0.id (root b.0.start)) }
        ensures hands { IfOk result (λ b. held b.1.view.rows ≡ 0) }
    {
        Board::open_by(alloc, &Listed { rows }, kept)
    }

    /// A board with rows that are told one by one, as `open` makes it of a list.
    pub fn open_by<O: Openings>(
        alloc: Global,
        openings: &O,
        kept: V,
    ) -> Result<(Board<V>, BoardSeat), NoMemory>
        requires rows { 0 < length (O.rows openings.now) }
        requires kept { V.stands_for kept [] }
        ensures board { IfOk result (λ b. (b.0.start ≡ opening_words (O.rows openings.now))
            × (length b.0.start ≡ 17 * length (O.rows openings.now))) }
        ensures seat { IfOk result (λ b. b.1 ≡ known b.0.id (root b.0.start)) }
        ensures hands { IfOk result (λ b. held b.1.view.rows ≡ 0) }
    {
        let words = open_words(alloc, openings)?;
        let spare = Vec::with_capacity(alloc, openings.count() as usize)?;
        let mut slots = Vec::with_capacity(alloc, 1)?;
        slots.push_reserved(Some(kept));
        match Table::new(alloc, words.as_slice(), slots, &words) {
            Ok((table, seat)) => Ok((
                Board { table, rows: spare },
                BoardSeat {
                    badge: seat.into_badge(),
                },
            )),
            Err(Refused { slots: _ }) => Err(AllocError),
        }
    }

    /// Ends a board. The root hands its seat in once it has taken all others in, and gets the rows as they were left,
    /// in room that `open` made, and the kept value.
    pub fn close(self, seat: BoardSeat) -> (FinalRows, V)
        requires board { seat.board ≡ self.id }
        requires whole { IsWhole seat.view }
        requires outside { (is_holding (corner seat.view 0).stage ≡ false) × (seat.view.lent ≡ false) }
        ensures count { 17 * length result.0 ≡ length self.start }
        ensures history { (h : History self.start (final_words result.0) seat.view)
            × V.stands_for result.1 (labels_of h.t.log) }
    {
        let Board { table, mut rows } = self;
        let BoardSeat { badge } = seat;
        let count = table.word_count() / 17;
        let mut closed = table.close_with(badge.into_seat::<Option<V>>());
        hand_back(&closed, &mut rows, count);
        let Some(kept) = closed.take(0) else {
            unreachable!()
        };
        closed.free();
        (FinalRows { rows }, kept)
    }

    /// A read of the whole row, in at most eighteen loads. It waits for nobody. The lock word of a version that it shows has 64 bits.
    pub fn read(&self, seat: &mut BoardSeat, row: u64) -> Seen
        requires board { seat.old.board ≡ self.now.id }
        requires row { HasRow self.now row × (is_holding (corner seat.old.view row).stage ≡ false) }
        ensures board { seat.new.board ≡ seat.old.board }
        ensures answer { IsSeenAs seat.old.view row result seat.new.view }
        ensures looks { seat.new.view.looks ≡ seat.old.view.looks + read_looks result }
        ensures narrow { IsNarrow result }
        ensures hands { IsAside seat.old.view row seat.new.view }
    {
        let badge = mem::replace(&mut seat.badge, Badge::blank());
        let mut sitting = badge.into_seat::<Option<V>>();
        let seen = read_by(&self.table.shared, &mut sitting, row as usize);
        seat.badge = sitting.into_badge();
        seen
    }

    /// Takes a row, by one load and, unless it is dirty, one exchange; then the content found is loaded. It waits for
    /// nobody.
    pub fn take(&self, seat: &mut BoardSeat, row: u64) -> Taken
        requires board { seat.old.board ≡ self.now.id }
        requires row { (0 < row) × HasRow self.now row × (is_holding (corner seat.old.view row).stage ≡ false) }
        requires allowance { held seat.old.view.rows < seat.old.view.allowance }
        ensures board { seat.new.board ≡ seat.old.board }
        ensures answer { IsTaken seat.old.view row result seat.new.view }
        ensures hands { IsHandTaken seat.old.view row result seat.new.view }
        ensures looks { seat.new.view.looks ≡ seat.old.view.looks + take_looks result }
    {
        let badge = mem::replace(&mut seat.badge, Badge::blank());
        let mut sitting = badge.into_seat::<Option<V>>();
        let taken = take_by(&self.table.shared, &mut sitting, row as usize);
        seat.badge = sitting.into_badge();
        taken
    }

    /// Takes a row where its lock word is still the one that this seat saw or left there last, by one exchange; then
    /// the content found is loaded. It waits for nobody.
    pub fn take_at(&self, seat: &mut BoardSeat, row: u64, word: u64) -> Taken
        requires board { seat.old.board ≡ self.now.id }
        requires row { (0 < row) × HasRow self.now row × (is_holding (corner seat.old.view row).stage ≡ false) }
        requires allowance { held seat.old.view.rows < seat.old.view.allowance }
        requires word { (word % 4 ≢ 1) × ((corner seat.old.view row).fresh ≡ true)
            × ((corner seat.old.view row).last ≡ Some word) }
        ensures board { seat.new.board ≡ seat.old.board }
        ensures answer { IsTaken seat.old.view row result seat.new.view }
        ensures hands { IsHandTaken seat.old.view row result seat.new.view }
        ensures from { IsFrom result word }
        ensures looks { seat.new.view.looks ≡ seat.old.view.looks + 1 }
    {
        let badge = mem::replace(&mut seat.badge, Badge::blank());
        let mut sitting = badge.into_seat::<Option<V>>();
        let taken = seize(&self.table.shared, &mut sitting, row as usize, word);
        seat.badge = sitting.into_badge();
        taken
    }

    /// Publishes a row in hand with this content, at the version one higher, which it answers.
    pub fn put(&self, seat: &mut BoardSeat, row: u64, content: &Content) -> u64
        requires board { seat.old.board ≡ self.now.id }
        requires row { (0 < row) × HasRow self.now row × (is_holding (corner seat.old.view row).stage ≡ true) }
        ensures board { seat.new.board ≡ seat.old.board }
        ensures version { result ≡ version_held (corner seat.old.view row).stage + 1 }
        ensures later { (corner seat.old.view row).seen < result }
        ensures view { seat.new.view
            ≡ published_at (weighed seat.old.view) row (version_held (corner seat.old.view row).stage)
            (found_in (corner seat.old.view row).stage) content.now }
        ensures hands { IsLetGo seat.old.view row seat.new.view }
    {
        let badge = mem::replace(&mut seat.badge, Badge::blank());
        let mut sitting = badge.into_seat::<Option<V>>();
        let version = put_by(&self.table.shared, &mut sitting, row as usize, content);
        seat.badge = sitting.into_badge();
        version
    }

    /// Releases a row in hand to free, at the same version. What was found stays its content.
    pub fn free(&self, seat: &mut BoardSeat, row: u64)
        requires board { seat.old.board ≡ self.now.id }
        requires row { (0 < row) × HasRow self.now row × (is_holding (corner seat.old.view row).stage ≡ true) }
        ensures board { seat.new.board ≡ seat.old.board }
        ensures later { (corner seat.old.view row).seen ≤ version_held (corner seat.old.view row).stage }
        ensures view { seat.new.view
            ≡ freed_at (weighed seat.old.view) row (version_held (corner seat.old.view row).stage)
            (found_in (corner seat.old.view row).stage) }
        ensures hands { IsLetGo seat.old.view row seat.new.view }
    {
        let badge = mem::replace(&mut seat.badge, Badge::blank());
        let mut sitting = badge.into_seat::<Option<V>>();
        free_by(&self.table.shared, &mut sitting, row as usize);
        seat.badge = sitting.into_badge();
    }

    /// Begins an action: tries until it has row 0, and hands out the kept value. It answers the action's number,
    /// which is the number of labels plus one, and the value, which stands for the labels of all actions before it.
    /// The seat keeps these labels with the number, and each change that it makes inside carries the number. It waits
    /// while another seat is in an action, and no clause says that it returns.
    pub fn enter<R: Wait>(&self, rt: &R, seat: &mut BoardSeat, label: Label) -> (u64, V)
        requires board { seat.old.board ≡ self.now.id }
        requires outside { (seat.old.view.action ≡ 0) × (seat.old.view.lent ≡ false) }
        requires allowance { held seat.old.view.rows < seat.old.view.allowance }
        ensures board { seat.new.board ≡ seat.old.board }
        ensures number { (result.0 ≡ length seat.new.view.labels + 1) × (result.0 ≤ 2 ^ 47) }
        ensures value { V.stands_for result.1 seat.new.view.labels }
        ensures begun { HasBegun seat.old.view label seat.new.view }
        ensures hands { (is_holding (corner seat.new.view 0).stage ≡ true)
            × (held seat.new.view.rows ≡ held seat.old.view.rows + 1) × (stake seat.new.view ≡ stake seat.old.view) }
    {
        let badge = mem::replace(&mut seat.badge, Badge::blank());
        let mut sitting = badge.into_seat::<Option<V>>();
        let begun = enter_by(rt, &self.table.shared, &mut sitting, label);
        seat.badge = sitting.into_badge();
        begun
    }

    /// Ends the seat's action: takes the value back, which now stands for the action's label too, and publishes row 0
    /// with that label and the content that `enter` found, at the action's number, which is above each version of row
    /// 0 that the seat saw. It waits for nobody.
    pub fn leave(&self, seat: &mut BoardSeat, value: V)
        requires board { seat.old.board ≡ self.now.id }
        requires inside { 0 < seat.old.view.action }
        requires hands { held seat.old.view.rows ≡ 1 }
        requires value { V.stands_for value (seat.old.view.labels ++ seat.old.view.label ∷ []) }
        ensures board { seat.new.board ≡ seat.old.board }
        ensures view { seat.new.view ≡ ended (weighed seat.old.view) }
        ensures later { (corner seat.old.view 0).seen < seat.old.view.action }
        ensures hands { IsLetGo seat.old.view 0 seat.new.view }
    {
        let badge = mem::replace(&mut seat.badge, Badge::blank());
        let mut sitting = badge.into_seat::<Option<V>>();
        leave_by(&self.table.shared, &mut sitting, value);
        seat.badge = sitting.into_badge();
    }

    /// Hands out the kept value to the root while no other seat is out. It stands for the labels of row 0's
    /// publications, in their order, which the seat keeps until `restore`. It tells the whole history of the board,
    /// as `close` does, and the words as they are. No row changes. Until `restore` the seat splits off no other,
    /// begins no action, and ends no board. It waits for nobody.
    pub fn lend(&self, seat: &mut BoardSeat) -> V
        requires board { seat.old.board ≡ self.now.id }
        requires whole { IsWhole seat.old.view }
        requires outside { (seat.old.view.action ≡ 0) × (seat.old.view.lent ≡ false) }
        ensures board { seat.new.board ≡ seat.old.board }
        ensures value { V.stands_for result seat.new.view.labels }
        ensures history { (words : List ℕ) × (h : History seat.old.view.start words seat.old.view)
            × (seat.new.view.labels ≡ labels_of h.t.log) }
        ensures view { (seat.new.view ≡ lent_with seat.old.view seat.new.view.labels)
            × (restored seat.new.view ≡ seat.old.view) }
    {
        let badge = mem::replace(&mut seat.badge, Badge::blank());
        let mut sitting = badge.into_seat::<Option<V>>();
        let value = lend_by(&self.table.shared, &mut sitting);
        seat.badge = sitting.into_badge();
        value
    }

    /// Takes back the value that was lent, or another that stands for the same labels. No row changes. It waits for
    /// nobody.
    pub fn restore(&self, seat: &mut BoardSeat, value: V)
        requires board { seat.old.board ≡ self.now.id }
        requires lent { (seat.old.view.action ≡ 0) × (seat.old.view.lent ≡ true) }
        requires value { V.stands_for value seat.old.view.labels }
        ensures board { seat.new.board ≡ seat.old.board }
        ensures view { seat.new.view ≡ restored seat.old.view }
    {
        let badge = mem::replace(&mut seat.badge, Badge::blank());
        let mut sitting = badge.into_seat::<Option<V>>();
        restore_by(&self.table.shared, &mut sitting, value);
        seat.badge = sitting.into_badge();
    }

    /// A new seat that has seen what the root saw, with this part of its allowance. Its number is how many the root
    /// has then made. The root may be in an action, but may not have lent the value.
    pub fn split(&self, seat: &mut BoardSeat, allowance: u64) -> BoardSeat
        requires board { seat.old.board ≡ self.now.id }
        requires root { seat.old.view.number ≡ 0 }
        requires home { (seat.old.view.lent ≡ false) ⊎ (0 < seat.old.view.action) }
        requires allowance { (0 < allowance) × (held seat.old.view.rows + allowance < seat.old.view.allowance) }
        ensures seat { seat.new ≡ known seat.old.board (split_off seat.old.view allowance) }
        ensures new { result ≡ known seat.old.board (given seat.old.view allowance) }
        ensures hands { (held seat.new.view.rows ≡ held seat.old.view.rows) × (held result.view.rows ≡ 0) }
        ensures stake { (stake seat.new.view + allowance ≡ stake seat.old.view) × (stake result.view ≡ allowance) }
    {
        let badge = mem::replace(&mut seat.badge, Badge::blank());
        let mut sitting = badge.into_seat::<Option<V>>();
        let shared = &self.table.shared;
        // The step tells the rule how much is cut off, and leaves the word as it is.
        shared.compare_exchange::<Tell>(&mut sitting, 0, allowance, allowance);
        let other = shared.split_seat::<Cut>(&mut sitting);
        seat.badge = sitting.into_badge();
        BoardSeat {
            badge: other.into_badge(),
        }
    }

    /// Takes a seat in: its changes, reads, sights and what its actions found, with their makers' numbers, its
    /// allowance, and the greater of each version seen.
    pub fn join(&self, seat: &mut BoardSeat, other: BoardSeat)
        requires board { (seat.old.board ≡ self.now.id) × (other.board ≡ self.now.id) }
        requires root { seat.old.view.number ≡ 0 }
        requires empty { held other.view.rows ≡ 0 }
        ensures seat { seat.new ≡ known seat.old.board (joined seat.old.view other.view) }
        ensures hands { held seat.new.view.rows ≡ held seat.old.view.rows }
        ensures stake { stake seat.new.view ≡ stake seat.old.view + stake other.view }
    {
        let BoardSeat { badge: other } = other;
        let badge = mem::replace(&mut seat.badge, Badge::blank());
        let mut sitting = badge.into_seat::<Option<V>>();
        let shared = &self.table.shared;
        shared.join_seat::<Glue>(&mut sitting, other.into_seat::<Option<V>>());
        seat.badge = sitting.into_badge();
    }
}
