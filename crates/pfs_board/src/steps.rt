//! The calls on one row, by the steps of the table. The seat is one of the table's, and a row is its place.
ghost use Rattle.std.specs.Prelude.{◌≡◌, ◌≢◌, ℕ, ◌+◌, ◌*◌, ◌/◌, ◌%◌, ◌<◌, ◌≤◌, Some, true, false, [], length};
ghost use Rattle.pfs_board.specs.declared.view.Stage.TheVariants.{Reading, Holding};
ghost use Rattle.pfs_board.specs.Knowledge.{corner, is_holding, held, version_held, found_in, published_at, freed_at, weighed};
ghost use Rattle.pfs_board.specs.ReadAnswers.{IsSeenAs, IsNarrow, read_looks};
ghost use Rattle.pfs_board.specs.SeatDemands.{IsAt, IsHeld};
ghost use Rattle.pfs_board.specs.TakeAnswers.{IsTaken, IsFrom, take_looks};

use crate::answers::{Content, Seen, Taken};
use crate::rules::{
    Finish, Gather, Kept, Look, Publish, Recall, Release, Rules, Seize, Store, Try, Weigh,
};
use crate::view::View;
use atomic_table::{Seat, Shared};
use pfs_word::{LockWord, State};

pub(crate) type Top<V> = Shared<Option<V>, View, Vec<u64>, Rules<V>>;

pub(crate) type Sitting<V> = Seat<Option<V>, View>;

// The content of a row in hand, before anything is stored.
fn recall<V: Kept>(top: &Top<V>, seat: &mut Sitting<V>, row: usize) -> Content
    requires at { IsAt seat.old.table_id top.now.table_id top.now.key.items seat.old.me.0 row }
    requires holds { IsHeld seat.old.me.0 row }
    requires wide { length (found_in (corner seat.old.me.0 row).stage) ≡ 16 }
    ensures seat { (seat.new.table_id ≡ seat.old.table_id) × (seat.new.me ≡ seat.old.me) }
    ensures content { result ≡ found_in (corner seat.old.me.0 row).stage }
{
    let mut content = [0u64; 16];
    for i in 0..16 {
        content[i] = top.load::<Recall>(seat, 17 * row + i + 1);
    }
    content
}

// A take from a word that the seat knows to have stood there last.
pub(crate) fn seize<V: Kept>(top: &Top<V>, seat: &mut Sitting<V>, row: usize, word: u64) -> Taken
    requires at { IsAt seat.old.table_id top.now.table_id top.now.key.items seat.old.me.0 row }
    requires row { (0 < row) × (is_holding (corner seat.old.me.0 row).stage ≡ false)
        × (held seat.old.me.0.rows < seat.old.me.0.allowance) }
    requires word { (word % 4 < 3) × (word % 4 ≢ 1) × ((corner seat.old.me.0 row).fresh ≡ true)
        × ((corner seat.old.me.0 row).last ≡ Some word) × ((corner seat.old.me.0 row).seen ≤ word / 4) }
    ensures seat { (seat.new.table_id ≡ seat.old.table_id) × (seat.new.me.1 ≡ seat.old.me.1) }
    ensures answer { IsTaken seat.old.me.0 row result seat.new.me.0 }
    ensures from { IsFrom result word }
    ensures looks { seat.new.me.0.looks ≡ seat.old.me.0.looks + 1 }
{
    let dirty = LockWord::new(word).to_dirty().word();
    let found = top.compare_exchange::<Seize>(seat, 17 * row, word, dirty);
    if found == word {
        let content = recall(top, seat, row);
        Taken::Mine { word, content }
    } else {
        Taken::Busy {
            first: word,
            second: found,
        }
    }
}

pub(crate) fn take_by<V: Kept>(top: &Top<V>, seat: &mut Sitting<V>, row: usize) -> Taken
    requires at { IsAt seat.old.table_id top.now.table_id top.now.key.items seat.old.me.0 row }
    requires row { (0 < row) × (is_holding (corner seat.old.me.0 row).stage ≡ false)
        × (held seat.old.me.0.rows < seat.old.me.0.allowance) }
    ensures seat { (seat.new.table_id ≡ seat.old.table_id) × (seat.new.me.1 ≡ seat.old.me.1) }
    ensures answer { IsTaken seat.old.me.0 row result seat.new.me.0 }
    ensures looks { seat.new.me.0.looks ≡ seat.old.me.0.looks + take_looks result }
{
    let word = top.load::<Try>(seat, 17 * row);
    if let State::Dirty = LockWord::new(word).state() {
        Taken::Busy {
            first: word,
            second: word,
        }
    } else {
        seize(top, seat, row, word)
    }
}

// The rest of a read whose first load found the row allocated.
fn read_rest<V: Kept>(top: &Top<V>, seat: &mut Sitting<V>, row: usize, first: u64) -> Seen
    requires at { IsAt seat.old.table_id top.now.table_id top.now.key.items seat.old.me.0 row }
    requires word { (first % 4 ≡ 2) × ((corner seat.old.me.0 row).seen ≤ first / 4)
        × ((corner seat.old.me.0 row).fresh ≡ true) × ((corner seat.old.me.0 row).last ≡ Some first) }
    requires begun { (corner seat.old.me.0 row).stage ≡ Reading (first / 4) [] }
    ensures seat { (seat.new.table_id ≡ seat.old.table_id) × (seat.new.me.1 ≡ seat.old.me.1) }
    ensures answer { IsSeenAs seat.old.me.0 row result seat.new.me.0 }
    ensures looks { (seat.new.me.0.looks ≡ seat.old.me.0.looks + 1) × (read_looks result ≡ 2) }
    ensures narrow { IsNarrow result }
{
    let mut content = [0u64; 16];
    for i in 0..16 {
        content[i] = top.load::<Gather>(seat, 17 * row + i + 1);
    }
    let second = top.load::<Finish>(seat, 17 * row);
    if second == first {
        Seen::Whole {
            version: LockWord::new(first).version(),
            content,
        }
    } else {
        Seen::Busy { first, second }
    }
}

pub(crate) fn read_by<V: Kept>(top: &Top<V>, seat: &mut Sitting<V>, row: usize) -> Seen
    requires at { IsAt seat.old.table_id top.now.table_id top.now.key.items seat.old.me.0 row }
    requires row { is_holding (corner seat.old.me.0 row).stage ≡ false }
    ensures seat { (seat.new.table_id ≡ seat.old.table_id) × (seat.new.me.1 ≡ seat.old.me.1) }
    ensures answer { IsSeenAs seat.old.me.0 row result seat.new.me.0 }
    ensures looks { seat.new.me.0.looks ≡ seat.old.me.0.looks + read_looks result }
    ensures narrow { IsNarrow result }
{
    let first = top.load::<Look>(seat, 17 * row);
    match LockWord::new(first).state() {
        State::Free => Seen::Free { word: first },
        State::Dirty => Seen::Busy {
            first,
            second: first,
        },
        State::Allocated => read_rest(top, seat, row, first),
    }
}

pub(crate) fn put_by<V: Kept>(
    top: &Top<V>,
    seat: &mut Sitting<V>,
    row: usize,
    content: &Content,
) -> u64
    requires at { IsAt seat.old.table_id top.now.table_id top.now.key.items seat.old.me.0 row }
    requires row { (0 < row) × IsHeld seat.old.me.0 row }
    ensures seat { (seat.new.table_id ≡ seat.old.table_id) × (seat.new.me.1 ≡ seat.old.me.1) }
    ensures version { result ≡ version_held (corner seat.old.me.0 row).stage + 1 }
    ensures later { (corner seat.old.me.0 row).seen < result }
    ensures allowance { 0 < seat.old.me.0.allowance }
    ensures view { seat.new.me.0
        ≡ published_at (weighed seat.old.me.0) row (version_held (corner seat.old.me.0 row).stage)
        (found_in (corner seat.old.me.0 row).stage) content.now }
{
    let word = top.load::<Weigh>(seat, 17 * row);
    for i in 0..16 {
        top.store::<Store>(seat, 17 * row + i + 1, content[i]);
    }
    let Some(next) = LockWord::new(word).to_allocated() else {
        unreachable!()
    };
    top.store::<Publish>(seat, 17 * row, next.word());
    next.version()
}

pub(crate) fn free_by<V: Kept>(top: &Top<V>, seat: &mut Sitting<V>, row: usize)
    requires at { IsAt seat.old.table_id top.now.table_id top.now.key.items seat.old.me.0 row }
    requires row { (0 < row) × IsHeld seat.old.me.0 row }
    ensures seat { (seat.new.table_id ≡ seat.old.table_id) × (seat.new.me.1 ≡ seat.old.me.1) }
    ensures later { (corner seat.old.me.0 row).seen ≤ version_held (corner seat.old.me.0 row).stage }
    ensures view { seat.new.me.0
        ≡ freed_at (weighed seat.old.me.0) row (version_held (corner seat.old.me.0 row).stage)
        (found_in (corner seat.old.me.0 row).stage) }
{
    let word = top.load::<Weigh>(seat, 17 * row);
    let free = LockWord::new(word).to_free().word();
    top.store::<Release>(seat, 17 * row, free);
}
