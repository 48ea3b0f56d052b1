//! What a connect and a quit write for their thread slot.

ghost use Rattle.std.specs.Prelude.{◌≡◌, ◌<◌, ◌≤◌, ◌+◌, ◌*◌, ◌^◌, [], ℕ, All, IfSome, Some, None, length};
ghost use Rattle.pfs_levels.specs.Views.{Used, lent_as};
ghost use Rattle.pfs_containers.specs.ContainerState.{IsInRange};
ghost use Rattle.pfs_admin.specs.Works.{Worked, word_at};
ghost use Rattle.pfs_admin.specs.AdministrationStates.{words_by};
ghost use Rattle.pfs_admin.specs.ConnectionAsks.{connect_work, quit_work};

use crate::freeing::release_ring;
use crate::signs::{flag, release, tag};
use crate::tags::tag_uppers;
use pfs_containers::{Containers, Seated};
use pfs_levels::{Hold, Log, Source, Up, Word, flush_cells};

/// Writes what a connect changes, where it got a slot.
#[tactic(auto, using(crate::proofs::SignLists::worked_nothing))]
pub(crate) fn write_connect<H: Hold>(
    rows: &mut H,
    containers: &Containers,
    words: &mut [Word],
    seat: &Option<Seated>,
    flags: u16,
    log: &mut Log,
)
    requires alone { (r : ℕ) → 0 < r → (H.seen rows.old).hand r ≡ None }
    requires seat { IfSome seat.now IsInRange }
    requires wide { length words.old ≡ 160 }
    requires lent { (H.seen rows.old).words ≡ Some words.old }
    requires early { (at : ℕ) → (word_at words.old at).version + 1 < 2 ^ 48 }
    requires spare { 4 ≤ (H.seen rows.old).left }
    requires room { 5 ≤ log.old.room }
    ensures worked { Worked (connect_work words.old flags containers.now.now seat.now) words.old [] log.old log.new
        (H.seen rows.old).reached (H.seen rows.new).reached }
    ensures mine { words.new ≡ words_by words.old flags seat.now }
    ensures used { Used 4 0 5 (lent_as words.new (H.seen rows.old)) (H.seen rows.new) log.old log.new }
{
    if let Some(seat) = seat {
        seat_thread(rows, containers, words, seat, flags, log);
    }
}

/// Writes what a quit changes, where its session had a slot.
#[tactic(auto, using(crate::proofs::SignLists::worked_nothing))]
pub(crate) fn write_quit<H: Hold>(
    rows: &mut H,
    containers: &Containers,
    words: &mut [Word],
    cells: &[u64],
    seat: &Option<Seated>,
    log: &mut Log,
)
    requires alone { (r : ℕ) → 0 < r → (H.seen rows.old).hand r ≡ None }
    requires seat { IfSome seat.now IsInRange }
    requires cells { All (λ cell. cell < 64) cells.now }
    requires wide { length words.old ≡ 160 }
    requires lent { (H.seen rows.old).words ≡ Some words.old }
    requires early { (at : ℕ) → (word_at words.old at).version + 1 < 2 ^ 48 }
    requires spare { 3 * length cells.now + 60 ≤ (H.seen rows.old).left }
    requires room { 3 * length cells.now + 61 ≤ log.old.room }
    ensures worked { Worked (quit_work words.old cells.now containers.now.now seat.now) words.old [] log.old log.new
        (H.seen rows.old).reached (H.seen rows.new).reached }
    ensures mine { words.new ≡ words_by words.old 0 seat.now }
    ensures used { Used (3 * length cells.now + 60) 0 (3 * length cells.now + 61) (lent_as words.new (H.seen rows.old))
        (H.seen rows.new) log.old log.new }
{
    if let Some(seat) = seat {
        clear_thread(rows, containers, words, cells, seat, log);
    }
}

// Writes the infos of a session that has connected, and sets its thread's flags where they change.
fn seat_thread<H: Hold>(
    rows: &mut H,
    containers: &Containers,
    words: &mut [Word],
    seat: &Seated,
    flags: u16,
    log: &mut Log,
)
    requires alone { (r : ℕ) → 0 < r → (H.seen rows.old).hand r ≡ None }
    requires seat { IsInRange seat.now }
    requires wide { length words.old ≡ 160 }
    requires lent { (H.seen rows.old).words ≡ Some words.old }
    requires early { (at : ℕ) → (word_at words.old at).version + 1 < 2 ^ 48 }
    requires spare { 4 ≤ (H.seen rows.old).left }
    requires room { 5 ≤ log.old.room }
    ensures worked { Worked (connect_work words.old flags containers.now.now (Some seat.now)) words.old [] log.old
        log.new (H.seen rows.old).reached (H.seen rows.new).reached }
    ensures mine { words.new ≡ words_by words.old flags (Some seat.now) }
    ensures used { Used 4 0 5 (lent_as words.new (H.seen rows.old)) (H.seen rows.new) log.old log.new }
{
    let content = seat.connection.info().to_content();
    tag(rows, 1 + seat.slot, &content, log);
    tag_uppers(rows, containers, &seat.connection, log);
    flag(rows, words, 1 + seat.slot, flags, log);
}

// Moves the cells of a session that has ended up, releases its slot's info, writes those of its other places, releases
// the places of its thread's ring, and clears its thread's flags where they are set.
fn clear_thread<H: Hold>(
    rows: &mut H,
    containers: &Containers,
    words: &mut [Word],
    cells: &[u64],
    seat: &Seated,
    log: &mut Log,
)
    requires alone { (r : ℕ) → 0 < r → (H.seen rows.old).hand r ≡ None }
    requires seat { IsInRange seat.now }
    requires cells { All (λ cell. cell < 64) cells.now }
    requires wide { length words.old ≡ 160 }
    requires lent { (H.seen rows.old).words ≡ Some words.old }
    requires early { (at : ℕ) → (word_at words.old at).version + 1 < 2 ^ 48 }
    requires spare { 3 * length cells.now + 60 ≤ (H.seen rows.old).left }
    requires room { 3 * length cells.now + 61 ≤ log.old.room }
    ensures worked { Worked (quit_work words.old cells.now containers.now.now (Some seat.now)) words.old [] log.old
        log.new (H.seen rows.old).reached (H.seen rows.new).reached }
    ensures mine { words.new ≡ words_by words.old 0 (Some seat.now) }
    ensures used { Used (3 * length cells.now + 60) 0 (3 * length cells.now + 61) (lent_as words.new (H.seen rows.old))
        (H.seen rows.new) log.old log.new }
{
    let up = Up {
        place: seat.slot,
        account: seat.connection.account,
        user: seat.connection.user,
        host: seat.connection.host,
    };
    flush_cells(rows, Source::Thread(up), cells, log);
    release(rows, 1 + seat.slot, log);
    tag_uppers(rows, containers, &seat.connection, log);
    release_ring(rows, seat.slot, log);
    flag(rows, words, 1 + seat.slot, 0, log);
}
