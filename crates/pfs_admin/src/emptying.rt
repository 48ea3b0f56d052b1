//! Levels whose cells are moved up, one place after another.

ghost use Rattle.std.specs.Prelude.{◌≡◌, ◌<◌, ◌≤◌, ◌++◌, ℕ, All, Option, Some, None, IfSome};
ghost use Rattle.pfs_levels.specs.declared.places.Level.TheVariants as levels;
ghost use Rattle.pfs_levels.specs.Flushes.{IsSource};
ghost use Rattle.pfs_levels.specs.Moves.{Moved, Stays, cost};
ghost use Rattle.pfs_admin.specs.Truncations.{source_at, place_asks, level_asks, emptied};

use pfs_containers::Containers;
use pfs_levels::{Hold, Level, Log, Source, Up, flush_cells};

/// Moves these cells of every live thread, or of every account, user or host that is there, ascending. The log gets
/// each take and its gifts.
pub(crate) fn empty_level<H: Hold>(
    rows: &mut H,
    containers: &Containers,
    level: Level,
    cells: &[u64],
    log: &mut Log,
)
    requires alone { (r : ℕ) → 0 < r → (H.seen rows.old).hand r ≡ None }
    requires cells { All (λ cell. cell < 64) cells.now }
    requires spare { cost (level_asks containers.now.now.places cells.now level) ≤ (H.seen rows.old).left }
    requires room { cost (level_asks containers.now.now.places cells.now level) ≤ log.old.room }
    ensures moved { Moved (level_asks containers.now.now.places cells.now level) log.old log.new
        (H.seen rows.old).reached (H.seen rows.new).reached }
    ensures stays { Stays (cost (level_asks containers.now.now.places cells.now level)) (H.seen rows.old)
        (H.seen rows.new) log.old log.new }
{
    for place in 0..32 {
        let source = source_at(containers, level, place);
        empty_place(rows, source, cells, log);
    }
}

/// Does so where the level is to be emptied.
#[tactic(auto, using(crate::proofs::LevelMoves::moved_nothing, crate::proofs::LevelMoves::stays_nothing))]
pub(crate) fn empty_level_if<H: Hold>(
    rows: &mut H,
    containers: &Containers,
    due: bool,
    level: Level,
    cells: &[u64],
    log: &mut Log,
)
    requires alone { (r : ℕ) → 0 < r → (H.seen rows.old).hand r ≡ None }
    requires cells { All (λ cell. cell < 64) cells.now }
    requires spare { cost (emptied due containers.now.now.places cells.now level) ≤ (H.seen rows.old).left }
    requires room { cost (emptied due containers.now.now.places cells.now level) ≤ log.old.room }
    ensures moved { Moved (emptied due containers.now.now.places cells.now level) log.old log.new
        (H.seen rows.old).reached (H.seen rows.new).reached }
    ensures stays { Stays (cost (emptied due containers.now.now.places cells.now level)) (H.seen rows.old)
        (H.seen rows.new) log.old log.new }
{
    if due {
        empty_level(rows, containers, level, cells, log);
    }
}

// Moves these cells of a place, where something stands there.
#[tactic(auto, using(crate::proofs::LevelMoves::moved_nothing, crate::proofs::LevelMoves::stays_nothing, crate::proofs::LevelRows::away_cells))]
fn empty_place<H: Hold>(rows: &mut H, source: Option<Source>, cells: &[u64], log: &mut Log)
    requires alone { (r : ℕ) → 0 < r → (H.seen rows.old).hand r ≡ None }
    requires source { IfSome source IsSource }
    requires cells { All (λ cell. cell < 64) cells.now }
    requires spare { cost (place_asks cells.now source) ≤ (H.seen rows.old).left }
    requires room { cost (place_asks cells.now source) ≤ log.old.room }
    ensures moved { Moved (place_asks cells.now source) log.old log.new (H.seen rows.old).reached
        (H.seen rows.new).reached }
    ensures stays { Stays (cost (place_asks cells.now source)) (H.seen rows.old) (H.seen rows.new) log.old log.new }
{
    if let Some(source) = source {
        flush_cells(rows, source, cells, log);
    }
}

/// What stands at a place of a level, as a source of moves.
pub(crate) fn source_at(containers: &Containers, level: Level, place: u64) -> Option<Source>
    requires { place < 32 }
    ensures source { result ≡ source_at containers.now.now.places level place }
    ensures known { IfSome result IsSource }
{
    match level {
        Level::Thread => thread_at(containers, place),
        Level::Account => account_at(containers, place),
        Level::User => match containers.user(place) {
            Some(_) => Some(Source::User(place)),
            None => None,
        },
        Level::Host => match containers.host(place) {
            Some(_) => Some(Source::Host(place)),
            None => None,
        },
    }
}

fn thread_at(containers: &Containers, place: u64) -> Option<Source>
    requires { place < 32 }
    ensures source { result ≡ source_at containers.now.now.places levels.Thread place }
    ensures known { IfSome result IsSource }
{
    let session = containers.session(place)?;
    Some(Source::Thread(Up {
        place,
        account: session.account,
        user: session.user,
        host: session.host,
    }))
}

fn account_at(containers: &Containers, place: u64) -> Option<Source>
    requires { place < 32 }
    ensures source { result ≡ source_at containers.now.now.places levels.Account place }
    ensures known { IfSome result IsSource }
{
    let account = containers.account(place)?;
    Some(Source::Account(Up {
        place,
        account: None,
        user: account.user,
        host: account.host,
    }))
}
