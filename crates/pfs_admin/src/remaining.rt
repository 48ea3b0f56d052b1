//! The info rows of what remains behind a truncation, and of what it freed.

ghost use Rattle.std.specs.Prelude.{◌≡◌, ◌<◌, ◌≤◌, ◌+◌, ◌++◌, cond, true, false, [], ℕ, Option, Some, None};
ghost use Rattle.pfs_levels.specs.declared.places.Level.TheVariants as levels;
ghost use Rattle.pfs_levels.specs.Moves.{IsAway, Stays};
ghost use Rattle.pfs_rows.specs.declared.truncations.Truncation.TheVariants.{Users, Hosts};
ghost use Rattle.pfs_admin.specs.Works.{Signed};
ghost use Rattle.pfs_admin.specs.Truncations.{content_at, first_row, flag_at, is_there, level_signs, place_sign, signs_most, standing, truncation_signs, was_by, IsStanding};

use crate::emptying::source_at;
use crate::freeing::release_events;
use crate::signs::{release, tag};
use pfs_containers::Containers;
use pfs_levels::{Content, Hold, Level, Log};
use pfs_rows::Truncation;

const PLACES: usize = 32;

/// Where an account, a user or a host stands: a flag for each place.
#[derive(Clone, Copy)]
pub(crate) struct Standing {
    pub(crate) accounts: [bool; PLACES],
    pub(crate) users: [bool; PLACES],
    pub(crate) hosts: [bool; PLACES],
}

impl Standing {
    /// Where they stand now.
    pub(crate) fn of(containers: &Containers) -> Standing
        ensures { IsStanding containers.now.now.places result }
    {
        Standing {
            accounts: standing_at(containers, Level::Account),
            users: standing_at(containers, Level::User),
            hosts: standing_at(containers, Level::Host),
        }
    }
}

fn standing_at(containers: &Containers, level: Level) -> [bool; PLACES]
    ensures { (place : ℕ) → place < 32 → flag_at result place ≡ is_there containers.now.now.places level place }
{
    let mut there = [false; PLACES];
    for place in 0..PLACES {
        there[place] = source_at(containers, level, place as u64).is_some();
    }
    there
}

/// Writes the rows of a truncated table's places that remain, as they stand now, and releases those of the places that
/// were freed, and all of an event table; of accounts that remain behind `users` and `hosts` nothing is written. The log
/// gets tags and releases.
#[tactic(auto, using(crate::proofs::LevelMoves::stays_nothing, crate::proofs::SignLists::signed_none))]
pub(crate) fn sign_truncated<H: Hold>(
    rows: &mut H,
    containers: &Containers,
    before: &Standing,
    what: Truncation,
    log: &mut Log,
)
    requires alone { (r : ℕ) → 0 < r → (H.seen rows.old).hand r ≡ None }
    requires spare { signs_most (was_by before.now) what ≤ (H.seen rows.old).left }
    requires room { signs_most (was_by before.now) what ≤ log.old.room }
    ensures signed { Signed (truncation_signs (was_by before.now) containers.now.now what) log.old log.new
        (H.seen rows.old).reached (H.seen rows.new).reached }
    ensures stays { Stays (signs_most (was_by before.now) what) (H.seen rows.old) (H.seen rows.new) log.old log.new }
{
    match what {
        Truncation::Accounts => {
            sign_level(
                rows,
                containers,
                Level::Account,
                &before.accounts,
                true,
                log,
            );
        }
        Truncation::Users => sign_users(rows, containers, before, log),
        Truncation::Hosts => sign_hosts(rows, containers, before, log),
        Truncation::Events(kind, table) => release_events(rows, containers, kind, table, log),
        Truncation::Summary(_, _)
        | Truncation::DigestSummary
        | Truncation::SetupActors
        | Truncation::SetupObjects => {}
    }
}

// Accounts that were freed, and users.
fn sign_users<H: Hold>(rows: &mut H, containers: &Containers, before: &Standing, log: &mut Log)
    requires alone { (r : ℕ) → 0 < r → (H.seen rows.old).hand r ≡ None }
    requires spare { signs_most (was_by before.now) Users ≤ (H.seen rows.old).left }
    requires room { signs_most (was_by before.now) Users ≤ log.old.room }
    ensures signed { Signed (truncation_signs (was_by before.now) containers.now.now Users) log.old log.new
        (H.seen rows.old).reached (H.seen rows.new).reached }
    ensures stays { Stays (signs_most (was_by before.now) Users) (H.seen rows.old) (H.seen rows.new) log.old log.new }
{
    sign_level(
        rows,
        containers,
        Level::Account,
        &before.accounts,
        false,
        log,
    );
    sign_level(rows, containers, Level::User, &before.users, true, log);
}

// Accounts that were freed, and hosts.
fn sign_hosts<H: Hold>(rows: &mut H, containers: &Containers, before: &Standing, log: &mut Log)
    requires alone { (r : ℕ) → 0 < r → (H.seen rows.old).hand r ≡ None }
    requires spare { signs_most (was_by before.now) Hosts ≤ (H.seen rows.old).left }
    requires room { signs_most (was_by before.now) Hosts ≤ log.old.room }
    ensures signed { Signed (truncation_signs (was_by before.now) containers.now.now Hosts) log.old log.new
        (H.seen rows.old).reached (H.seen rows.new).reached }
    ensures stays { Stays (signs_most (was_by before.now) Hosts) (H.seen rows.old) (H.seen rows.new) log.old log.new }
{
    sign_level(
        rows,
        containers,
        Level::Account,
        &before.accounts,
        false,
        log,
    );
    sign_level(rows, containers, Level::Host, &before.hosts, true, log);
}

// The places of a level where something stood before. Rows that remain are written, or left.
fn sign_level<H: Hold>(
    rows: &mut H,
    containers: &Containers,
    level: Level,
    was: &[bool; PLACES],
    written: bool,
    log: &mut Log,
)
    requires alone { (r : ℕ) → 0 < r → (H.seen rows.old).hand r ≡ None }
    requires spare { standing (flag_at was.now) ≤ (H.seen rows.old).left }
    requires room { standing (flag_at was.now) ≤ log.old.room }
    ensures signed { Signed (level_signs written (flag_at was.now) containers.now.now level) log.old log.new
        (H.seen rows.old).reached (H.seen rows.new).reached }
    ensures stays { Stays (standing (flag_at was.now)) (H.seen rows.old) (H.seen rows.new) log.old log.new }
{
    for place in 0..32 {
        let due = was[place as usize];
        sign_place(rows, containers, level, place, due, written, log);
    }
}

// A place of a level, where something stood there before.
#[tactic(auto, using(crate::proofs::LevelMoves::stays_nothing, crate::proofs::SignLists::signed_none))]
fn sign_place<H: Hold>(
    rows: &mut H,
    containers: &Containers,
    level: Level,
    place: u64,
    due: bool,
    written: bool,
    log: &mut Log,
)
    requires alone { (r : ℕ) → 0 < r → (H.seen rows.old).hand r ≡ None }
    requires place { place < 32 }
    requires spare { cond due 1 0 ≤ (H.seen rows.old).left }
    requires room { cond due 1 0 ≤ log.old.room }
    ensures signed { Signed (place_sign written due (first_row level + place) (content_at containers.now.now level
        place)) log.old log.new (H.seen rows.old).reached (H.seen rows.new).reached }
    ensures stays { Stays (cond due 1 0) (H.seen rows.old) (H.seen rows.new) log.old log.new }
{
    if due {
        let content = content_at(containers, level, place);
        sign_row(rows, first_row(level) + place, &content, written, log);
    }
}

// A row that something stood behind before.
fn sign_row<H: Hold>(
    rows: &mut H,
    row: u64,
    content: &Option<Content>,
    written: bool,
    log: &mut Log,
)
    requires away { IsAway (H.seen rows.old).hand row }
    requires spare { 1 ≤ (H.seen rows.old).left }
    requires room { 1 ≤ log.old.room }
    ensures signed { Signed (place_sign written true row content.now) log.old log.new (H.seen rows.old).reached
        (H.seen rows.new).reached }
    ensures stays { Stays (1) (H.seen rows.old) (H.seen rows.new) log.old log.new }
{
    match content {
        Some(content) => tag_if(rows, row, content, written, log),
        None => release(rows, row, log),
    }
}

#[tactic(auto, using(crate::proofs::LevelMoves::stays_nothing, crate::proofs::SignLists::signed_none))]
fn tag_if<H: Hold>(rows: &mut H, row: u64, content: &Content, written: bool, log: &mut Log)
    requires away { IsAway (H.seen rows.old).hand row }
    requires spare { 1 ≤ (H.seen rows.old).left }
    requires room { 1 ≤ log.old.room }
    ensures signed { Signed (place_sign written true row (Some content.now)) log.old log.new (H.seen rows.old).reached
        (H.seen rows.new).reached }
    ensures stays { Stays (1) (H.seen rows.old) (H.seen rows.new) log.old log.new }
{
    if written {
        tag(rows, row, content, log);
    }
}

// The info rows of a level are those from here on.
fn first_row(level: Level) -> u64
    ensures number { result ≡ first_row level }
    ensures low { 0 < result }
    ensures high { result ≤ 97 }
{
    match level {
        Level::Thread => 1,
        Level::Account => 33,
        Level::User => 65,
        Level::Host => 97,
    }
}

// What the info row of a place says.
fn content_at(containers: &Containers, level: Level, place: u64) -> Option<Content>
    ensures { result ≡ content_at containers.now.now level place }
{
    match level {
        Level::Thread => thread_content(containers, place),
        Level::Account => account_content(containers, place),
        Level::User => user_content(containers, place),
        Level::Host => host_content(containers, place),
    }
}

fn thread_content(containers: &Containers, place: u64) -> Option<Content>
    ensures { result ≡ content_at containers.now.now levels.Thread place }
{
    match containers.session(place) {
        Some(session) => Some(session.info().to_content()),
        None => None,
    }
}

fn account_content(containers: &Containers, place: u64) -> Option<Content>
    ensures { result ≡ content_at containers.now.now levels.Account place }
{
    match containers.account_info(place) {
        Some(info) => Some(info.to_content()),
        None => None,
    }
}

fn user_content(containers: &Containers, place: u64) -> Option<Content>
    ensures { result ≡ content_at containers.now.now levels.User place }
{
    match containers.user_info(place) {
        Some(info) => Some(info.to_content()),
        None => None,
    }
}

fn host_content(containers: &Containers, place: u64) -> Option<Content>
    ensures { result ≡ content_at containers.now.now levels.Host place }
{
    match containers.host_info(place) {
        Some(info) => Some(info.to_content()),
        None => None,
    }
}
