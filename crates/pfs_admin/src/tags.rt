//! The info rows of a session's places.

ghost use Rattle.std.specs.Prelude.{◌≡◌, ◌<◌, ◌≤◌, ◌++◌, [], ℕ, Option, Some, None, IfSome};
ghost use Rattle.std.specs.Option.{option_map};
ghost use Rattle.pfs_containers.specs.ContainerState.{HasPlaces};
ghost use Rattle.pfs_levels.specs.Moves.{IsAway, Stays};
ghost use Rattle.pfs_admin.specs.Works.{Signed};
ghost use Rattle.pfs_admin.specs.ConnectionAsks.{tag_of, account_tag, user_tag, host_tag, upper_tags};

use crate::signs::tag;
use pfs_containers::{Connection, Containers};
use pfs_levels::{Content, Hold, Log};

/// Writes the info rows of a session's account, user and host, as they stand now. The log gets their tags.
#[tactic(auto, using(crate::proofs::SignLists::signed_then))]
pub(crate) fn tag_uppers<H: Hold>(
    rows: &mut H,
    containers: &Containers,
    session: &Connection,
    log: &mut Log,
)
    requires alone { (r : ℕ) → 0 < r → (H.seen rows.old).hand r ≡ None }
    requires places { HasPlaces 32 32 32 session.now }
    requires spare { 3 ≤ (H.seen rows.old).left }
    requires room { 3 ≤ log.old.room }
    ensures signed { Signed (upper_tags containers.now.now session.now) log.old log.new (H.seen rows.old).reached
        (H.seen rows.new).reached }
    ensures stays { Stays 3 (H.seen rows.old) (H.seen rows.new) log.old log.new }
{
    tag_account(rows, containers, session.account, log);
    tag_user(rows, containers, session.user, log);
    tag_host(rows, containers, session.host, log);
}

fn tag_account<H: Hold>(rows: &mut H, containers: &Containers, account: Option<u64>, log: &mut Log)
    requires alone { (r : ℕ) → 0 < r → (H.seen rows.old).hand r ≡ None }
    requires place { IfSome account (λ n. n < 32) }
    requires spare { 1 ≤ (H.seen rows.old).left }
    requires room { 1 ≤ log.old.room }
    ensures signed { Signed (account_tag containers.now.now account) log.old log.new (H.seen rows.old).reached
        (H.seen rows.new).reached }
    ensures stays { Stays 1 (H.seen rows.old) (H.seen rows.new) log.old log.new }
{
    if let Some(place) = account {
        let content = match containers.account_info(place) {
            Some(info) => Some(info.to_content()),
            None => None,
        };
        tag_some(rows, 33 + place, &content, log);
    }
}

fn tag_user<H: Hold>(rows: &mut H, containers: &Containers, user: Option<u64>, log: &mut Log)
    requires alone { (r : ℕ) → 0 < r → (H.seen rows.old).hand r ≡ None }
    requires place { IfSome user (λ n. n < 32) }
    requires spare { 1 ≤ (H.seen rows.old).left }
    requires room { 1 ≤ log.old.room }
    ensures signed { Signed (user_tag containers.now.now user) log.old log.new (H.seen rows.old).reached
        (H.seen rows.new).reached }
    ensures stays { Stays 1 (H.seen rows.old) (H.seen rows.new) log.old log.new }
{
    if let Some(place) = user {
        let content = match containers.user_info(place) {
            Some(info) => Some(info.to_content()),
            None => None,
        };
        tag_some(rows, 65 + place, &content, log);
    }
}

fn tag_host<H: Hold>(rows: &mut H, containers: &Containers, host: Option<u64>, log: &mut Log)
    requires alone { (r : ℕ) → 0 < r → (H.seen rows.old).hand r ≡ None }
    requires place { IfSome host (λ n. n < 32) }
    requires spare { 1 ≤ (H.seen rows.old).left }
    requires room { 1 ≤ log.old.room }
    ensures signed { Signed (host_tag containers.now.now host) log.old log.new (H.seen rows.old).reached
        (H.seen rows.new).reached }
    ensures stays { Stays 1 (H.seen rows.old) (H.seen rows.new) log.old log.new }
{
    if let Some(place) = host {
        let content = match containers.host_info(place) {
            Some(info) => Some(info.to_content()),
            None => None,
        };
        tag_some(rows, 97 + place, &content, log);
    }
}

// Writes an info row, where something stands at its place.
fn tag_some<H: Hold>(rows: &mut H, row: u64, content: &Option<Content>, log: &mut Log)
    requires away { IsAway (H.seen rows.old).hand row }
    requires spare { 1 ≤ (H.seen rows.old).left }
    requires room { 1 ≤ log.old.room }
    ensures signed { Signed (tag_of row content.now) log.old log.new (H.seen rows.old).reached
        (H.seen rows.new).reached }
    ensures stays { Stays 1 (H.seen rows.old) (H.seen rows.new) log.old log.new }
{
    if let Some(content) = content {
        tag(rows, row, content, log);
    }
}
