//! Lists of places, each free or taken by an entry.

ghost use Rattle.std.specs.Prelude.{◌≡◌, ◌<◌, ◌≤◌, ◌+◌, ◌^◌, ◌==◌, ℕ, Bool, Option, Some, None, length, IfSome, is_none, cond};
ghost use Rattle.std.specs.List.{position};
ghost use Rattle.pfs_containers.specs.Connections.{fill, has_by, in_use, kept_if, kept_from};
ghost use Rattle.pfs_containers.specs.Administration.{lowest_free, added_from, is_account, named_place, found_where, current, totals_kept_from, currents_from};
ghost use Rattle.pfs_containers.specs.ContainerState.{AreUpTo, is_met, as_found};
ghost use Rattle.pfs_containers.specs.Uppers.{upper_of};

use crate::containers::{Account, Connection};
use pfs_names::NameId;

/// The lowest place that is free.
#[tactic(auto, using(crate::proofs::LowestPlaces::free_is))]
pub(crate) fn lowest_free<T>(places: &[Option<T>]) -> Option<u64>
    ensures { result ≡ lowest_free places.now }
{
    place_number(first_free(places))
}

fn first_free<T>(places: &[Option<T>]) -> Option<usize>
    ensures { result ≡ position (λ entry. is_none entry) places.now }
{
    places.iter().position(|entry| entry.is_none())
}

fn place_number(place: Option<usize>) -> Option<u64>
    ensures { result ≡ place }
{
    match place {
        Some(place) => Some(place as u64),
        None => None,
    }
}

/// Takes a place that is free for an entry. What stands at a place that is taken stays.
#[tactic(auto, using(crate::proofs::FilledPlaces::filled_free, crate::proofs::FilledPlaces::filled_taken, crate::proofs::FilledPlaces::filled_none))]
pub(crate) fn fill<T: Copy>(places: &mut [Option<T>], place: Option<u64>, entry: T)
    requires inside { IfSome place (λ n. n < length places.old) }
    ensures { places.new ≡ fill place entry places.old }
{
    if let Some(place) = place {
        let at = place as usize;
        if places[at].is_none() {
            places[at] = Some(entry);
        }
    }
}

/// Counts one more at a place.
#[tactic(auto, using(crate::proofs::FilledPlaces::added_none, crate::proofs::FilledPlaces::added_one, crate::proofs::FilledPlaces::up_to_at))]
pub(crate) fn add_one(totals: &mut [u64], place: Option<u64>)
    requires inside { IfSome place (λ n. n < length totals.old) }
    requires small { AreUpTo (2 ^ 47) totals.old }
    ensures { totals.new ≡ added_from 0 place totals.old }
{
    if let Some(place) = place {
        totals[place as usize] += 1;
    }
}

/// The account of these names, with its place.
#[tactic(auto, using(crate::proofs::LowestPlaces::found_at, crate::proofs::LowestPlaces::none_at, crate::proofs::LowestPlaces::not_found))]
pub(crate) fn find_account(
    accounts: &[Option<Account>],
    user: NameId,
    host: NameId,
) -> Option<(u64, Account)>
    ensures entry { as_found result ≡ found_where (is_account user host) accounts.now }
    ensures inside { IfSome result (λ pair. pair.0 < length accounts.now) }
{
    match account_place(accounts, user, host) {
        Some(place) => match accounts[place] {
            Some(account) => Some((place as u64, account)),
            None => None,
        },
        None => None,
    }
}

fn account_place(accounts: &[Option<Account>], user: NameId, host: NameId) -> Option<usize>
    ensures place { result ≡ position (λ entry. is_met (is_account user host) entry) accounts.now }
    ensures inside { IfSome result (λ place. place < length accounts.now) }
{
    accounts
        .iter()
        .position(|entry| is_of_names(entry, user, host))
}

fn is_of_names(entry: &Option<Account>, user: NameId, host: NameId) -> bool
    ensures { result ≡ is_met (is_account user host) entry.now }
{
    match entry {
        Some(account) => account.user_name == user && account.host_name == host,
        None => false,
    }
}

/// Where a name stands, or else the lowest free place.
#[tactic(auto, using(crate::proofs::LowestPlaces::named_here, crate::proofs::LowestPlaces::named_free))]
pub(crate) fn name_place(names: &[Option<NameId>], name: NameId) -> Option<u64>
    ensures { result ≡ named_place name names.now }
{
    match first_named(names, name) {
        Some(place) => Some(place as u64),
        None => lowest_free(names),
    }
}

fn first_named(names: &[Option<NameId>], name: NameId) -> Option<usize>
    ensures { result ≡ position (λ entry. is_met (λ n. n == name) entry) names.now }
{
    names.iter().position(|entry| *entry == Some(name))
}

/// The lowest slot that a session has, and the session as it stands there.
#[tactic(auto, using(crate::proofs::LowestPlaces::found_at, crate::proofs::LowestPlaces::none_at, crate::proofs::LowestPlaces::not_found))]
pub(crate) fn find_session(threads: &[Option<Connection>], number: u64) -> Option<(u64, Connection)>
    ensures entry { as_found result ≡ found_where (λ x. x.number == number) threads.now }
    ensures inside { IfSome result (λ pair. pair.0 < length threads.now) }
{
    match session_place(threads, number) {
        Some(place) => match threads[place] {
            Some(connection) => Some((place as u64, connection)),
            None => None,
        },
        None => None,
    }
}

fn session_place(threads: &[Option<Connection>], number: u64) -> Option<usize>
    ensures place { result ≡ position (λ entry. is_met (λ x. x.number == number) entry) threads.now }
    ensures inside { IfSome result (λ place. place < length threads.now) }
{
    threads.iter().position(|entry| has_number(entry, number))
}

fn has_number(entry: &Option<Connection>, number: u64) -> bool
    ensures { result ≡ is_met (λ x. x.number == number) entry.now }
{
    match entry {
        Some(connection) => connection.number == number,
        None => false,
    }
}

/// One of the three kinds of place that a session may have.
#[derive(Clone, Copy, Debug, PartialEq, Eq)]
pub(crate) enum Upper {
    Account,
    User,
    Host,
}

/// How many sessions have a place.
#[tactic(auto, using(crate::proofs::SessionCounts::current_is))]
pub(crate) fn current(threads: &[Option<Connection>], which: Upper, place: u64) -> u64
    ensures number { result ≡ current (upper_of which) threads.now place }
    ensures few { result ≤ length threads.now }
{
    threads
        .iter()
        .filter(|entry| has_place(entry, which, place))
        .count() as u64
}

fn has_place(entry: &Option<Connection>, which: Upper, place: u64) -> bool
    ensures { result ≡ has_by (upper_of which) place entry.now }
{
    match entry {
        Some(connection) => upper_of(connection, which) == Some(place),
        None => false,
    }
}

fn upper_of(connection: &Connection, which: Upper) -> Option<u64>
    ensures { result ≡ upper_of which connection.now }
{
    match which {
        Upper::Account => connection.account,
        Upper::User => connection.user,
        Upper::Host => connection.host,
    }
}

/// Whether some session has a place.
pub(crate) fn is_used(threads: &[Option<Connection>], which: Upper, place: u64) -> bool
    ensures { result ≡ in_use (upper_of which) threads.now place }
{
    current(threads, which, place) > 0
}

/// Frees each place that no session has.
pub(crate) fn free_unused<T: Copy>(
    places: &mut [Option<T>],
    threads: &[Option<Connection>],
    which: Upper,
)
    ensures { places.new ≡ kept_from 0 (in_use (upper_of which) threads.now) places.old }
{
    for place in 0..places.len() {
        let used = is_used(threads, which, place as u64);
        places[place] = kept(used, places[place]);
    }
}

fn kept<T: Copy>(used: bool, entry: Option<T>) -> Option<T>
    ensures { result ≡ kept_if used entry }
{
    if used { entry } else { None }
}

/// Counts nothing at each place that no session has.
pub(crate) fn forget_unused(totals: &mut [u64], threads: &[Option<Connection>], which: Upper)
    ensures { totals.new ≡ totals_kept_from 0 (in_use (upper_of which) threads.now) totals.old }
{
    for place in 0..totals.len() {
        let used = is_used(threads, which, place as u64);
        totals[place] = kept_total(used, totals[place]);
    }
}

fn kept_total(used: bool, total: u64) -> u64
    ensures { result ≡ cond used total 0 }
{
    if used { total } else { 0 }
}

/// Counts at each place the sessions that have it now.
pub(crate) fn count_anew(totals: &mut [u64], threads: &[Option<Connection>], which: Upper)
    ensures { totals.new ≡ currents_from 0 (current (upper_of which) threads.now) totals.old }
{
    for place in 0..totals.len() {
        totals[place] = current(threads, which, place as u64);
    }
}
