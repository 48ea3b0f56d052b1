//! What stands in the info rows of threads, accounts, users and hosts, and their sixteen words both
//! ways.
ghost use Rattle.std.specs.Prelude.{◌≡◌, ◌<◌, ◌+◌, ◌-◌, ◌==◌, ◌&&◌, nat_lt, length, Option, None, Some, if◌then◌else◌};
ghost use Rattle.std.specs.Option.{ForSome};
ghost use Rattle.pfs_containers.specs.InfoWords.{link_of, place_of, thread_words, thread_of, account_words, account_of, name_words, name_of};

use pfs_names::{NameId, Names};

/// The words of a row of the board.
pub type Content = [u64; 16];

/// What a thread's info row says: the number of the session that has the slot, the places of its
/// account, user and host, where it has them, and the ids of the session's names.
#[derive(Clone, Copy, Debug, PartialEq, Eq)]
pub struct ThreadInfo {
    pub session: u64,
    pub account: Option<u64>,
    pub user: Option<u64>,
    pub host: Option<u64>,
    pub user_name: NameId,
    pub host_name: NameId,
}

/// What an account's info row says: the ids of its names, the places of its user and host, where it
/// has them, and how many connections it has now and has had in all.
#[derive(Clone, Copy, Debug, PartialEq, Eq)]
pub struct AccountInfo {
    pub user_name: NameId,
    pub host_name: NameId,
    pub user: Option<u64>,
    pub host: Option<u64>,
    pub current: u64,
    pub total: u64,
}

/// What a user's or a host's info row says: the id of its name, and how many connections it has now
/// and has had in all.
#[derive(Clone, Copy, Debug, PartialEq, Eq)]
pub struct NameInfo {
    pub name: NameId,
    pub current: u64,
    pub total: u64,
}

impl ThreadInfo {
    /// The row's words: session, account, user and host, user name, host name, and ten zeroes. A
    /// place is written as the place plus one, none as 0.
    pub fn to_content(&self) -> Content
        requires account { ForSome self.now.account (λ place. place < 32) }
        requires user { ForSome self.now.user (λ place. place < 32) }
        requires host { ForSome self.now.host (λ place. place < 32) }
        ensures { result ≡ thread_words self.now }
    {
        [
            self.session,
            link_of(self.account),
            link_of(self.user),
            link_of(self.host),
            self.user_name.0,
            self.host_name.0,
            0,
            0,
            0,
            0,
            0,
            0,
            0,
            0,
            0,
            0,
        ]
    }

    /// What the first six words say; the others are not looked at. A word above 32 in the place of
    /// a place gives a place that no level has.
    pub fn of_content(words: &Content) -> ThreadInfo
        ensures { result ≡ thread_of words.now }
    {
        ThreadInfo {
            session: words[0],
            account: place_of(words[1]),
            user: place_of(words[2]),
            host: place_of(words[3]),
            user_name: NameId(words[4]),
            host_name: NameId(words[5]),
        }
    }

    /// Whether both names are of these.
    pub fn is_known(&self, names: &Names) -> bool
        ensures { result ≡ (nat_lt self.now.user_name (length names.now)
            && nat_lt self.now.host_name (length names.now)) }
    {
        is_name(names, self.user_name) && is_name(names, self.host_name)
    }
}

impl AccountInfo {
    /// The row's words: user name, host name, user and host, connections now and in all, and ten
    /// zeroes. A place is written as the place plus one, none as 0.
    pub fn to_content(&self) -> Content
        requires user { ForSome self.now.user (λ place. place < 32) }
        requires host { ForSome self.now.host (λ place. place < 32) }
        ensures { result ≡ account_words self.now }
    {
        [
            self.user_name.0,
            self.host_name.0,
            link_of(self.user),
            link_of(self.host),
            self.current,
            self.total,
            0,
            0,
            0,
            0,
            0,
            0,
            0,
            0,
            0,
            0,
        ]
    }

    /// What the first six words say; the others are not looked at. A word above 32 in the place of
    /// a place gives a place that no level has.
    pub fn of_content(words: &Content) -> AccountInfo
        ensures { result ≡ account_of words.now }
    {
        AccountInfo {
            user_name: NameId(words[0]),
            host_name: NameId(words[1]),
            user: place_of(words[2]),
            host: place_of(words[3]),
            current: words[4],
            total: words[5],
        }
    }

    /// Whether both names are of these.
    pub fn is_known(&self, names: &Names) -> bool
        ensures { result ≡ (nat_lt self.now.user_name (length names.now)
            && nat_lt self.now.host_name (length names.now)) }
    {
        is_name(names, self.user_name) && is_name(names, self.host_name)
    }
}

impl NameInfo {
    /// The row's words: name, connections now and in all, and thirteen zeroes.
    pub fn to_content(&self) -> Content
        ensures { result ≡ name_words self.now }
    {
        [
            self.name.0,
            self.current,
            self.total,
            0,
            0,
            0,
            0,
            0,
            0,
            0,
            0,
            0,
            0,
            0,
            0,
            0,
        ]
    }

    /// What the first three words say; the others are not looked at.
    pub fn of_content(words: &Content) -> NameInfo
        ensures { result ≡ name_of words.now }
    {
        NameInfo {
            name: NameId(words[0]),
            current: words[1],
            total: words[2],
        }
    }

    /// Whether the name is one of these.
    pub fn is_known(&self, names: &Names) -> bool
        ensures { result ≡ nat_lt self.now.name (length names.now) }
    {
        is_name(names, self.name)
    }
}

// Whether the id is of these names.
fn is_name(names: &Names, id: NameId) -> bool
    ensures { result ≡ nat_lt id (length names.now) }
{
    id.0 < names.count()
}

// The word for a place or none.
fn link_of(place: Option<u64>) -> u64
    requires { ForSome place (λ place. place < 32) }
    ensures { result ≡ link_of place }
{
    match place {
        Some(place) => place + 1,
        None => 0,
    }
}

// The place that a word says.
fn place_of(word: u64) -> Option<u64>
    ensures { result ≡ place_of word }
{
    if word == 0 { None } else { Some(word - 1) }
}
