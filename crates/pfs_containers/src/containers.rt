//! The containers and their calls.

ghost use Rattle.std.specs.Prelude.{◌≡◌, ◌<◌, ◌≤◌, ◌^◌, ◌==◌, IfOk, IfSome, Some, length};
ghost use Rattle.std.specs.List.{slice_index_or};
ghost use Rattle.std.specs.Option.{ForSome};
ghost use Rattle.pfs_rows.specs.Limits.{AreInRange};
ghost use Rattle.pfs_containers.specs.PlaceInfos.{thread_info_of, account_info_at, user_info_at, host_info_at};
ghost use Rattle.pfs_containers.specs.Connections.{in_use};
ghost use Rattle.pfs_containers.specs.Administration.{found_where, lowest_free, session_of, lost_by, missing, added_from, totals_kept_from, currents_from, current, Accounts, Users, Hosts};
ghost use Rattle.pfs_containers.specs.ContainerState.{opening, with_connect, with_quit, with_truncation, seat_of, seated, as_found, lost_in, with_lost, HasPlaces, HasUppers, IsInRange, AreUpTo};

use crate::places::{Upper, add_one};
use crate::state::Places;
use crate::{AccountInfo, NameInfo, NoMemory, ThreadInfo};
use pfs_names::NameId;
use pfs_rows::Limits;
use std::alloc::Global;
use std::marker::Model;

/// A connected session: its number, the ids of its names, and the places that it has, each from 0 on. A user or a
/// host that found no place when the session's account was made is lost for the session too.
#[derive(Clone, Copy, Debug, PartialEq, Eq)]
pub struct Connection {
    pub number: u64,
    pub user_name: NameId,
    pub host_name: NameId,
    pub account: Option<u64>,
    pub user: Option<u64>,
    pub host: Option<u64>,
}

/// An account: the ids of its names, and the places of its user and its host. A place that was lost stays lost.
#[derive(Clone, Copy, Debug, PartialEq, Eq)]
pub struct Account {
    pub user_name: NameId,
    pub host_name: NameId,
    pub user: Option<u64>,
    pub host: Option<u64>,
}

/// A session in its thread slot, from 0 on.
#[derive(Clone, Copy, Debug, PartialEq, Eq)]
pub struct Seated {
    pub slot: u64,
    pub connection: Connection,
}

/// How many connects looked for a thread slot, a place for their account, for their user and for their host, and
/// found none. Who finds an account that is there looks for no user and no host.
#[derive(Clone, Copy, Debug, PartialEq, Eq)]
pub struct Lost {
    pub threads: u64,
    pub accounts: u64,
    pub users: u64,
    pub hosts: u64,
}

/// TOTAL_CONNECTIONS of each account, user and host.
#[derive(Drop)]
struct Totals {
    accounts: Vec<u64>,
    users: Vec<u64>,
    hosts: Vec<u64>,
}

/// What stands at each thread slot, account, user and host, TOTAL_CONNECTIONS of each place, and what was lost. All its
/// room is taken by `open`.
#[derive(Drop)]
pub struct Containers {
    places: Places,
    totals: Totals,
    lost: Lost,
    connects: u64,
}

impl Model for Containers {
    ghost use Rattle.pfs_containers.specs.ContainerState.{Kept, AreCounted};

    ghost Value = { Kept };

    ghost view = { λ s. record {
      now = record {
        places = s.places;
        lost_threads = s.lost.threads;
        lost_accounts = s.lost.accounts;
        lost_users = s.lost.users;
        lost_hosts = s.lost.hosts;
        account_totals = s.totals.accounts.items;
        user_totals = s.totals.users.items;
        host_totals = s.totals.hosts.items;
      };
      connects = s.connects;
    } };

    ghost invariant = { λ s. AreCounted (record {
      now = record {
        places = s.places;
        lost_threads = s.lost.threads;
        lost_accounts = s.lost.accounts;
        lost_users = s.lost.users;
        lost_hosts = s.lost.hosts;
        account_totals = s.totals.accounts.items;
        user_totals = s.totals.users.items;
        host_totals = s.totals.hosts.items;
      };
      connects = s.connects;
    }) };
}

impl Containers {
    /// Every place free, nothing counted and nothing lost. All room is taken here.
    pub fn open(alloc: Global, limits: &Limits) -> Result<Containers, NoMemory>
        requires { AreInRange limits.now }
        ensures { IfOk result (λ containers. containers ≡ opening limits.now) }
    {
        Ok(Containers {
            places: Places::open(alloc, limits)?,
            totals: Totals {
                accounts: vec![in alloc; 0; limits.accounts as usize]?,
                users: vec![in alloc; 0; limits.users as usize]?,
                hosts: vec![in alloc; 0; limits.hosts as usize]?,
            },
            lost: Lost {
                threads: 0,
                accounts: 0,
                users: 0,
                hosts: 0,
            },
            connects: 0,
        })
    }

    /// Connects a session: it takes the lowest free thread slot, or is lost. An account that is there gives its user
    /// and its host; else the account takes the lowest free place or is lost, and user and host are found by their
    /// names, or take the lowest free place, or are lost. These rules are MySQL's; that a place taken is the lowest
    /// is our own. Each place counts one connection more. None where no slot is free.
    pub fn connect(&mut self, number: u64, user: NameId, host: NameId) -> Option<Seated>
        requires few { self.old.connects < 2 ^ 47 }
        ensures step { self.new ≡ with_connect self.old number user host }
        ensures seat { result ≡ seat_of self.old.now number user host }
        ensures few { IfSome result IsInRange }
    {
        match self.places.free_slot() {
            Some(slot) => {
                let connection = self.seat(slot, number, user, host);
                Some(Seated { slot, connection })
            }
            None => {
                self.connects += 1;
                self.lost.threads += 1;
                None
            }
        }
    }

    // Connects a session in this slot, which is the lowest free one.
    fn seat(&mut self, slot: u64, number: u64, user: NameId, host: NameId) -> Connection
        requires few { self.old.connects < 2 ^ 47 }
        requires free { lowest_free self.old.now.places.threads ≡ Some slot }
        requires inside { slot < length self.old.now.places.threads }
        ensures step { self.new ≡ with_connect self.old number user host }
        ensures session { result ≡ session_of self.old.now.places number user host }
        ensures few { HasPlaces 32 32 32 result }
    {
        let account = self.places.account(user, host);
        let connection = self.places.connection(number, user, host, &account);
        self.lost = self.lost.with(&account, &connection);
        self.places.seat(slot, &connection);
        self.totals.add(&connection);
        self.connects += 1;
        connection
    }

    /// Ends the connection in the lowest slot that a session has, and gives it back with that slot; its places stay.
    /// None, and nothing changes, where the session has no slot.
    pub fn quit(&mut self, number: u64) -> Option<Seated>
        ensures step { self.new ≡ with_quit self.old number }
        ensures seat { result ≡ seated (found_where (λ x. x.number == number) self.old.now.places.threads) }
        ensures few { IfSome result IsInRange }
    {
        self.places.quit(number)
    }

    /// Truncates `accounts`: those without a connection are freed, and TOTAL_CONNECTIONS of the others becomes
    /// CURRENT_CONNECTIONS. Threads, users and hosts stay.
    pub fn truncate_accounts(&mut self)
        ensures { self.new ≡ with_truncation self.old Accounts }
    {
        self.totals.count_accounts(&self.places);
        self.places.free_accounts();
    }

    /// Truncates `users`: accounts and users without a connection are freed, and TOTAL_CONNECTIONS of the other users
    /// becomes CURRENT_CONNECTIONS. That of the other accounts stays.
    pub fn truncate_users(&mut self)
        ensures { self.new ≡ with_truncation self.old Users }
    {
        self.totals.count_users(&self.places);
        self.places.free_users();
    }

    /// Truncates `hosts`: accounts and hosts without a connection are freed, and TOTAL_CONNECTIONS of the other hosts
    /// becomes CURRENT_CONNECTIONS. That of the other accounts stays.
    pub fn truncate_hosts(&mut self)
        ensures { self.new ≡ with_truncation self.old Hosts }
    {
        self.totals.count_hosts(&self.places);
        self.places.free_hosts();
    }

    /// What an account's info row says; none where the place is free or isn't there.
    pub fn account_info(&self, place: u64) -> Option<AccountInfo>
        ensures info { result ≡ account_info_at self.now.now place }
        ensures user { IfSome result (λ info. ForSome info.user (λ n. n < 32)) }
        ensures host { IfSome result (λ info. ForSome info.host (λ n. n < 32)) }
    {
        let (account, current) = self.places.account_at(place)?;
        Some(AccountInfo {
            user_name: account.user_name,
            host_name: account.host_name,
            user: account.user,
            host: account.host,
            current,
            total: number_at(self.totals.accounts.as_slice(), place),
        })
    }

    /// What a user's info row says; none where the place is free or isn't there.
    pub fn user_info(&self, place: u64) -> Option<NameInfo>
        ensures { result ≡ user_info_at self.now.now place }
    {
        let (name, current) = self.places.user_at(place)?;
        let total = number_at(self.totals.users.as_slice(), place);
        Some(NameInfo {
            name,
            current,
            total,
        })
    }

    /// What a host's info row says; none where the place is free or isn't there.
    pub fn host_info(&self, place: u64) -> Option<NameInfo>
        ensures { result ≡ host_info_at self.now.now place }
    {
        let (name, current) = self.places.host_at(place)?;
        let total = number_at(self.totals.hosts.as_slice(), place);
        Some(NameInfo {
            name,
            current,
            total,
        })
    }

    /// The session in a slot, if there is one.
    pub fn session(&self, slot: u64) -> Option<Connection>
        ensures entry { result ≡ slice_index_or self.now.now.places.threads slot None }
        ensures few { IfSome result (λ x. HasPlaces 32 32 32 x) }
    {
        self.places.session(slot)
    }

    /// The account at a place, if there is one.
    pub fn account(&self, place: u64) -> Option<Account>
        ensures entry { result ≡ slice_index_or self.now.now.places.accounts place None }
        ensures few { IfSome result (λ x. HasUppers 32 32 x) }
    {
        self.places.account_in(place)
    }

    /// The name of the user at a place, if there is one.
    pub fn user(&self, place: u64) -> Option<NameId>
        ensures { result ≡ slice_index_or self.now.now.places.users place None }
    {
        self.places.user(place)
    }

    /// The name of the host at a place, if there is one.
    pub fn host(&self, place: u64) -> Option<NameId>
        ensures { result ≡ slice_index_or self.now.now.places.hosts place None }
    {
        self.places.host(place)
    }

    /// What was lost so far.
    pub fn lost(&self) -> Lost
        ensures { result ≡ lost_in self.now.now }
    {
        self.lost
    }
}

impl Connection {
    /// What the session's info row says.
    pub fn info(&self) -> ThreadInfo
        ensures { result ≡ thread_info_of self.now }
    {
        ThreadInfo {
            session: self.number,
            account: self.account,
            user: self.user,
            host: self.host,
            user_name: self.user_name,
            host_name: self.host_name,
        }
    }
}

impl Totals {
    // Counts a connection at each place that it has.
    fn add(&mut self, connection: &Connection)
        requires places { HasPlaces (length self.old.accounts.items) (length self.old.users.items)
            (length self.old.hosts.items) connection.now }
        requires accounts { AreUpTo (2 ^ 47) self.old.accounts.items }
        requires users { AreUpTo (2 ^ 47) self.old.users.items }
        requires hosts { AreUpTo (2 ^ 47) self.old.hosts.items }
        ensures accounts { self.new.accounts.items ≡ added_from 0 connection.now.account self.old.accounts.items }
        ensures users { self.new.users.items ≡ added_from 0 connection.now.user self.old.users.items }
        ensures hosts { self.new.hosts.items ≡ added_from 0 connection.now.host self.old.hosts.items }
    {
        add_one(self.accounts.as_mut_slice(), connection.account);
        add_one(self.users.as_mut_slice(), connection.user);
        add_one(self.hosts.as_mut_slice(), connection.host);
    }

    // The connections of each account now.
    fn count_accounts(&mut self, places: &Places)
        ensures accounts { self.new.accounts.items
            ≡ currents_from 0 (current (λ x. x.account) places.now.threads) self.old.accounts.items }
        ensures users { self.new.users.items ≡ self.old.users.items }
        ensures hosts { self.new.hosts.items ≡ self.old.hosts.items }
    {
        places.count_anew(Upper::Account, self.accounts.as_mut_slice());
    }

    // Those of each user now, and nothing for an account that no session has.
    fn count_users(&mut self, places: &Places)
        ensures accounts { self.new.accounts.items
            ≡ totals_kept_from 0 (in_use (λ x. x.account) places.now.threads) self.old.accounts.items }
        ensures users { self.new.users.items
            ≡ currents_from 0 (current (λ x. x.user) places.now.threads) self.old.users.items }
        ensures hosts { self.new.hosts.items ≡ self.old.hosts.items }
    {
        places.forget_accounts(self.accounts.as_mut_slice());
        places.count_anew(Upper::User, self.users.as_mut_slice());
    }

    // Those of each host now, and nothing for an account that no session has.
    fn count_hosts(&mut self, places: &Places)
        ensures accounts { self.new.accounts.items
            ≡ totals_kept_from 0 (in_use (λ x. x.account) places.now.threads) self.old.accounts.items }
        ensures users { self.new.users.items ≡ self.old.users.items }
        ensures hosts { self.new.hosts.items
            ≡ currents_from 0 (current (λ x. x.host) places.now.threads) self.old.hosts.items }
    {
        places.forget_accounts(self.accounts.as_mut_slice());
        places.count_anew(Upper::Host, self.hosts.as_mut_slice());
    }
}

impl Lost {
    // Counts what a session lacks that found no account.
    fn with(&self, account: &Option<(u64, Account)>, connection: &Connection) -> Lost
        requires accounts { self.now.accounts < 2 ^ 48 }
        requires users { self.now.users < 2 ^ 48 }
        requires hosts { self.now.hosts < 2 ^ 48 }
        ensures { result ≡ with_lost self.now (as_found account.now) connection.now }
    {
        match account {
            Some(_) => *self,
            None => Lost {
                threads: self.threads,
                accounts: self.accounts + missing(connection.account),
                users: self.users + missing(connection.user),
                hosts: self.hosts + missing(connection.host),
            },
        }
    }
}

// 1 where there is no place.
fn missing(place: Option<u64>) -> u64
    ensures { result ≡ missing place }
{
    match place {
        Some(_) => 0,
        None => 1,
    }
}

// The number at a place, or 0.
fn number_at(totals: &[u64], place: u64) -> u64
    ensures { result ≡ slice_index_or totals.now place 0 }
{
    totals.get(place as usize).copied().unwrap_or(0)
}
