//! What stands at each thread slot, account, user and host.

ghost use Rattle.std.specs.Prelude.{◌≡◌, ◌<◌, ◌≤◌, ◌==◌, IfOk, IfSome, None, length};
ghost use Rattle.std.specs.List.{slice_index_or};
ghost use Rattle.std.specs.Option.{option_map};
ghost use Rattle.pfs_containers.specs.Connections.{State, Connects, Quits, FreesAccounts, FreesUsers, FreesHosts, stepped, entry_of, in_use};
ghost use Rattle.pfs_containers.specs.Administration.{session_of, quit_line, found_where, lowest_free, is_account, current, totals_kept_from, currents_from};
ghost use Rattle.pfs_containers.specs.ContainerState.{opening_places, as_found, seated, IsSeated, IsInRange, HasPlaces, HasUppers};
ghost use Rattle.pfs_containers.specs.Uppers.{upper_of};

use crate::NoMemory;
use crate::containers::{Account, Connection, Seated};
use crate::places::{
    Upper, count_anew, current, fill, find_account, find_session, forget_unused, free_unused,
    lowest_free, name_place,
};
use pfs_names::NameId;
use pfs_rows::Limits;
use std::alloc::Global;
use std::marker::Model;

/// The places of each kind, from 0 on, each free or taken.
#[derive(Drop)]
pub struct Places {
    threads: Vec<Option<Connection>>,
    accounts: Vec<Option<Account>>,
    users: Vec<Option<NameId>>,
    hosts: Vec<Option<NameId>>,
}

impl Model for Places {
    ghost use Rattle.pfs_containers.specs.Connections.{State};
    ghost use Rattle.pfs_containers.specs.ContainerState.{AreWell};

    ghost Value = { State };

    ghost view = { λ s. record {
      threads = s.threads.items;
      accounts = s.accounts.items;
      users = s.users.items;
      hosts = s.hosts.items;
    } };

    ghost invariant = { λ s. AreWell (record {
      threads = s.threads.items;
      accounts = s.accounts.items;
      users = s.users.items;
      hosts = s.hosts.items;
    }) };
}

impl Places {
    /// Every place free.
    pub(crate) fn open(alloc: Global, limits: &Limits) -> Result<Places, NoMemory>
        requires threads { limits.now.thread_instances ≤ 32 }
        requires accounts { limits.now.accounts ≤ 32 }
        requires users { limits.now.users ≤ 32 }
        requires hosts { limits.now.hosts ≤ 32 }
        ensures { IfOk result (λ places. places ≡ opening_places limits.now) }
    {
        Ok(Places {
            threads: vec![in alloc; None; limits.thread_instances as usize]?,
            accounts: vec![in alloc; None; limits.accounts as usize]?,
            users: vec![in alloc; None; limits.users as usize]?,
            hosts: vec![in alloc; None; limits.hosts as usize]?,
        })
    }

    /// The lowest free thread slot.
    pub(crate) fn free_slot(&self) -> Option<u64>
        ensures slot { result ≡ lowest_free self.now.threads }
        ensures inside { IfSome result (λ slot. slot < length self.now.threads) }
        ensures few { length self.now.threads ≤ 32 }
    {
        lowest_free(self.threads.as_slice())
    }

    /// The account of these names, with its place.
    pub(crate) fn account(&self, user: NameId, host: NameId) -> Option<(u64, Account)>
        ensures { as_found result ≡ found_where (is_account user host) self.now.accounts }
    {
        find_account(self.accounts.as_slice(), user, host)
    }

    /// A session as it is to stand in its slot, with its account, where that is there.
    pub(crate) fn connection(
        &self,
        number: u64,
        user: NameId,
        host: NameId,
        account: &Option<(u64, Account)>,
    ) -> Connection
        requires found { as_found account.now ≡ found_where (is_account user host) self.now.accounts }
        ensures session { result ≡ session_of self.now number user host }
        ensures places { IsSeated self.now result }
        ensures few { HasPlaces 32 32 32 result }
    {
        let (place, user_place, host_place) = match account {
            Some((place, entry)) => (Some(*place), entry.user, entry.host),
            None => (
                lowest_free(self.accounts.as_slice()),
                name_place(self.users.as_slice(), user),
                name_place(self.hosts.as_slice(), host),
            ),
        };
        Connection {
            number,
            user_name: user,
            host_name: host,
            account: place,
            user: user_place,
            host: host_place,
        }
    }

    /// Puts a session into a slot that is free, and its account and its names into their places, where those are free.
    pub(crate) fn seat(&mut self, slot: u64, connection: &Connection)
        requires slot { slot < length self.old.threads }
        requires places { IsSeated self.old connection.now }
        ensures { self.new ≡ stepped self.old (Connects slot connection.now) }
    {
        fill(self.threads.as_mut_slice(), Some(slot), *connection);
        fill(
            self.accounts.as_mut_slice(),
            connection.account,
            connection.entry(),
        );
        fill(
            self.users.as_mut_slice(),
            connection.user,
            connection.user_name,
        );
        fill(
            self.hosts.as_mut_slice(),
            connection.host,
            connection.host_name,
        );
    }

    /// The account at a place, and how many sessions have it; none where the place is free or isn't there.
    pub(crate) fn account_at(&self, place: u64) -> Option<(Account, u64)>
        ensures entry { result ≡ option_map (λ x. (x, current (λ y. y.account) self.now.threads place))
            (slice_index_or self.now.accounts place None) }
        ensures few { IfSome result (λ pair. HasUppers 32 32 pair.0) }
    {
        let current = current(self.threads.as_slice(), Upper::Account, place);
        match self.accounts.get(place as usize) {
            Some(Some(account)) => Some((*account, current)),
            _ => None,
        }
    }

    /// The name of the user at a place, and how many sessions have it.
    pub(crate) fn user_at(&self, place: u64) -> Option<(NameId, u64)>
        ensures { result ≡ option_map (λ x. (x, current (λ y. y.user) self.now.threads place))
            (slice_index_or self.now.users place None) }
    {
        let current = current(self.threads.as_slice(), Upper::User, place);
        match self.users.get(place as usize) {
            Some(Some(name)) => Some((*name, current)),
            _ => None,
        }
    }

    /// The name of the host at a place, and how many sessions have it.
    pub(crate) fn host_at(&self, place: u64) -> Option<(NameId, u64)>
        ensures { result ≡ option_map (λ x. (x, current (λ y. y.host) self.now.threads place))
            (slice_index_or self.now.hosts place None) }
    {
        let current = current(self.threads.as_slice(), Upper::Host, place);
        match self.hosts.get(place as usize) {
            Some(Some(name)) => Some((*name, current)),
            _ => None,
        }
    }

    /// The session in a slot.
    pub(crate) fn session(&self, slot: u64) -> Option<Connection>
        ensures entry { result ≡ slice_index_or self.now.threads slot None }
        ensures few { IfSome result (λ x. HasPlaces 32 32 32 x) }
    {
        match self.threads.get(slot as usize) {
            Some(Some(session)) => Some(*session),
            _ => None,
        }
    }

    /// The account at a place.
    pub(crate) fn account_in(&self, place: u64) -> Option<Account>
        ensures entry { result ≡ slice_index_or self.now.accounts place None }
        ensures few { IfSome result (λ x. HasUppers 32 32 x) }
    {
        match self.accounts.get(place as usize) {
            Some(Some(account)) => Some(*account),
            _ => None,
        }
    }

    /// The name of the user at a place.
    pub(crate) fn user(&self, place: u64) -> Option<NameId>
        ensures { result ≡ slice_index_or self.now.users place None }
    {
        match self.users.get(place as usize) {
            Some(Some(name)) => Some(*name),
            _ => None,
        }
    }

    /// The name of the host at a place.
    pub(crate) fn host(&self, place: u64) -> Option<NameId>
        ensures { result ≡ slice_index_or self.now.hosts place None }
    {
        match self.hosts.get(place as usize) {
            Some(Some(name)) => Some(*name),
            _ => None,
        }
    }

    /// Frees the lowest slot of a session.
    pub(crate) fn quit(&mut self, number: u64) -> Option<Seated>
        ensures step { self.new
            ≡ stepped self.old (quit_line (found_where (λ x. x.number == number) self.old.threads)) }
        ensures seat { result ≡ seated (found_where (λ x. x.number == number) self.old.threads) }
        ensures few { IfSome result IsInRange }
    {
        match find_session(self.threads.as_slice(), number) {
            Some((slot, connection)) => {
                self.threads[slot as usize] = None;
                Some(Seated { slot, connection })
            }
            None => None,
        }
    }

    /// Frees the accounts that no session has.
    pub(crate) fn free_accounts(&mut self)
        ensures { self.new ≡ stepped self.old FreesAccounts }
    {
        free_unused(
            self.accounts.as_mut_slice(),
            self.threads.as_slice(),
            Upper::Account,
        );
    }

    /// Frees the accounts and the users that no session has.
    pub(crate) fn free_users(&mut self)
        ensures { self.new ≡ stepped self.old FreesUsers }
    {
        self.free_accounts();
        free_unused(
            self.users.as_mut_slice(),
            self.threads.as_slice(),
            Upper::User,
        );
    }

    /// Frees the accounts and the hosts that no session has.
    pub(crate) fn free_hosts(&mut self)
        ensures { self.new ≡ stepped self.old FreesHosts }
    {
        self.free_accounts();
        free_unused(
            self.hosts.as_mut_slice(),
            self.threads.as_slice(),
            Upper::Host,
        );
    }

    /// Counts nothing for the accounts that no session has.
    pub(crate) fn forget_accounts(&self, totals: &mut [u64])
        ensures { totals.new ≡ totals_kept_from 0 (in_use (λ x. x.account) self.now.threads) totals.old }
    {
        forget_unused(totals, self.threads.as_slice(), Upper::Account);
    }

    /// Counts at each place the sessions that have it now.
    pub(crate) fn count_anew(&self, which: Upper, totals: &mut [u64])
        ensures { totals.new ≡ currents_from 0 (current (upper_of which) self.now.threads) totals.old }
    {
        count_anew(totals, self.threads.as_slice(), which);
    }
}

impl Connection {
    // The account of a session that has one.
    fn entry(&self) -> Account
        ensures { result ≡ entry_of self.now }
    {
        Account {
            user_name: self.user_name,
            host_name: self.host_name,
            user: self.user,
            host: self.host,
        }
    }
}
