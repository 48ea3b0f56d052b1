//! The limits of a run, with their names and ranges.

ghost use Rattle.std.specs.Prelude.{◌≡◌, ◌≢◌, ◌<◌, ◌≤◌, ◌↔◌, IsTrue, MatchOption, IfOk, IfErr};
ghost use Rattle.pfs_rows.specs.declared.limits.Limit.{Limit};
ghost use Rattle.pfs_rows.specs.Limits.{limit_name, least_of, most_of, value_of, with_limit, default_limits, AreInRange, IsFirstOutside};

use std::marker::Model;
use thiserror::Error;

/// A limit, in the order in which limits are tested.
#[derive(Clone, Copy, Debug, PartialEq, Eq)]
pub enum Limit {
    ThreadInstances,
    Accounts,
    Users,
    Hosts,
    Digests,
    StatementStack,
    MutexClasses,
    RwlockClasses,
    CondClasses,
    FileClasses,
    SocketClasses,
    StageClasses,
    StatementClasses,
}

/// The limits: room for threads, accounts, users, hosts and digest texts, how many statements may
/// be open one in another, and how many classes of a kind may be registered.
#[derive(Clone, Copy, Debug, PartialEq, Eq)]
pub struct Limits {
    pub thread_instances: u64,
    pub accounts: u64,
    pub users: u64,
    pub hosts: u64,
    pub digests: u64,
    pub statement_stack: u64,
    pub mutex_classes: u64,
    pub rwlock_classes: u64,
    pub cond_classes: u64,
    pub file_classes: u64,
    pub socket_classes: u64,
    pub stage_classes: u64,
    pub statement_classes: u64,
}

/// A limit is outside its range: the name of the first such.
#[derive(Clone, Copy, Debug, PartialEq, Eq, Error)]
#[error("the limit {name} is outside its range")]
pub struct BadLimits {
    pub name: &'static str,
}

/// Limits that are each in their range.
#[derive(Clone, Copy, Debug)]
pub struct Layout {
    limits: Limits,
}

impl Model for Layout {
    ghost use Rattle.pfs_rows.specs.declared.limits.Limits.{Limits};

    ghost Value = { Limits };

    ghost use Rattle.pfs_rows.specs.Limits.{AreInRange};

    ghost view = { λ a. a.limits };

    ghost invariant = { λ a. AreInRange a.limits };

    ghost inverse = { λ l. record { limits = l } };
}

impl Limit {
    /// All limits, in their order.
    pub const ALL: [Limit; 13] = [
        Limit::ThreadInstances,
        Limit::Accounts,
        Limit::Users,
        Limit::Hosts,
        Limit::Digests,
        Limit::StatementStack,
        Limit::MutexClasses,
        Limit::RwlockClasses,
        Limit::CondClasses,
        Limit::FileClasses,
        Limit::SocketClasses,
        Limit::StageClasses,
        Limit::StatementClasses,
    ];

    /// The limit's name in a script.
    pub fn name(self) -> &'static str
        ensures { result.now ≡ limit_name self }
    {
        match self {
            Limit::ThreadInstances => "thread_instances",
            Limit::Accounts => "accounts",
            Limit::Users => "users",
            Limit::Hosts => "hosts",
            Limit::Digests => "digests",
            Limit::StatementStack => "statement_stack",
            Limit::MutexClasses => "mutex_classes",
            Limit::RwlockClasses => "rwlock_classes",
            Limit::CondClasses => "cond_classes",
            Limit::FileClasses => "file_classes",
            Limit::SocketClasses => "socket_classes",
            Limit::StageClasses => "stage_classes",
            Limit::StatementClasses => "statement_classes",
        }
    }

    /// The limit of that name, compared byte by byte; none where no limit has it.
    pub fn find(name: &[u8]) -> Option<Limit>
        ensures { MatchOption result ((l : Limit) → limit_name l ≢ name.now) (λ l. limit_name l ≡ name.now) }
    {
        for limit in Limit::ALL {
            if limit.name().as_bytes() == name {
                return Some(limit);
            }
        }
        None
    }

    /// The least value that the limit may have.
    pub fn least(self) -> u64
        ensures { result ≡ least_of self }
    {
        match self {
            Limit::StatementStack => 1,
            _ => 0,
        }
    }

    /// The greatest value that the limit may have, which is also its value where a script gives
    /// none.
    pub fn most(self) -> u64
        ensures { result ≡ most_of self }
    {
        match self {
            Limit::ThreadInstances => 32,
            Limit::Accounts => 32,
            Limit::Users => 32,
            Limit::Hosts => 32,
            Limit::Digests => 64,
            Limit::StatementStack => 10,
            Limit::MutexClasses => 12,
            Limit::RwlockClasses => 8,
            Limit::CondClasses => 8,
            Limit::FileClasses => 8,
            Limit::SocketClasses => 4,
            Limit::StageClasses => 10,
            Limit::StatementClasses => 10,
        }
    }

    /// Whether the limit may have this value.
    pub fn allows(self, value: u64) -> bool
        ensures { IsTrue result ↔ ((least_of self ≤ value) × (value ≤ most_of self)) }
    {
        self.least() <= value && value <= self.most()
    }
}

impl Limits {
    /// The limits where a script gives none.
    pub fn opening() -> Limits
        ensures { result ≡ default_limits }
    {
        Limits {
            thread_instances: 32,
            accounts: 32,
            users: 32,
            hosts: 32,
            digests: 64,
            statement_stack: 10,
            mutex_classes: 12,
            rwlock_classes: 8,
            cond_classes: 8,
            file_classes: 8,
            socket_classes: 4,
            stage_classes: 10,
            statement_classes: 10,
        }
    }

    /// The value of one limit.
    pub fn get(&self, limit: Limit) -> u64
        ensures { result ≡ value_of self.now limit }
    {
        match limit {
            Limit::ThreadInstances => self.thread_instances,
            Limit::Accounts => self.accounts,
            Limit::Users => self.users,
            Limit::Hosts => self.hosts,
            Limit::Digests => self.digests,
            Limit::StatementStack => self.statement_stack,
            Limit::MutexClasses => self.mutex_classes,
            Limit::RwlockClasses => self.rwlock_classes,
            Limit::CondClasses => self.cond_classes,
            Limit::FileClasses => self.file_classes,
            Limit::SocketClasses => self.socket_classes,
            Limit::StageClasses => self.stage_classes,
            Limit::StatementClasses => self.statement_classes,
        }
    }

    /// Sets one limit, and leaves the others.
    pub fn set(&mut self, limit: Limit, value: u64)
        ensures { self.new ≡ with_limit self.old limit value }
    {
        match limit {
            Limit::ThreadInstances => self.thread_instances = value,
            Limit::Accounts => self.accounts = value,
            Limit::Users => self.users = value,
            Limit::Hosts => self.hosts = value,
            Limit::Digests => self.digests = value,
            Limit::StatementStack => self.statement_stack = value,
            Limit::MutexClasses => self.mutex_classes = value,
            Limit::RwlockClasses => self.rwlock_classes = value,
            Limit::CondClasses => self.cond_classes = value,
            Limit::FileClasses => self.file_classes = value,
            Limit::SocketClasses => self.socket_classes = value,
            Limit::StageClasses => self.stage_classes = value,
            Limit::StatementClasses => self.statement_classes = value,
        }
    }
}

impl Layout {
    /// The limits, checked. Refused exactly where a limit is outside its range, with the name of
    /// the first such in their order.
    pub fn new(limits: Limits) -> Result<Layout, BadLimits>
        ensures ok { IfOk result (λ l. (l ≡ limits) × AreInRange limits) }
        ensures err { IfErr result (λ bad. (l : Limit) × IsFirstOutside limits l × (bad.name.now ≡ limit_name l)) }
    {
        for limit in Limit::ALL {
            if !limit.allows(limits.get(limit)) {
                return Err(BadLimits { name: limit.name() });
            }
        }
        Ok(Layout { limits })
    }

    /// The limits that were checked.
    pub fn limits(&self) -> Limits
        ensures same { result ≡ self.now }
        ensures in_range { AreInRange result }
    {
        self.limits
    }
}
