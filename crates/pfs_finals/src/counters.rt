//! The counters of what was lost.

ghost use Rattle.std.specs.Prelude.{◌≡◌, ◌++◌, All, IfOk, OnOk};
ghost use Rattle.std.specs.List.{flat_map};
ghost use Rattle.pfs_finals.specs.Counters as spec;
ghost use Rattle.pfs_journal.specs.Reports.{IsLost};

use crate::NoMemory;
use pfs_classes::{Kind, Setting};
use pfs_journal::{LostList, LostReport};
use pfs_text::Text;
use std::alloc::Global;

/// What was lost of containers, digests and events: how many sessions found no thread slot, how many accounts, users
/// and hosts no place, how many digests no place, and how many statements and waits were too many to be open.
#[derive(Clone, Copy, Debug, PartialEq, Eq)]
pub struct LostCounters {
    pub threads: u64,
    pub accounts: u64,
    pub users: u64,
    pub hosts: u64,
    pub digests: u64,
    pub statements: u64,
    pub waits: u64,
}

/// A counter of what was lost, in the order of a report. The names are MySQL's, the order is our own.
#[derive(Clone, Copy, Debug, PartialEq, Eq)]
pub enum Counter {
    Threads,
    Accounts,
    Users,
    Hosts,
    Digests,
    NestedStatements,
    Lockers,
    MutexClasses,
    RwlockClasses,
    CondClasses,
    FileClasses,
    SocketClasses,
    StageClasses,
    StatementClasses,
}

impl Counter {
    /// All counters, in their order.
    pub const ALL: [Counter; 14] = [
        Counter::Threads,
        Counter::Accounts,
        Counter::Users,
        Counter::Hosts,
        Counter::Digests,
        Counter::NestedStatements,
        Counter::Lockers,
        Counter::MutexClasses,
        Counter::RwlockClasses,
        Counter::CondClasses,
        Counter::FileClasses,
        Counter::SocketClasses,
        Counter::StageClasses,
        Counter::StatementClasses,
    ];

    /// The counter's name.
    pub fn name(self) -> &'static str
        ensures { result.now ≡ spec.counter_name self }
    {
        match self {
            Counter::Threads => "Performance_schema_thread_instances_lost",
            Counter::Accounts => "Performance_schema_accounts_lost",
            Counter::Users => "Performance_schema_users_lost",
            Counter::Hosts => "Performance_schema_hosts_lost",
            Counter::Digests => "Performance_schema_digest_lost",
            Counter::NestedStatements => "Performance_schema_nested_statement_lost",
            Counter::Lockers => "Performance_schema_locker_lost",
            Counter::MutexClasses => "Performance_schema_mutex_classes_lost",
            Counter::RwlockClasses => "Performance_schema_rwlock_classes_lost",
            Counter::CondClasses => "Performance_schema_cond_classes_lost",
            Counter::FileClasses => "Performance_schema_file_classes_lost",
            Counter::SocketClasses => "Performance_schema_socket_classes_lost",
            Counter::StageClasses => "Performance_schema_stage_classes_lost",
            Counter::StatementClasses => "Performance_schema_statement_classes_lost",
        }
    }

    /// How much the counter counts.
    pub fn value(self, setting: &Setting, counters: &LostCounters) -> u64
        ensures { result ≡ spec.lost_by setting.now.classes counters.now self }
    {
        match self {
            Counter::Threads => counters.threads,
            Counter::Accounts => counters.accounts,
            Counter::Users => counters.users,
            Counter::Hosts => counters.hosts,
            Counter::Digests => counters.digests,
            Counter::NestedStatements => counters.statements,
            Counter::Lockers => counters.waits,
            Counter::MutexClasses => setting.classes.lost(Kind::Mutex),
            Counter::RwlockClasses => setting.classes.lost(Kind::Rwlock),
            Counter::CondClasses => setting.classes.lost(Kind::Cond),
            Counter::FileClasses => setting.classes.lost(Kind::File),
            Counter::SocketClasses => setting.classes.lost(Kind::Socket),
            Counter::StageClasses => setting.classes.lost(Kind::Stage),
            Counter::StatementClasses => setting.classes.lost(Kind::Statement),
        }
    }
}

// A counter with its value.
fn lost_report(alloc: Global, counter: Counter, number: u64) -> Result<LostReport, NoMemory>
    ensures { IfOk result (λ row. row ≡ record { name = spec.counter_name counter; number = number }) }
{
    Ok(LostReport {
        name: Text::from_slice(alloc, counter.name().as_bytes())?,
        number,
    })
}

// Puts a counter, where it isn't 0.
fn put_lost(
    alloc: Global,
    setting: &Setting,
    counters: &LostCounters,
    counter: Counter,
    rows: &mut Vec<LostReport>,
) -> Result<(), NoMemory>
    ensures { OnOk result (rows.new.items
        ≡ rows.old.items ++ spec.lost_row setting.now.classes counters.now counter) }
{
    let number = counter.value(setting, counters);
    if number == 0 {
        return Ok(());
    }
    rows.push(lost_report(alloc, counter, number)?)?;
    Ok(())
}

/// The counters that aren't 0, in the order of a report: those of these counts, and of the setting's lost classes. A
/// report can have each.
pub fn lost_rows(
    alloc: Global,
    setting: &Setting,
    counters: &LostCounters,
) -> Result<LostList, NoMemory>
    ensures rows { IfOk result (λ rows. rows
        ≡ flat_map (spec.lost_row setting.now.classes counters.now) spec.counters) }
    ensures good { IfOk result (λ rows. All IsLost rows) }
{
    let mut rows = Vec::new(alloc);
    for counter in &Counter::ALL {
        match put_lost(alloc, setting, counters, *counter, &mut rows) {
            Ok(()) => {}
            Err(fault) => return Err(fault),
        }
    }
    Ok(LostList::new(rows))
}
