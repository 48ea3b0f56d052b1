//! `setup_actors`: which sessions are instrumented.
ghost use Rattle.std.specs.Prelude.{◌≡◌, ℕ, ◌+◌, ◌<◌, ◌≤◌, ◌↔◌, [], ◌∷◌, ◌++◌, length, map, All, Contains, IfOk, IsTrue, OnOk, OnErr, Some, slice_get, vec_capacity, vec_len};
ghost use Rattle.std.specs.List.{find, list_any, prefix_len};
ghost use Rattle.std.specs.List.Sorted.{IsStrictlyIncreasing};
ghost use Rattle.std.specs.Option.{option_map};
ghost use Rattle.std.specs.Ordering.{is_eq};
ghost use Rattle.pfs_matching.specs.KeyedRows.{AreRows, comes_before, key_cmp, with_named_changed, with_row, without_named};
ghost use Rattle.pfs_matching.specs.ActorRules.{actor_flags, actor_has, actor_key, actor_says, changed_actor, opening_actors};

use crate::keyed_rows::{KeyedRow, KeyedRows, MOST_ROWS};
use crate::{FlagChange, MatchFault, NoMemory};
use pfs_text::Text;
use std::alloc::Global;
use std::cmp::Ordering;
use std::marker::Model;

/// A row of `setup_actors`: HOST, USER, ROLE, ENABLED and HISTORY. The text `%` stands for any host or user.
#[derive(Debug, Drop)]
pub struct ActorRow {
    pub host: Text,
    pub user: Text,
    pub role: Text,
    pub enabled: bool,
    pub history: bool,
}

impl KeyedRow for ActorRow {
    ghost use Rattle.std.specs.Prelude.{refl};
    ghost use Rattle.pfs_matching.specs.ActorRules.{actor_key, changed_actor};

    ghost key = { actor_key };

    ghost changed = { changed_actor };

    ghost keeps = { λ change row. refl };

    fn order(&self, other: &ActorRow) -> Ordering {
        self.host
            .cmp(&other.host)
            .then(self.user.cmp(&other.user))
            .then(self.role.cmp(&other.role))
    }

    fn change(&mut self, change: &FlagChange) {
        self.enabled = change.first.unwrap_or(self.enabled);
        self.history = change.second.unwrap_or(self.history);
    }
}

/// The rows of `setup_actors` in the order of HOST, USER and ROLE by their bytes, with room for 100.
#[derive(Drop)]
pub struct Actors {
    rows: KeyedRows<ActorRow>,
}

impl Model for Actors {
    ghost use Rattle.std.specs.Prelude.{List};
    ghost use Rattle.pfs_matching.specs.declared.actor_rows.ActorRow.{ActorRow};

    ghost Value = { List ActorRow };

    ghost view = { λ a. a.rows };
}

impl Actors {
    /// The opening row: every actor, with YES and YES. The room for 100 rows is taken here, and no other call takes
    /// memory.
    pub fn open(alloc: Global) -> Result<Actors, NoMemory>
        ensures { IfOk result (λ actors. actors ≡ opening_actors) }
    {
        let mut rows = Vec::with_capacity(alloc, MOST_ROWS)?;
        let row = ActorRow {
            host: Text::from_slice(alloc, b"%")?,
            user: Text::from_slice(alloc, b"%")?,
            role: Text::from_slice(alloc, b"%")?,
            enabled: true,
            history: true,
        };
        rows.push_reserved(row);
        Ok(Actors {
            rows: KeyedRows::new(rows),
        })
    }

    /// The number of rows.
    pub fn count(&self) -> usize
        ensures number { result ≡ length self.now }
        ensures rows { AreRows actor_key self.now }
    {
        self.rows.rows().len()
    }

    /// The row at a place in key order.
    pub fn row(&self, place: usize) -> &ActorRow
        requires { place < length self.now }
        ensures { slice_get self.now place ≡ Some result.now }
    {
        &self.rows.rows()[place]
    }

    /// Adds a row at its place in key order. It comes with its own texts, so this takes no memory. Duplicate comes
    /// exactly where a row with this HOST, USER and ROLE is there, and is tested before Full, which comes exactly at
    /// 100 rows. The limit is our own. A refusal changes nothing.
    pub fn insert(&mut self, row: ActorRow) -> Result<(), MatchFault>
        ensures ok { OnOk result (self.new ≡ with_row actor_key row self.old) }
        ensures duplicate { (result ≡ Err MatchFault.Duplicate) ↔ Contains (map actor_key self.old) (actor_key row) }
        ensures full { (result ≡ Err MatchFault.Full)
            ↔ ((¬ Contains (map actor_key self.old) (actor_key row)) × (length self.old ≡ 100)) }
        ensures err { OnErr result (self.new ≡ self.old) }
    {
        self.rows.insert(row)
    }

    /// Removes the rows at these places, which ascend.
    pub fn delete(&mut self, keys: &[usize])
        requires inside { All (λ place. place < length self.old) keys.now }
        requires ascending { IsStrictlyIncreasing keys.now }
        ensures { self.new ≡ without_named keys.now self.old }
    {
        self.rows.delete(keys);
    }

    /// Changes ENABLED and HISTORY of the rows at these places, which ascend.
    pub fn update(&mut self, keys: &[usize], change: &FlagChange)
        requires inside { All (λ place. place < length self.old) keys.now }
        requires ascending { IsStrictlyIncreasing keys.now }
        ensures { self.new ≡ with_named_changed (changed_actor change.now) keys.now self.old }
    {
        self.rows.update(keys, change);
    }

    /// Removes all rows.
    pub fn truncate(&mut self)
        ensures { self.new ≡ [] }
    {
        self.rows.truncate();
    }

    /// ENABLED and HISTORY for a new session: those of the row with its host and user; else with HOST `%` and its
    /// user; else with its host and USER `%`; else with `%` for both; else NO and NO. This is MySQL's order. That of
    /// rows with equal HOST and USER the one with the least ROLE by bytes counts is our own rule. `%` is no pattern
    /// here: it stands alone.
    pub fn decide(&self, user: &[u8], host: &[u8]) -> (bool, bool)
        ensures { result ≡ actor_flags self.now user.now host.now }
    {
        let rows = self.rows.rows();
        if let Some(flags) = first_flags(rows, host, user) {
            return flags;
        }
        if let Some(flags) = first_flags(rows, b"%", user) {
            return flags;
        }
        if let Some(flags) = first_flags(rows, host, b"%") {
            return flags;
        }
        first_flags(rows, b"%", b"%").unwrap_or((false, false))
    }
}

// ENABLED and HISTORY of the first row with this HOST and USER.
fn first_flags(rows: &[ActorRow], host: &[u8], user: &[u8]) -> Option<(bool, bool)>
    ensures { result ≡ option_map actor_says (find (actor_has (host.now, user.now)) rows.now) }
{
    rows.iter()
        .find(|row| row.host.as_bytes() == host && row.user.as_bytes() == user)
        .map(|row| (row.enabled, row.history))
}
