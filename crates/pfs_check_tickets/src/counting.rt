//! How many puts of the long histories stand before a phase, and in it.

ghost use Rattle.std.specs.Prelude.{ℕ, ◌≡◌, ◌+◌, ◌==◌, ◌∷◌, [], List, cond, Some, IfOk, OnOk};
ghost use Rattle.std.specs.BTreeMap.{get};
ghost use Rattle.pfs_model.specs.EntryPlaces.{Placed};
ghost use Rattle.pfs_check_tickets.specs.PrintedPuts.{put_of};
ghost use Rattle.pfs_check_tickets.specs.PutCounts.{AreCounted, AreUpTo, all_of_kind, is_same_kind, kind_cmp, next_counts};

use crate::NoMemory;
use crate::puts::{Put, kind_of};
use std::alloc::{AllocError, Global};
use std::collections::BTreeMap;

/// A phase, and a kind of events.
#[derive(Clone, Copy, Debug, PartialEq, Eq, PartialOrd, Ord)]
pub struct PhaseKind {
    pub phase: u64,
    pub kind: u64,
}

/// How many puts of a kind stand before a phase, and in it.
#[derive(Clone, Copy, Debug, PartialEq, Eq)]
pub struct KindCounts {
    pub before: u64,
    pub puts: u64,
}

/// The puts of the long histories, counted.
#[derive(Debug, Drop)]
pub struct LongCounts {
    /// Of each kind.
    pub kinds: BTreeMap<u64, u64>,
    /// Of each phase and kind with a put.
    pub phases: BTreeMap<PhaseKind, KindCounts>,
}

fn one_more(count: u64) -> Result<u64, NoMemory>
    ensures { IfOk result (λ more. more ≡ count + 1) }
{
    match count.checked_add(1) {
        Some(more) => Ok(more),
        None => Err(AllocError),
    }
}

// Of a kind in a phase, one more behind so many of the kind.
fn next_counts(known: Option<KindCounts>, all: u64) -> Result<KindCounts, NoMemory>
    ensures { IfOk result (λ counts. counts ≡ next_counts known all) }
{
    match known {
        Some(counts) => {
            let puts = one_more(counts.puts)?;
            Ok(KindCounts {
                before: counts.before,
                puts,
            })
        }
        None => Ok(KindCounts {
            before: all,
            puts: 1,
        }),
    }
}

fn set_all(kinds: &mut BTreeMap<u64, u64>, kind: u64, all: u64) -> Result<(), NoMemory>
    ensures { OnOk result ((other : ℕ)
        → all_of_kind kinds.new other ≡ cond (kind == other) all (all_of_kind kinds.old other)) }
{
    kinds.insert(kind, all)?;
    Ok(())
}

fn set_counts(
    phases: &mut BTreeMap<PhaseKind, KindCounts>,
    key: PhaseKind,
    counts: KindCounts,
) -> Result<(), NoMemory>
    ensures { OnOk result ((other : PhaseKind)
        → get kind_cmp phases.new other ≡ cond (is_same_kind key other) (Some counts) (get kind_cmp phases.old other)) }
{
    phases.insert(key, counts)?;
    Ok(())
}

impl LongCounts {
    /// Of no entries. It takes no memory.
    pub(crate) fn new(alloc: Global) -> LongCounts
        ensures { AreCounted [] result }
    {
        LongCounts {
            kinds: BTreeMap::new(alloc),
            phases: BTreeMap::new(alloc),
        }
    }

    fn of_kind(&self, kind: u64) -> u64
        ensures { result ≡ all_of_kind self.now.kinds kind }
    {
        self.kinds.get(&kind).copied().unwrap_or(0)
    }

    /// Those of a kind in a phase; None where it has no put.
    pub(crate) fn of_phase(&self, key: PhaseKind) -> Option<KindCounts>
        ensures { result ≡ get kind_cmp self.now.phases key }
    {
        self.phases.get(&key).copied()
    }

    // One put more in this phase.
    fn count(&mut self, phase: u64, kind: u64) -> Result<(), NoMemory>
        ensures kinds { OnOk result ((other : ℕ) → all_of_kind self.new.kinds other
            ≡ cond (kind == other) (all_of_kind self.old.kinds kind + 1) (all_of_kind self.old.kinds other)) }
        ensures phases { OnOk result ((other : PhaseKind) → get kind_cmp self.new.phases other
            ≡ cond (is_same_kind (record { phase = phase; kind = kind }) other)
            (Some (next_counts (get kind_cmp self.old.phases (record { phase = phase; kind = kind }))
            (all_of_kind self.old.kinds kind))) (get kind_cmp self.old.phases other)) }
    {
        let key = PhaseKind { phase, kind };
        let all = self.of_kind(kind);
        let counts = next_counts(self.of_phase(key), all)?;
        let more = one_more(all)?;
        set_all(&mut self.kinds, kind, more)?;
        set_counts(&mut self.phases, key, counts)?;
        Ok(())
    }

    /// One entry more, the put that it is, in this phase, which is no earlier one than theirs. Err where memory runs
    /// out.
    pub(crate) fn note(&mut self, phase: u64, put: Option<Put>) -> Result<(), NoMemory>
        ensures { OnOk result ((earlier : List Placed) → (place : Placed) → place.phase ≡ phase
            → put_of place.line place.entry ≡ put → AreUpTo phase earlier → AreCounted earlier self.old
            → AreCounted (place ∷ earlier) self.new) }
    {
        match put {
            Some(put) => self.count(phase, kind_of(put.row)),
            None => Ok(()),
        }
    }
}
