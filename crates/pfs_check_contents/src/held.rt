//! The amounts of events that are held for rows.

ghost use Rattle.std.specs.Prelude.{◌≡◌, ◌∷◌, [], List, cond, Some, None, OnOk};
ghost use Rattle.std.specs.BTreeMap.{get};
ghost use Rattle.pfs_model.specs.Contents.{Given};
ghost use Rattle.pfs_model.specs.EntryPlaces.{Placed};
ghost use Rattle.pfs_check_contents.specs.declared.held.HeldAt.{HeldAt};
ghost use Rattle.pfs_check_contents.specs.HeldEvents.{AreHeld, brought_in, held_cmp, is_held_at, own_amount};
ghost use Rattle.pfs_check_contents.specs.RowEffects.{both_in};

use crate::NoMemory;
use pfs_event::Entry;
use pfs_stat::Stat;
use std::alloc::Global;
use std::collections::BTreeMap;

/// A session, and a row for which it holds events.
#[derive(Clone, Copy, Debug, PartialEq, Eq, PartialOrd, Ord)]
pub struct HeldAt {
    pub session: u64,
    pub row: u64,
}

/// What sessions hold for rows: the amount of all events that are held for a row.
#[derive(Debug, Drop)]
pub struct HeldAmounts {
    pub kept: BTreeMap<HeldAt, Stat>,
}

// Two amounts in one.
fn both(one: Option<Stat>, other: Option<Stat>) -> Option<Stat>
    ensures { result ≡ both_in one other }
{
    match one {
        Some(amount) => match other {
            Some(more) => Some(amount.merge(more)),
            None => one,
        },
        None => other,
    }
}

fn keep(kept: &mut BTreeMap<HeldAt, Stat>, at: HeldAt, amount: Stat) -> Result<(), NoMemory>
    ensures { OnOk result ((other : HeldAt) → get held_cmp kept.new other
        ≡ cond (is_held_at other at) (Some amount) (get held_cmp kept.old other)) }
{
    kept.insert(at, amount)?;
    Ok(())
}

fn forget(kept: &mut BTreeMap<HeldAt, Stat>, at: HeldAt)
    ensures { (other : HeldAt) → get held_cmp kept.new other
        ≡ cond (is_held_at other at) None (get held_cmp kept.old other) }
{
    kept.remove(&at);
}

fn amount_at(kept: &BTreeMap<HeldAt, Stat>, at: HeldAt) -> Option<Stat>
    ensures { result ≡ get held_cmp kept.now at }
{
    kept.get(&at).copied()
}

impl HeldAmounts {
    /// Nothing is held. It takes no memory.
    pub fn new(alloc: Global) -> HeldAmounts
        ensures { (given : Given) → AreHeld given [] result }
    {
        HeldAmounts {
            kept: BTreeMap::new(alloc),
        }
    }

    /// What an addition to a row brings there, where the event that has just ended adds this, if one has.
    pub fn brought(&self, session: u64, row: u64, own: Option<Stat>) -> Option<Stat>
        ensures { (given : Given) → (earlier : List Placed) → (place : Placed) → place.session ≡ session
            → own ≡ own_amount given place.session place.context.ended → AreHeld given earlier self.now
            → result ≡ brought_in given earlier place row }
    {
        both(own, amount_at(&self.kept, HeldAt { session, row }))
    }

    fn hold(&mut self, at: HeldAt, own: Option<Stat>) -> Result<(), NoMemory>
        ensures { OnOk result ((other : HeldAt) → get held_cmp self.new.kept other
            ≡ cond (is_held_at other at) (both_in own (get held_cmp self.old.kept other))
            (get held_cmp self.old.kept other)) }
    {
        match both(own, amount_at(&self.kept, at)) {
            Some(amount) => keep(&mut self.kept, at, amount),
            None => Ok(()),
        }
    }

    /// One entry more, where the event that has just ended adds this, if one has. Err where memory runs out.
    pub fn note(&mut self, session: u64, entry: &Entry, own: Option<Stat>) -> Result<(), NoMemory>
        ensures { OnOk result ((given : Given) → (earlier : List Placed) → (place : Placed) → place.session ≡ session
            → place.entry ≡ entry.now → own ≡ own_amount given place.session place.context.ended
            → AreHeld given earlier self.old → AreHeld given (place ∷ earlier) self.new) }
    {
        match *entry {
            Entry::Held { row, .. } => self.hold(HeldAt { session, row }, own),
            Entry::Add { row, .. } => {
                forget(&mut self.kept, HeldAt { session, row });
                Ok(())
            }
            _ => Ok(()),
        }
    }
}
