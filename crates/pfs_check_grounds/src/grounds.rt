//! What the first seven rules find, and why none is asked any more.

use crate::NoMemory;
use pfs_board::Label;
use pfs_check_cut::CutPhase;
use pfs_check_faults::Rule;
use pfs_check_orders::Orders;
use pfs_check_versions::Versions;

/// What the first seven rules find of a report that keeps them.
#[derive(Drop)]
pub struct Grounds {
    /// Where the blocks of its phases, and their lines, are cut.
    pub cuts: Vec<CutPhase>,
    /// The labels of its actions, by their numbers from 1 on.
    pub labels: Vec<Label>,
    /// Where each action begins: its number is a version of row 0.
    pub actions: Versions,
    /// Where each change of a row stands.
    pub changes: Versions,
    /// What each action may ask for, where it finds room, and what it is answered.
    pub orders: Orders,
}

/// Why no further rule is asked.
#[derive(Clone, Copy, Debug, PartialEq, Eq)]
pub enum Stop {
    /// Memory ran out.
    NoMemory,
    /// This is the first rule that fails, and the first line at which it does, counted from 1.
    Wrong { rule: Rule, line: u64 },
}

impl From<NoMemory> for Stop {
    ghost use Rattle.std.specs.Prelude.{◌≡◌};
    ghost use Rattle.pfs_check_grounds.specs.declared.grounds.Stop.TheVariants.{NoMemory as ran_out};

    ghost from_gives = { λ _ stop. stop ≡ ran_out };

    fn from(_: NoMemory) -> Stop {
        Stop::NoMemory
    }
}
