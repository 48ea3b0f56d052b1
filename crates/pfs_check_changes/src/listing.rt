//! The administration lines of each session.

ghost use Rattle.std.specs.Prelude.{ℕ, ◌≡◌, ◌++◌, ◌∷◌, [], ◌==◌, List, cond, false, IfOk, OnOk};
ghost use Rattle.pfs_script.specs.declared.blocks.Block.{Block};
ghost use Rattle.pfs_check_changes.specs.ActionNumbers.{AreListed, AreListedTo, numbers_at};

use crate::NoMemory;
use crate::actions::{Actions, put_action};
use crate::changes::connect_change;
use crate::repeats::put_written;
use pfs_script::{Block, Phase};
use std::alloc::Global;
use std::collections::BTreeMap;

// Takes out the numbers of a session.
fn take_numbers(alloc: Global, numbers: &mut BTreeMap<u64, Vec<usize>>, session: u64) -> Vec<usize>
    ensures own { result.items ≡ numbers_at numbers.old session }
    ensures others { (other : ℕ) → (session == other) ≡ false
        → numbers_at numbers.new other ≡ numbers_at numbers.old other }
{
    match numbers.remove(&session) {
        Some(own) => own,
        None => Vec::new(alloc),
    }
}

fn put_back(
    numbers: &mut BTreeMap<u64, Vec<usize>>,
    session: u64,
    own: Vec<usize>,
) -> Result<(), NoMemory>
    ensures { OnOk result ((other : ℕ) → numbers_at numbers.new other
        ≡ cond (session == other) own.items (numbers_at numbers.old other)) }
{
    numbers.insert(session, own)?;
    Ok(())
}

// One block more.
fn list_block(alloc: Global, actions: &mut Actions, block: &Block) -> Result<(), NoMemory>
    ensures { (blocks : List Block) → AreListedTo blocks actions.old
        → OnOk result (AreListedTo (blocks ++ block.now ∷ []) actions.new) }
{
    let mut own = take_numbers(alloc, &mut actions.numbers, block.session);
    let connect = connect_change(&block.connect);
    put_action(&mut actions.changes, &mut own, connect)?;
    put_written(
        alloc,
        &mut actions.changes,
        &mut own,
        block.lines.as_slice(),
    )?;
    put_back(&mut actions.numbers, block.session, own)
}

fn list_blocks(alloc: Global, actions: &mut Actions, said: &[Block]) -> Result<(), NoMemory>
    ensures { (blocks : List Block) → AreListedTo blocks actions.old
        → OnOk result (AreListedTo (blocks ++ said.now) actions.new) }
{
    for block in said {
        list_block(alloc, actions, block)?;
    }
    Ok(())
}

fn none_listed(alloc: Global) -> Actions
    ensures { AreListedTo [] result }
{
    Actions {
        changes: Vec::new(alloc),
        numbers: BTreeMap::new(alloc),
    }
}

/// The administration lines of each session of these phases. Texts of SQL are read here, each line once. Err is
/// NoMemory alone.
pub fn list_actions(alloc: Global, phases: &[Phase]) -> Result<Actions, NoMemory>
    ensures { IfOk result (AreListed phases.now) }
{
    let mut actions = none_listed(alloc);
    for phase in phases {
        list_blocks(alloc, &mut actions, phase.blocks.as_slice())?;
    }
    Ok(actions)
}
