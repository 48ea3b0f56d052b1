//! The root reads a report's tables between two settlements.

ghost use Rattle.std.specs.Prelude.{◌≡◌, ◌≤◌, ◌*◌, List, length, IfOk};
ghost use Rattle.pfs_admin.specs.OpeningState.{opening_flags};
ghost use Rattle.pfs_board.specs.Knowledge.{IsWhole};
ghost use Rattle.pfs_board_admin.specs.LabelWords.{AllKeepWords, version_after};
ghost use Rattle.pfs_board_store.specs.RootActors.{AreGathered, Worked, calls_of_all};
ghost use Rattle.pfs_levels.specs.CallOrder.{AllCalls};
ghost use Rattle.pfs_matching.specs.ObjectRules.{opening_objects};
ghost use Rattle.pfs_tickets.specs.Knowledge.{IsWhole as HasAllDraws};
ghost use Rattle.pfs_board_tables.specs.EndTables.{HasReadAlone, HasReadTables};

use crate::NoMemory;
use pfs_admin::Lost;
use pfs_board_admin::Shared;
use pfs_board_root::{Began, Reading, Root, laws};
use pfs_classes::Setting;
use pfs_finals::final_tables;
use pfs_journal::TableList;
use std::alloc::Global;
use std::marker::Brand;

/// What was read at a phase's end, and what of containers found no place until then.
#[derive(Drop)]
pub struct EndRead {
    /// The tables that have rows, in a report's order.
    pub tables: TableList,
    /// What found no place of threads, accounts, users and hosts.
    pub lost: Lost,
}

/// Once a phase's seats are in, on a board that has the rows of a run: the root settles, reads the tables that a report
/// shows, and settles again. Out of memory the root is given up.
pub fn read_tables<'b, N: Shared>(
    alloc: Global,
    setting: &Setting,
    root: Root<'b, N>,
) -> Result<(Root<'b, N>, EndRead), NoMemory>
    requires setting { N.setting ≡ setting.now }
    requires whole { IsWhole root.seat × HasAllDraws root.draws }
    requires wide { 17 * 14242 ≤ length root.seat.start }
    ensures { IfOk result (λ r. (actors : List Worked)
        → AreGathered actors root.entry.seat root.entry.words root.entry.draws
        → AllCalls (AllKeepWords (version_after setting.now N.change)) (calls_of_all actors)
        → HasReadTables setting.now N.change N.switches actors r.1.tables r.1.lost root.entry r.0) }
{
    laws::last();
    let mut root = root;
    let _ = root.settle();
    let (mut root, tables) = read_alone::<N, Brand>(alloc, setting, root)?;
    let lost = root.settle();
    Ok((root, EndRead { tables, lost }))
}

// The root reads the tables, and is one actor more then. What it was as it began is the type's to say.
fn read_alone<'b, N: Shared, W: Began>(
    alloc: Global,
    setting: &Setting,
    root: Root<'b, N>,
) -> Result<(Root<'b, N>, TableList), NoMemory>
    requires was { W.was ≡ root }
    requires whole { IsWhole root.seat }
    ensures { IfOk result
        (λ r. HasReadAlone setting.now (opening_flags N.setting opening_objects) r.1 root.entry r.0) }
{
    let mut reading: Reading<'b, N, W> = Reading::new(root);
    let tables = final_tables(alloc, setting, &mut reading)?;
    Ok((reading.into_root(), tables))
}
