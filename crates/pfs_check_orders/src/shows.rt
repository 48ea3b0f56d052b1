//! The rows of the setup tables before each action that reads them.

ghost use Rattle.std.specs.Prelude.{ℕ, ◌≡◌, ◌-◌, ◌++◌, List, IfOk, OnOk, length, true};
ghost use Rattle.pfs_admin.specs.AdministrationStates.{State};
ghost use Rattle.pfs_admin.specs.Fold.{stepped};
ghost use Rattle.pfs_admin.specs.declared.changes.Change.TheVariants as changes;
ghost use Rattle.pfs_admin.specs.declared.changes.SetupStatement.TheVariants as statements;
ghost use Rattle.pfs_admin.specs.declared.changes.Change.{Change};
ghost use Rattle.pfs_board.specs.declared.view.Label.{Label};
ghost use Rattle.pfs_classes.specs.declared.setting.Setting.{Setting};
ghost use Rattle.pfs_runs.specs.Labels.{before_action};
ghost use Rattle.pfs_runs.specs.SelectAnswers.{AnswersHeld};
ghost use Rattle.pfs_setups.specs.HeldRows.{IsHeld};
ghost use Rattle.pfs_check_orders.specs.HeldCopies.{AreHeld, AreShown, IsCurrent, IsRead, IsSame, StandsAt};
ghost use Rattle.pfs_check_orders.specs.declared.held.HeldTables.{HeldTables};

use crate::NoMemory;
use crate::held::{HeldTables, copy_tables};
use crate::infos::order_before;
use crate::orders::Orders;
use pfs_admin::{Admin, Change, SetupStatement};
use pfs_exec::{Select, select};
use pfs_rows::Table;
use pfs_text::Rowset;
use std::alloc::Global;

/// Copies of the rows of the setup tables, one for all actions that read them as they stand there.
#[derive(Drop)]
pub struct HeldCopies {
    pub(crate) tables: Vec<HeldTables>,
    /// The last copy is of the rows as they stand.
    pub(crate) current: bool,
}

// Rows of a setup table are read.
fn is_read(what: &Change) -> bool
    ensures { what.now ≡ changes.Setup statements.Show → result ≡ true }
{
    match what {
        Change::Setup(SetupStatement::Show) => true,
        _ => false,
    }
}

// It may change rows of a setup table that the administration holds.
fn may_change(what: &Change) -> bool
    ensures { (s : State) → (session : ℕ) → IsSame what.now result s session }
{
    match what {
        Change::Connect { .. } | Change::Quit => false,
        Change::Truncate(_) => true,
        Change::Setup(what) => !matches!(what, SetupStatement::Show),
    }
}

impl HeldCopies {
    pub(crate) fn new(alloc: Global) -> HeldCopies
        ensures { (s : State) → IsCurrent s result }
    {
        HeldCopies {
            tables: Vec::new(alloc),
            current: false,
        }
    }

    // The last copy is of the rows as they stand.
    fn renew(&mut self, alloc: Global, admin: &Admin) -> Result<(), NoMemory>
        ensures stands { IsCurrent admin.now self.old
            → OnOk result (StandsAt admin.now self.new.tables.items (length self.new.tables.items - 1)) }
        ensures more { OnOk result ((more : List HeldTables) × (self.new.tables.items ≡ self.old.tables.items ++ more)) }
    {
        if self.current {
            return Ok(());
        }
        let tables = copy_tables(alloc, admin)?;
        self.tables.push(tables)?;
        self.current = true;
        Ok(())
    }

    /// Where a copy of the rows stands as they are before an action, if it reads them. Err where memory runs out.
    pub(crate) fn copy_for(
        &mut self,
        alloc: Global,
        admin: &Admin,
        what: &Change,
    ) -> Result<usize, NoMemory>
        ensures stands { IsCurrent admin.now self.old → what.now ≡ changes.Setup statements.Show
            → IfOk result (StandsAt admin.now self.new.tables.items) }
        ensures current { IsCurrent admin.now self.old → OnOk result (IsCurrent admin.now self.new) }
        ensures more { OnOk result ((more : List HeldTables) × (self.new.tables.items ≡ self.old.tables.items ++ more)) }
    {
        if !is_read(what) {
            return Ok(0);
        }
        self.renew(alloc, admin)?;
        Ok(self.tables.len().saturating_sub(1))
    }

    /// The action was made.
    pub(crate) fn follow(&mut self, what: &Change)
        ensures current { (s : State) → (session : ℕ) → IsCurrent s self.old
            → IsCurrent (stepped s session what.now) self.new }
        ensures tables { self.new.tables.items ≡ self.old.tables.items }
    {
        if may_change(what) {
            self.current = false;
        }
    }
}

// What a SELECT on one of the setup tables answers over a copy of their rows.
fn answer_of(alloc: Global, tables: &HeldTables, query: &Select) -> Result<Rowset, NoMemory>
    requires held { IsHeld query.now.table }
    ensures { (s : State) → AreHeld s tables.now → IfOk result (AnswersHeld query.now s.actors s.objects) }
{
    match query.table {
        Table::SetupActors => select(alloc, query, &tables.actors),
        Table::SetupObjects => select(alloc, query, &tables.objects),
        _ => unreachable!(),
    }
}

// The same over the copy at a place; no rows where there is none.
fn answer_at(
    alloc: Global,
    copies: &[HeldTables],
    place: usize,
    query: &Select,
) -> Result<Rowset, NoMemory>
    requires held { IsHeld query.now.table }
    ensures { (s : State) → StandsAt s copies.now place → IfOk result (AnswersHeld query.now s.actors s.objects) }
{
    if place >= copies.len() {
        return Ok(Rowset::new(Vec::new(alloc)));
    }
    answer_of(alloc, &copies[place], query)
}

impl Orders {
    /// What a SELECT on `setup_actors` or `setup_objects` answers that is the action of a number, counted from 1: over
    /// the rows as the administration holds them before it. Err where memory runs out.
    pub fn answer(&self, alloc: Global, number: u64, query: &Select) -> Result<Rowset, NoMemory>
        requires held { IsHeld query.now.table }
        ensures { (setting : Setting) → (change : Label → Change) → (labels : List Label)
            → AreShown setting change labels self.now.held.tables.items self.now.orders.items
            → IsRead change labels number → IfOk result (AnswersHeld query.now
            (before_action setting change labels number).actors (before_action setting change labels number).objects) }
    {
        let place = match order_before(self.orders.as_slice(), number.saturating_sub(1)) {
            Some(order) => order.held,
            None => 0,
        };
        answer_at(alloc, self.held.tables.as_slice(), place, query)
    }
}
