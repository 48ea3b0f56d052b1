//! The actions of a report, one after another by their numbers.

ghost use Rattle.std.specs.Prelude.{◌≡◌, ◌≤◌, ◌++◌, ◌∷◌, [], List, IfOk, OnOk};
ghost use Rattle.pfs_admin.specs.OpeningState.{opened};
ghost use Rattle.std.specs.Option.{option_copied};
ghost use Rattle.pfs_admin.specs.declared.changes.Change.{Change};
ghost use Rattle.pfs_admin.specs.declared.changes.Change.TheVariants as changes;
ghost use Rattle.pfs_admin.specs.declared.changes.SetupStatement.TheVariants.{Show};
ghost use Rattle.pfs_board.specs.declared.view.Label.{Label};
ghost use Rattle.pfs_classes.specs.declared.setting.Setting.{Setting};
ghost use Rattle.pfs_runs.specs.ScriptLines.{change_in};
ghost use Rattle.pfs_check_blank.specs.ReadyStores.{IsReady};
ghost use Rattle.pfs_check_changes.specs.ActionNumbers.{show_if};
ghost use Rattle.pfs_check_orders.specs.ActionOrders.{AreOrders, IsNamed};
ghost use Rattle.pfs_check_orders.specs.HeldCopies.{AreShown};
ghost use Rattle.pfs_check_orders.specs.InfoWords.{AreInfos};
ghost use Rattle.pfs_check_orders.specs.Replays.{IsReplayed};

use crate::NoMemory;
use crate::asking::ask;
use crate::infos::keep_infos;
use crate::orders::{Order, Orders};
use crate::shows::HeldCopies;
use pfs_admin::{Admin, Change, SetupStatement, opening_flags};
use pfs_board::Label;
use pfs_check_blank::Blank;
use pfs_check_changes::list_actions;
use pfs_classes::Setting;
use pfs_event::Log;
use pfs_script::Phase;
use std::alloc::{AllocError, Global};

/// More than any action asks for, as entries.
const MOST: u64 = 19_202;

/// So much room is made at once.
const ROOM: u64 = 65_536;

/// The administration behind the actions so far, and what is kept of these.
#[derive(Drop)]
pub(crate) struct Replayed {
    pub admin: Admin,
    pub blank: Blank,
    pub kept: Orders,
}

fn make_room(log: &mut Log) -> Result<(), NoMemory>
    ensures room { OnOk result (19202 ≤ log.new.room) }
    ensures same { OnOk result (log.new.entries ≡ log.old.entries) }
{
    if log.room() < MOST {
        log.reserve(ROOM)?;
    }
    Ok(())
}

fn blank_of(alloc: Global, setting: &Setting, admin: &Admin) -> Result<Blank, NoMemory>
    ensures { admin.now ≡ opened setting.now → IfOk result (λ blank. IsReady admin.now.words blank) }
{
    let flags = opening_flags(alloc, setting, admin.objects())?;
    Blank::open(alloc, flags.as_slice())
}

// What an action changes; one that has no line only reads.
fn change_or<'a>(found: Option<&'a Change>, show: &'a Change) -> &'a Change
    ensures { show.now ≡ changes.Setup Show → result.now ≡ show_if (option_copied found.entry) }
{
    match found {
        Some(change) => change,
        None => show,
    }
}

impl Replayed {
    fn open(alloc: Global, setting: &Setting) -> Result<Replayed, NoMemory>
        ensures { (change : Label → Change) → IfOk result (λ replay. IsReplayed setting.now change [] replay.admin
            replay.blank replay.kept) }
    {
        let admin = Admin::open(alloc, setting)?;
        let blank = blank_of(alloc, setting, &admin)?;
        let kept = Orders {
            entries: Log::new(alloc),
            infos: Vec::new(alloc),
            held: HeldCopies::new(alloc),
            orders: Vec::new(alloc),
        };
        Ok(Replayed { admin, blank, kept })
    }

    // One action more. Where there are more than a number of actions counts, memory is said to have run out.
    fn go_on(&mut self, alloc: Global, session: u64, what: &Change) -> Result<(), NoMemory>
        requires named { IsNamed self.old.admin.names what.now }
        requires ready { IsReady self.old.admin.words self.old.blank }
        ensures { (setting : Setting) → (change : Label → Change) → (labels : List Label) → (label : Label)
            → label.session ≡ session → change label ≡ what.now
            → IsReplayed setting change labels self.old.admin self.old.blank self.old.kept
            → OnOk result (IsReplayed setting change (labels ++ label ∷ []) self.new.admin
            self.new.blank self.new.kept) }
    {
        if self.admin.actions() >= 1 << 47 {
            return Err(AllocError);
        }
        pfs_admin::laws::one_label_more();
        pfs_check_blank::laws::asks();
        make_room(&mut self.kept.entries)?;
        let held = self.kept.held.copy_for(alloc, &self.admin, what)?;
        let order = ask(
            &mut self.admin,
            &mut self.blank,
            &mut self.kept.entries,
            session,
            what,
        )?;
        let order = keep_infos(&mut self.kept.infos, &self.blank, &self.kept.entries, order)?;
        self.kept.held.follow(what);
        self.kept.orders.push(Order { held, ..order })?;
        Ok(())
    }
}

/// Replays the administration of a script by these labels of its actions, the first action first. Each connect of the
/// script gives names of the setting. Err where memory runs out.
pub fn replay(
    alloc: Global,
    setting: &Setting,
    phases: &[Phase],
    labels: &[Label],
) -> Result<Orders, NoMemory>
    requires { (label : Label) → IsNamed setting.now.names (change_in phases.now label) }
    ensures orders { IfOk result (λ kept. AreOrders setting.now (change_in phases.now) labels.now kept.entries.entries
        kept.orders.items) }
    ensures infos { IfOk result (λ kept. AreInfos setting.now (change_in phases.now) labels.now kept.infos.items
        kept.orders.items) }
    ensures shown { IfOk result (λ kept. AreShown setting.now (change_in phases.now) labels.now kept.held.tables.items
        kept.orders.items) }
{
    pfs_admin::laws::names_and_cells_stay();
    let actions = list_actions(alloc, phases)?;
    let mut replay = Replayed::open(alloc, setting)?;
    for label in labels {
        let show = Change::Setup(SetupStatement::Show);
        let what = change_or(actions.change(*label), &show);
        replay.go_on(alloc, label.session, what)?;
    }
    Ok(replay.kept)
}
