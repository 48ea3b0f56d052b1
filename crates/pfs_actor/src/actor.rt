//! A store whose actions are calls.

ghost use Rattle.std.specs.Prelude.{◌≡◌, ◌<◌, ◌+◌, ◌^◌, ℕ, [], ◌∷◌, IfOk, None, OnErr, length};
ghost use Rattle.pfs_levels.specs.Calls.{Goes};
ghost use Rattle.pfs_levels.specs.Views.{Affords, Same, Used};
ghost use Rattle.pfs_admin.specs.SetupStatements.{most_of};
ghost use Rattle.pfs_admin.specs.declared.changes.Change.TheVariants.{Connect, Quit, Setup, Truncate};
ghost use Rattle.pfs_admin.specs.declared.changes.SetupStatement.TheVariants.{Show};
ghost use Rattle.pfs_law_plain.specs.Spells.{label_of};
ghost use Rattle.pfs_law_session.specs.Deeds.{Changing, Connecting, IsReplied, Quitting, Truncating};
ghost use Rattle.pfs_session.specs.SessionStates.{no_place, nothing_held};
ghost use Rattle.pfs_session.specs.Settlements.{owed_by_state, settle_cost};
ghost use Rattle.pfs_session.specs.Turns.{Played, SettlesHeld};
ghost use Rattle.pfs_setups.specs.HeldRows.{IsHeld};
ghost use Rattle.pfs_actor.specs.ActionAsks.{MayAct, MayConnect};
ghost use Rattle.pfs_actor.specs.ActorDeeds.{HasActed, HasBrokenOff, HasShown};

use crate::NoMemory;
use pfs_admin::{SetupStatement, Truncation};
use pfs_exec::Select;
use pfs_levels::Rows;
use pfs_names::NameId;
use pfs_session::{Paused, Session};
use pfs_text::Rowset;
use std::alloc::Global;

/// A store that does whole actions for sessions. Its administration is inside: what an action finds of it is the fold
/// of the labels that stand before it, whoever made them, and no caller hands one along. Between two calls no row is in
/// hand and no word may be set.
pub trait Actor: Rows {
    ghost use Rattle.pfs_board.specs.declared.view.Label.{Label};
    ghost use Rattle.pfs_classes.specs.declared.setting.Setting.{Setting};
    ghost use Rattle.pfs_admin.specs.declared.changes.Change.{Change};

    /// What the run's script fixes.
    ghost setting: { Setting };

    /// What the action of each label changes.
    ghost change: { Label → Change };

    /// Connects a session, its first action: it gets the places that the administration finds for this user and this
    /// host.
    fn connect(&mut self, session: &mut Session, user: NameId, host: NameId)
        requires named { change (label_of session.old.state) ≡ Connect user host }
        requires may { MayConnect session.old.state setting user host }
        requires acts { MayAct 5 6 (Self.seen self.old) session.old.journal }
        ensures acted { HasActed setting change (λ admin. Connecting admin user host) session.old session.new
            (Self.seen self.old).reached (Self.seen self.new).reached }
        ensures rest { session.new.state ≡ record session.old.state {
          place = session.new.state.place;
          actions = 1;
          last = session.new.state.last;
        } }
        ensures used { Used 5 0 6 (Self.seen self.old) (Self.seen self.new) session.old.journal session.new.journal };

    /// Ends a session's connection, an action: what it holds is settled first. Nothing may be open.
    fn quit(&mut self, session: &mut Session)
        requires named { change (label_of session.old.state) ≡ Quit }
        requires closed { session.old.state.opened.events ≡ [] }
        requires early { session.old.state.actions + 1 < 2 ^ 64 }
        requires acts { MayAct (length (owed_by_state session.old.state) + 253) (settle_cost
            (owed_by_state session.old.state) + 254) (Self.seen self.old) session.old.journal }
        ensures acted { HasActed setting change Quitting session.old session.new (Self.seen self.old).reached
            (Self.seen self.new).reached }
        ensures rest { session.new.state ≡ record session.old.state {
          place = no_place;
          held = nothing_held;
          actions = session.old.state.actions + 1;
          last = session.new.state.last;
        } }
        ensures used { Used (length (owed_by_state session.old.state) + 253) 0 (settle_cost
            (owed_by_state session.old.state) + 254) (Self.seen self.old) (Self.seen self.new) session.old.journal
            session.new.journal };

    /// Truncates a table, an action: what the session holds is settled first. The journal gets the answer, which is 0.
    fn truncate(&mut self, session: &mut Session, what: Truncation)
        requires named { change (label_of session.old.state) ≡ Truncate what }
        requires early { session.old.state.actions + 1 < 2 ^ 64 }
        requires acts { MayAct (length (owed_by_state session.old.state) + 19203) (settle_cost
            (owed_by_state session.old.state) + 19204) (Self.seen self.old) session.old.journal }
        ensures acted { HasActed setting change (λ admin. Truncating admin what) session.old session.new
            (Self.seen self.old).reached (Self.seen self.new).reached }
        ensures rest { session.new.state ≡ record session.old.state {
          held = nothing_held;
          actions = session.old.state.actions + 1;
          last = session.new.state.last;
        } }
        ensures used { Used (length (owed_by_state session.old.state) + 19203) 0 (settle_cost
            (owed_by_state session.old.state) + 19204) (Self.seen self.old) (Self.seen self.new) session.old.journal
            session.new.journal };

    /// Does a statement on a setup table, an action: what the session holds is settled first. The journal gets the
    /// answer.
    fn act(&mut self, session: &mut Session, what: SetupStatement)
        requires named { change (label_of session.old.state) ≡ Setup what }
        requires replied { IsReplied what }
        requires early { session.old.state.actions + 1 < 2 ^ 64 }
        requires acts { MayAct (length (owed_by_state session.old.state) + 1) (settle_cost
            (owed_by_state session.old.state) + (most_of what + 2)) (Self.seen self.old) session.old.journal }
        ensures acted { HasActed setting change (λ admin. Changing admin what) session.old session.new
            (Self.seen self.old).reached (Self.seen self.new).reached }
        ensures rest { session.new.state ≡ record session.old.state {
          held = nothing_held;
          actions = session.old.state.actions + 1;
          last = session.new.state.last;
        } }
        ensures used { Used (length (owed_by_state session.old.state) + 1) 0 (settle_cost
            (owed_by_state session.old.state) + (most_of what + 2)) (Self.seen self.old) (Self.seen self.new)
            session.old.journal session.new.journal };

    /// Answers a SELECT on `setup_actors` or `setup_objects` by the rows that the administration holds, an action that
    /// changes nothing: what the session holds is settled first. The journal gets how many rows answer. Err is NoMemory
    /// alone: the action has ended then too, and nothing is told of rows.
    fn show_held(
        &mut self,
        alloc: Global,
        session: &mut Session,
        query: &Select,
    ) -> Result<Rowset, NoMemory>
        requires named { change (label_of session.old.state) ≡ Setup Show }
        requires held { IsHeld query.now.table }
        requires early { session.old.state.actions + 1 < 2 ^ 64 }
        requires acts { MayAct (length (owed_by_state session.old.state) + 1) (settle_cost
            (owed_by_state session.old.state) + 3) (Self.seen self.old) session.old.journal }
        ensures shown { IfOk result (λ answer. HasShown setting change query.now answer session.old session.new
            (Self.seen self.old).reached (Self.seen self.new).reached) }
        ensures broken { OnErr result (HasBrokenOff setting change session.old session.new (Self.seen self.old).reached
            (Self.seen self.new).reached) }
        ensures rest { session.new.state ≡ record session.old.state {
          held = nothing_held;
          actions = session.old.state.actions + 1;
          last = session.new.state.last;
        } }
        ensures used { Used (length (owed_by_state session.old.state) + 1) 0 (settle_cost
            (owed_by_state session.old.state) + 3) (Self.seen self.old) (Self.seen self.new) session.old.journal
            session.new.journal };

    /// Settles all that a session holds, at the end of its block in a phase. It is no action.
    fn pause(&mut self, session: Session) -> Paused
        requires affords { Affords (length (owed_by_state session.state)) 0 (settle_cost
            (owed_by_state session.state)) (Self.seen self.old) session.journal }
        ensures played { Played (SettlesHeld ∷ []) session result (Self.seen self.old).reached
            (Self.seen self.new).reached }
        ensures state { result.state ≡ record session.state { held = nothing_held } }
        ensures used { Used (length (owed_by_state session.state)) 0 (settle_cost (owed_by_state session.state))
            (Self.seen self.old) (Self.seen self.new) session.journal result.journal };

    /// What stands before each line of a session: a plain store lets it pass, a gate may let it wait. The line that
    /// begins a block stands here too, a repeat's lines as often as they are played: whoever needs the number of a line
    /// counts the calls of its session.
    fn pass(&mut self, session: u64)
        ensures goes { Goes (Self.seen self.old).reached (Self.seen self.new).reached [] }
        ensures kept { Same (Self.seen self.old) (Self.seen self.new) };

    /// Between calls no row is in hand.
    ghost idle: { (s : Self) → (row : ℕ) → (Self.seen s).hand row ≡ None };

    /// Between calls no word may be set.
    ghost unlent: { (s : Self) → (Self.seen s).words ≡ None };
}
