//! A session's actions over a board, and its pause there.

ghost use Rattle.std.specs.Prelude.{◌≡◌, ◌<◌, ◌≤◌, ◌+◌, ◌^◌, ◌∷◌, [], ℕ, List, None, length};
ghost use Rattle.pfs_admin.specs.declared.changes.Change.TheVariants.{Connect, Quit, Setup, Truncate};
ghost use Rattle.pfs_admin.specs.SetupStatements.{most_of};
ghost use Rattle.pfs_law_plain.specs.Spells.{label_of};
ghost use Rattle.pfs_levels.specs.Calls.{Call, Opening};
ghost use Rattle.pfs_levels.specs.Views.{Used};
ghost use Rattle.pfs_session.specs.Settlements.{owed_by_state, settle_cost};
ghost use Rattle.pfs_session.specs.SessionStates.{no_place, nothing_held};
ghost use Rattle.pfs_session.specs.Turns.{Changes, Connects, Played, Quits, SettlesHeld, Truncates};
ghost use Rattle.pfs_board_session.specs.SessionActions.{HasActed, IsIdle};

use crate::desks::{begin, finish};
use pfs_admin::{SetupStatement, Truncation};
use pfs_board::Kept;
use pfs_board_admin::{Desk, Shared};
use pfs_board_store::{BoardHold, BoardRows};
use pfs_levels::Readable;
use pfs_names::NameId;
use pfs_session::{Paused, Session};
use std::sync::Wait;

/// Connects a session, its first action: the store again. It waits until no other action is under way. The session gets
/// the places that the administration of the labels found gives it, and its log the `connect` and what follows from it.
pub fn connect<'a, R: Wait, N: Shared>(
    rt: &R,
    rows: BoardRows<'a, Desk<N>>,
    session: &mut Session,
    user: NameId,
    host: NameId,
) -> BoardRows<'a, Desk<N>>
    requires named { N.change (label_of session.old.state) ≡ Connect user host }
    requires user { user < length N.setting.names }
    requires host { host < length N.setting.names }
    requires first { session.old.state.actions ≡ 0 }
    requires unplaced { session.old.state.place ≡ no_place }
    requires closed { session.old.state.opened.events ≡ [] }
    requires idle { IsIdle 5 6 (⟦<BoardRows<'a, Desk<N>> as Readable>⟧.seen rows) session.old }
    requires begun { (start : Opening) × (calls : List Call)
        × ((⟦<BoardRows<'a, Desk<N>> as Readable>⟧.seen rows).reached start calls) × (start.switches.table ≡ N.switches) }
    ensures acted { HasActed N.setting N.change (λ admin. Connects admin user host ∷ []) session.old session.new
        (⟦<BoardRows<'a, Desk<N>> as Readable>⟧.seen rows.entry).reached
        (⟦<BoardRows<'a, Desk<N>> as Readable>⟧.seen result).reached }
    ensures rest { session.new.state ≡ record session.old.state {
      place = session.new.state.place;
      actions = 1;
      last = session.new.state.last;
    } }
    ensures held { session.new.state.held ≡ nothing_held }
    ensures owed { owed_by_state session.new.state ≡ [] }
    ensures hand { (r : ℕ) → (⟦<BoardRows<'a, Desk<N>> as Readable>⟧.seen result).hand r ≡ None }
    ensures used { Used 5 0 6 (⟦<BoardRows<'a, Desk<N>> as Readable>⟧.seen rows.entry)
        (⟦<BoardRows<'a, Desk<N>> as Readable>⟧.seen result) session.old.journal session.new.journal }
{
    let (mut admin, mut hold) = begin(rt, rows, session.label());
    session.connect(&mut hold, &mut admin, user, host);
    finish(hold, admin)
}

/// Ends a session's connection, an action: the store again. It waits until no other action is under way. What the
/// session holds back is settled first; then its numbers move up and its places are left. Nothing may be open.
pub fn quit<'a, R: Wait, N: Shared>(
    rt: &R,
    rows: BoardRows<'a, Desk<N>>,
    session: &mut Session,
) -> BoardRows<'a, Desk<N>>
    requires named { N.change (label_of session.old.state) ≡ Quit }
    requires closed { session.old.state.opened.events ≡ [] }
    requires early { session.old.state.actions + 1 < 2 ^ 64 }
    requires idle { IsIdle (length (owed_by_state session.old.state) + 253) (settle_cost
        (owed_by_state session.old.state) + 254) (⟦<BoardRows<'a, Desk<N>> as Readable>⟧.seen rows) session.old }
    requires begun { (start : Opening) × (calls : List Call)
        × ((⟦<BoardRows<'a, Desk<N>> as Readable>⟧.seen rows).reached start calls) × (start.switches.table ≡ N.switches) }
    ensures acted { HasActed N.setting N.change (λ admin. SettlesHeld ∷ Quits admin ∷ []) session.old
        session.new (⟦<BoardRows<'a, Desk<N>> as Readable>⟧.seen rows.entry).reached
        (⟦<BoardRows<'a, Desk<N>> as Readable>⟧.seen result).reached }
    ensures rest { session.new.state ≡ record session.old.state {
      place = no_place;
      held = nothing_held;
      actions = session.old.state.actions + 1;
      last = session.new.state.last;
    } }
    ensures hand { (r : ℕ) → (⟦<BoardRows<'a, Desk<N>> as Readable>⟧.seen result).hand r ≡ None }
    ensures used { Used (length (owed_by_state session.old.state) + 253) 0 (settle_cost
        (owed_by_state session.old.state) + 254) (⟦<BoardRows<'a, Desk<N>> as Readable>⟧.seen rows.entry)
        (⟦<BoardRows<'a, Desk<N>> as Readable>⟧.seen result) session.old.journal session.new.journal }
{
    let (mut admin, mut hold) = begin(rt, rows, session.label());
    session.quit(&mut hold, &mut admin);
    finish(hold, admin)
}

/// Truncates a table, an action: the store again. It waits until no other action is under way. What the session holds
/// back is settled first; the log gets the answer, which is 0.
pub fn truncate<'a, R: Wait, N: Shared>(
    rt: &R,
    rows: BoardRows<'a, Desk<N>>,
    session: &mut Session,
    what: Truncation,
) -> BoardRows<'a, Desk<N>>
    requires named { N.change (label_of session.old.state) ≡ Truncate what }
    requires early { session.old.state.actions + 1 < 2 ^ 64 }
    requires idle { IsIdle (length (owed_by_state session.old.state) + 19_203) (settle_cost
        (owed_by_state session.old.state) + 19_204) (⟦<BoardRows<'a, Desk<N>> as Readable>⟧.seen rows) session.old }
    requires begun { (start : Opening) × (calls : List Call)
        × ((⟦<BoardRows<'a, Desk<N>> as Readable>⟧.seen rows).reached start calls) × (start.switches.table ≡ N.switches) }
    ensures acted { HasActed N.setting N.change (λ admin. SettlesHeld ∷ Truncates admin what ∷ []) session.old
        session.new (⟦<BoardRows<'a, Desk<N>> as Readable>⟧.seen rows.entry).reached
        (⟦<BoardRows<'a, Desk<N>> as Readable>⟧.seen result).reached }
    ensures rest { session.new.state ≡ record session.old.state {
      held = nothing_held;
      actions = session.old.state.actions + 1;
      last = session.new.state.last;
    } }
    ensures hand { (r : ℕ) → (⟦<BoardRows<'a, Desk<N>> as Readable>⟧.seen result).hand r ≡ None }
    ensures used { Used (length (owed_by_state session.old.state) + 19_203) 0 (settle_cost
        (owed_by_state session.old.state) + 19_204) (⟦<BoardRows<'a, Desk<N>> as Readable>⟧.seen rows.entry)
        (⟦<BoardRows<'a, Desk<N>> as Readable>⟧.seen result) session.old.journal session.new.journal }
{
    let (mut admin, mut hold) = begin(rt, rows, session.label());
    // The most that it may come to is asked for the law that comes with it.
    let _ = admin.truncation_cost(what);
    session.truncate(&mut hold, &mut admin, what);
    finish(hold, admin)
}

/// Does a statement on a setup table, an action: the store again. It waits until no other action is under way. What the
/// session holds back is settled first; the log gets the answer.
pub fn act<'a, R: Wait, N: Shared>(
    rt: &R,
    rows: BoardRows<'a, Desk<N>>,
    session: &mut Session,
    what: SetupStatement,
) -> BoardRows<'a, Desk<N>>
    requires named { N.change (label_of session.old.state) ≡ Setup what }
    requires early { session.old.state.actions + 1 < 2 ^ 64 }
    requires idle { IsIdle (length (owed_by_state session.old.state) + 1) (settle_cost
        (owed_by_state session.old.state) + (most_of what + 2)) (⟦<BoardRows<'a, Desk<N>> as Readable>⟧.seen rows)
        session.old }
    requires begun { (start : Opening) × (calls : List Call)
        × ((⟦<BoardRows<'a, Desk<N>> as Readable>⟧.seen rows).reached start calls) × (start.switches.table ≡ N.switches) }
    ensures acted { HasActed N.setting N.change (λ admin. SettlesHeld ∷ Changes admin what ∷ []) session.old
        session.new (⟦<BoardRows<'a, Desk<N>> as Readable>⟧.seen rows.entry).reached
        (⟦<BoardRows<'a, Desk<N>> as Readable>⟧.seen result).reached }
    ensures rest { session.new.state ≡ record session.old.state {
      held = nothing_held;
      actions = session.old.state.actions + 1;
      last = session.new.state.last;
    } }
    ensures hand { (r : ℕ) → (⟦<BoardRows<'a, Desk<N>> as Readable>⟧.seen result).hand r ≡ None }
    ensures used { Used (length (owed_by_state session.old.state) + 1) 0 (settle_cost
        (owed_by_state session.old.state) + (most_of what + 2)) (⟦<BoardRows<'a, Desk<N>> as Readable>⟧.seen rows.entry)
        (⟦<BoardRows<'a, Desk<N>> as Readable>⟧.seen result) session.old.journal session.new.journal }
{
    let (mut admin, mut hold) = begin(rt, rows, session.label());
    session.act(&mut hold, &mut admin, what);
    finish(hold, admin)
}

/// Settles all that a session holds back, at the end of its block in a phase: the store again, and the session as it
/// pauses. It waits for the rows whose additions were held, and is lent no writer.
pub fn pause<'a, R: Wait, V: Kept>(
    rt: &R,
    rows: BoardRows<'a, V>,
    session: Session,
) -> (BoardRows<'a, V>, Paused)
    requires alone { (r : ℕ) → (⟦<BoardRows<'a, V> as Readable>⟧.seen rows).hand r ≡ None }
    requires spare { length (owed_by_state session.state) ≤ (⟦<BoardRows<'a, V> as Readable>⟧.seen rows).left }
    requires room { settle_cost (owed_by_state session.state) ≤ session.journal.room }
    ensures played { Played (SettlesHeld ∷ []) session result.1 (⟦<BoardRows<'a, V> as Readable>⟧.seen rows.entry).reached
        (⟦<BoardRows<'a, V> as Readable>⟧.seen result.0).reached }
    ensures rest { result.1.state ≡ record session.state { held = nothing_held } }
    ensures hand { (r : ℕ) → (⟦<BoardRows<'a, V> as Readable>⟧.seen result.0).hand r ≡ None }
    ensures left { (⟦<BoardRows<'a, V> as Readable>⟧.seen rows.entry).left
        ≤ (⟦<BoardRows<'a, V> as Readable>⟧.seen result.0).left + length (owed_by_state session.state) }
    ensures draws { (⟦<BoardRows<'a, V> as Readable>⟧.seen result.0).draws
        ≡ (⟦<BoardRows<'a, V> as Readable>⟧.seen rows.entry).draws }
    ensures room { session.journal.room ≤ result.1.journal.room + settle_cost (owed_by_state session.state) }
{
    let mut hold = BoardHold::new(rt, rows, None);
    let paused = session.pause(&mut hold);
    let (rows, _) = hold.into_parts();
    (rows, paused)
}
