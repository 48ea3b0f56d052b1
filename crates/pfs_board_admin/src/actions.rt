//! Actions over a board.

ghost use Rattle.std.specs.Prelude.{◌≡◌, ◌<◌, ◌≤◌, ◌+◌, ◌∷◌, [], ℕ, List, None, length};
ghost use Rattle.pfs_board.specs.declared.view.Label.{Label};
ghost use Rattle.pfs_admin.specs.ConnectionAsks.{connect_entry, placed_of, work_of_connect};
ghost use Rattle.pfs_admin.specs.declared.changes.Change.TheVariants.{Connect, Setup};
ghost use Rattle.pfs_admin.specs.declared.changes.SetupStatement.TheVariants.{Show};
ghost use Rattle.pfs_admin.specs.AdministrationStates.{State, seat_at};
ghost use Rattle.pfs_levels.specs.Calls.{Call, Enters, Leaves, Opening};
ghost use Rattle.pfs_board_admin.specs.DeskActions.{HasActed};

use crate::desk::{Desk, Shared};
use pfs_admin::Placed;
use pfs_board::Label;
use pfs_board_store::{BoardHold, BoardRows};
use pfs_levels::{Log, Readable};
use pfs_names::NameId;
use std::sync::Wait;

/// An action that changes nothing, from its beginning to its end: its number. The board keeps a desk that stands for
/// one label more.
pub fn empty_action<'a, R: Wait, N: Shared>(
    rt: &R,
    rows: &mut BoardRows<'a, Desk<N>>,
    label: Label,
) -> u64
    requires named { N.change label ≡ Setup Show }
    requires alone { (r : ℕ) → (⟦<BoardRows<'a, Desk<N>> as Readable>⟧.seen rows.old).hand r ≡ None }
    requires room { 0 < (⟦<BoardRows<'a, Desk<N>> as Readable>⟧.seen rows.old).left }
    requires begun { (start : Opening) × (calls : List Call)
        × (⟦<BoardRows<'a, Desk<N>> as Readable>⟧.seen rows.old).reached start calls }
    ensures call { (start : Opening) → (calls : List Call)
        → (⟦<BoardRows<'a, Desk<N>> as Readable>⟧.seen rows.old).reached start calls → (labels : List Label)
        × ((result ≡ length labels + 1)
        × (⟦<BoardRows<'a, Desk<N>> as Readable>⟧.seen rows.new).reached start (Leaves ∷ Enters label labels ∷ calls)) }
    ensures hand { (r : ℕ) → (⟦<BoardRows<'a, Desk<N>> as Readable>⟧.seen rows.new).hand r ≡ None }
{
    let (number, desk) = rows.enter(rt, label);
    let (mut admin, writer) = desk.into_parts();
    admin.note();
    rows.leave(Desk::new(admin, writer));
    number
}

/// A connect, from the beginning of its action to its end: the store again, and the places that the session got. In it
/// the desk's writer is lent to a hold, and the board keeps a desk that stands for one label more. The log gets what
/// `Admin::connect` gives it.
pub fn connect<'a, R: Wait, N: Shared>(
    rt: &R,
    rows: BoardRows<'a, Desk<N>>,
    label: Label,
    user: NameId,
    host: NameId,
    log: &mut Log,
) -> (BoardRows<'a, Desk<N>>, Placed)
    requires named { N.change label ≡ Connect user host }
    requires user { user < length N.setting.names }
    requires host { host < length N.setting.names }
    requires alone { (r : ℕ) → (⟦<BoardRows<'a, Desk<N>> as Readable>⟧.seen rows).hand r ≡ None }
    requires spare { 5 ≤ (⟦<BoardRows<'a, Desk<N>> as Readable>⟧.seen rows).left }
    requires room { 6 ≤ log.old.room }
    requires begun { (start : Opening) × (calls : List Call)
        × ((⟦<BoardRows<'a, Desk<N>> as Readable>⟧.seen rows).reached start calls) × (start.switches.table ≡ N.switches) }
    ensures acted { (start : Opening) → (calls : List Call)
        → (⟦<BoardRows<'a, Desk<N>> as Readable>⟧.seen rows.entry).reached start calls → (more : List Call)
        × (admin : State) × ((⟦<BoardRows<'a, Desk<N>> as Readable>⟧.seen result.0).reached start more) × HasActed
        N.setting N.change label (λ s. work_of_connect s label.session user host)
        (λ s. connect_entry (s.actions + 1) (seat_at s label.session user host) ∷ []) admin calls more log.old.entries
        log.new.entries × (result.1 ≡ placed_of (seat_at admin label.session user host)) }
    ensures hand { (r : ℕ) → (⟦<BoardRows<'a, Desk<N>> as Readable>⟧.seen result.0).hand r ≡ None }
    ensures left { (⟦<BoardRows<'a, Desk<N>> as Readable>⟧.seen rows.entry).left
        ≤ (⟦<BoardRows<'a, Desk<N>> as Readable>⟧.seen result.0).left + 5 }
{
    let mut rows = rows;
    let (_, desk) = rows.enter(rt, label);
    let (mut admin, writer) = desk.into_parts();
    let mut hold = BoardHold::new(rt, rows, Some(writer));
    let placed = admin.connect(&mut hold, label.session, user, host, log);
    let (mut rows, lent) = hold.into_parts();
    match lent {
        Some(writer) => rows.leave(Desk::new(admin, writer)),
        None => unreachable!(),
    }
    (rows, placed)
}
