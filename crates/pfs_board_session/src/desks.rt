//! Where an action begins and where it ends: the desk is taken apart, its writer lent to a hold, and both put back.

ghost use Rattle.std.specs.Prelude.{◌≡◌, ◌<◌, ◌≤◌, ◌+◌, ◌^◌, ◌∷◌, ◌++◌, [], ℕ, List, None, Some, IsSome};
ghost use Rattle.pfs_admin.specs.Fold.{StandsFor};
ghost use Rattle.pfs_board.specs.declared.view.Label.{Label};
ghost use Rattle.pfs_board_admin.specs.Desks.{IsDesk, sets_of};
ghost use Rattle.pfs_levels.specs.Calls.{Call, Enters, Goes, Leaves, Meets, Opening, label_in};
ghost use Rattle.pfs_board_store.specs.WriterWords.{number_of, sets_since_met};
ghost use Rattle.pfs_board_store.specs.ActorCalls.{labels_in};
ghost use Rattle.pfs_switches.specs.SeatViews.{Known};

use pfs_admin::Admin;
use pfs_board::Label;
use pfs_board_admin::{Desk, Shared};
use pfs_board_store::{BoardHold, BoardRows};
use pfs_levels::Readable;
use std::sync::Wait;

// Begins an action: the administration that stands for the labels found, and a hold that is lent the writer.
pub(crate) fn begin<'a, 'b, R: Wait, N: Shared>(
    rt: &'a R,
    rows: BoardRows<'b, Desk<N>>,
    label: Label,
) -> (Admin, BoardHold<'a, 'b, R, Desk<N>>)
    requires outside { (r : ℕ) → (⟦<BoardRows<'b, Desk<N>> as Readable>⟧.seen rows).hand r ≡ None }
    requires spare { 0 < (⟦<BoardRows<'b, Desk<N>> as Readable>⟧.seen rows).left }
    requires begun { (start : Opening) × (calls : List Call)
        × ((⟦<BoardRows<'b, Desk<N>> as Readable>⟧.seen rows).reached start calls) × (start.switches.table ≡ N.switches) }
    ensures call { (start : Opening) → (calls : List Call)
        → (⟦<BoardRows<'b, Desk<N>> as Readable>⟧.seen rows.entry).reached start calls → (labels : List Label)
        × (pen : Known) × IsDesk N.setting N.change N.switches labels result.0 pen
        × ((⟦<BoardHold<'a, 'b, R, Desk<N>> as Readable>⟧.seen result.1).reached start
        (Meets pen.view.seen ∷ Enters label labels ∷ calls))
        × ((⟦<BoardHold<'a, 'b, R, Desk<N>> as Readable>⟧.seen result.1).name ≡ number_of
        (sets_of N.setting N.change labels)) }
    ensures few { result.0.actions < 2 ^ 47 }
    ensures lent { (⟦<BoardHold<'a, 'b, R, Desk<N>> as Readable>⟧.seen result.1).words ≡ Some result.0.words }
    ensures inside { IsSome ((⟦<BoardHold<'a, 'b, R, Desk<N>> as Readable>⟧.seen result.1).hand 0) }
    ensures alone { (r : ℕ) → 0 < r → (⟦<BoardHold<'a, 'b, R, Desk<N>> as Readable>⟧.seen result.1).hand r ≡ None }
    ensures left { (⟦<BoardRows<'b, Desk<N>> as Readable>⟧.seen rows.entry).left
        ≤ (⟦<BoardHold<'a, 'b, R, Desk<N>> as Readable>⟧.seen result.1).left + 1 }
    ensures draws { (⟦<BoardHold<'a, 'b, R, Desk<N>> as Readable>⟧.seen result.1).draws
        ≡ (⟦<BoardRows<'b, Desk<N>> as Readable>⟧.seen rows.entry).draws }
{
    let mut rows = rows;
    let (_, desk) = rows.enter(rt, label);
    let (admin, writer) = desk.into_parts();
    (admin, BoardHold::new(rt, rows, Some(writer)))
}

// Ends the action of a hold that was lent the writer: the store again.
pub(crate) fn finish<'a, 'b, R: Wait, N: Shared>(
    hold: BoardHold<'a, 'b, R, Desk<N>>,
    admin: Admin,
) -> BoardRows<'b, Desk<N>>
    requires lent { (⟦<BoardHold<'a, 'b, R, Desk<N>> as Readable>⟧.seen hold).words ≡ Some admin.words }
    requires inside { IsSome ((⟦<BoardHold<'a, 'b, R, Desk<N>> as Readable>⟧.seen hold).hand 0) }
    requires alone { (r : ℕ) → 0 < r → (⟦<BoardHold<'a, 'b, R, Desk<N>> as Readable>⟧.seen hold).hand r ≡ None }
    requires stands { (start : Opening) × (calls : List Call)
        × ((⟦<BoardHold<'a, 'b, R, Desk<N>> as Readable>⟧.seen hold).reached start calls)
        × (start.switches.table ≡ N.switches)
        × StandsFor N.setting N.change (labels_in calls ++ label_in calls ∷ []) admin
        × (sets_of N.setting N.change (labels_in calls ++ label_in calls ∷ [])
        ≡ sets_since_met calls ++ sets_of N.setting N.change (labels_in calls))
        × ((⟦<BoardHold<'a, 'b, R, Desk<N>> as Readable>⟧.seen hold).name
        ≡ number_of (sets_of N.setting N.change (labels_in calls))) }
    ensures call { Goes (⟦<BoardHold<'a, 'b, R, Desk<N>> as Readable>⟧.seen hold.entry).reached
        (⟦<BoardRows<'b, Desk<N>> as Readable>⟧.seen result).reached (Leaves ∷ []) }
    ensures hand { (r : ℕ) → (⟦<BoardRows<'b, Desk<N>> as Readable>⟧.seen result).hand r ≡ None }
    ensures left { (⟦<BoardRows<'b, Desk<N>> as Readable>⟧.seen result).left
        ≡ (⟦<BoardHold<'a, 'b, R, Desk<N>> as Readable>⟧.seen hold.entry).left }
    ensures draws { (⟦<BoardRows<'b, Desk<N>> as Readable>⟧.seen result).draws
        ≡ (⟦<BoardHold<'a, 'b, R, Desk<N>> as Readable>⟧.seen hold.entry).draws }
{
    let (mut rows, lent) = hold.into_parts();
    match lent {
        Some(writer) => rows.leave(Desk::new(admin, writer)),
        None => unreachable!(),
    }
    rows
}
