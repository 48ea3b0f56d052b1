//! The actor over a board, for sessions that work at once.

ghost use Rattle.std.specs.Prelude.{◌≡◌, ℕ, List, None, IsSomeAnd, refl};
ghost use Rattle.std.proofs.Props.{props};
ghost use Rattle.pfs_board.specs.Knowledge.{corner};
ghost use Rattle.pfs_board_store.specs.ActorCalls.{in_hand};
ghost use Rattle.pfs_levels.specs.Calls.{Call, Opening};
ghost use Rattle.pfs_board_session.specs.SeatedViews.{IsBetween, seated};

use crate::NoMemory;
use crate::actions::{act, connect, pause, quit, truncate};
use crate::gates::Gate;
use crate::showing::show_held;
use pfs_actor::Actor;
use pfs_admin::{SetupStatement, Truncation};
use pfs_board::Content;
use pfs_board_admin::{Desk, Shared};
use pfs_board_store::BoardRows;
use pfs_exec::Select;
use pfs_levels::{Added, Readable, RingPut, Rows};
use pfs_names::NameId;
use pfs_rows::Seen;
use pfs_session::{Paused, Session};
use pfs_stat::Stat;
use pfs_text::Rowset;
use std::alloc::Global;
use std::sync::Wait;

/// An actor over a seat of a board that keeps a desk, for a run that contracts name. It waits for other actors' actions
/// as it begins one, and for the rows that it takes.
#[derive(Drop)]
pub struct Seated<'a, 'b, R: Wait, G: Gate, N: Shared> {
    rt: &'a R,
    gate: &'a G,
    // How many lines its session has passed.
    lines: u64,
    // Out of it while an action is under way.
    rows: Option<BoardRows<'b, Desk<N>>>,
    ghost idle: { IsSomeAnd rows (λ s. (row : ℕ) → in_hand (corner s.seat.view row).stage ≡ None) } by { Prim.hlevel
        props },
}

impl<'a, 'b, R: Wait, G: Gate, N: Shared> Seated<'a, 'b, R, G, N> {
    /// The actor that goes on from this seat. No row is in hand.
    pub fn new(rt: &'a R, gate: &'a G, rows: BoardRows<'b, Desk<N>>) -> Seated<'a, 'b, R, G, N>
        requires idle { (row : ℕ) → (⟦<BoardRows<'b, Desk<N>> as Readable>⟧.seen rows).hand row ≡ None }
        ensures led { (start : Opening) → (calls : List Call) → IsBetween N.setting N.change N.switches
            (⟦<BoardRows<'b, Desk<N>> as Readable>⟧.seen rows.entry).reached start calls
            → (⟦<Seated<'a, 'b, R, G, N> as Readable>⟧.seen result).reached start calls }
        ensures left { (⟦<Seated<'a, 'b, R, G, N> as Readable>⟧.seen result).left
            ≡ (⟦<BoardRows<'b, Desk<N>> as Readable>⟧.seen rows.entry).left }
        ensures draws { (⟦<Seated<'a, 'b, R, G, N> as Readable>⟧.seen result).draws
            ≡ (⟦<BoardRows<'b, Desk<N>> as Readable>⟧.seen rows.entry).draws }
    {
        Seated {
            rt,
            gate,
            lines: 0,
            rows: Some(rows),
        }
    }

    /// The seat again. No row is in hand.
    pub fn into_rows(self) -> BoardRows<'b, Desk<N>>
        ensures led { (start : Opening) → (calls : List Call)
            → (⟦<Seated<'a, 'b, R, G, N> as Readable>⟧.seen self.entry).reached start calls → IsBetween N.setting N.change
            N.switches (⟦<BoardRows<'b, Desk<N>> as Readable>⟧.seen result).reached start calls }
        ensures idle { (row : ℕ) → (⟦<BoardRows<'b, Desk<N>> as Readable>⟧.seen result).hand row ≡ None }
        ensures left { (⟦<BoardRows<'b, Desk<N>> as Readable>⟧.seen result).left
            ≡ (⟦<Seated<'a, 'b, R, G, N> as Readable>⟧.seen self.entry).left }
        ensures draws { (⟦<BoardRows<'b, Desk<N>> as Readable>⟧.seen result).draws
            ≡ (⟦<Seated<'a, 'b, R, G, N> as Readable>⟧.seen self.entry).draws }
    {
        let Seated {
            rt: _,
            gate: _,
            lines: _,
            rows,
        } = self;
        match rows {
            Some(rows) => rows,
            None => unreachable!(),
        }
    }
}

impl<'a, 'b, R: Wait, G: Gate, N: Shared> Readable for Seated<'a, 'b, R, G, N> {
    ghost seen = { λ s. seated N.setting N.change N.switches ⟦<BoardRows<'b, Desk<N>> as Readable>⟧.seen s.rows };

    fn read(&mut self, row: u64) -> Seen {
        match &mut self.rows {
            Some(rows) => rows.read(row),
            None => unreachable!(),
        }
    }

    #[inline(always)]
    fn load(&mut self, word: u64) -> (u64, u16) {
        match &mut self.rows {
            Some(rows) => rows.load(word),
            None => unreachable!(),
        }
    }
}

impl<'a, 'b, R: Wait, G: Gate, N: Shared> Rows for Seated<'a, 'b, R, G, N> {
    #[inline(always)]
    fn add_try(&mut self, row: u64, amount: &Stat) -> Added {
        match &mut self.rows {
            Some(rows) => rows.add_try(row, amount),
            None => unreachable!(),
        }
    }

    #[inline(always)]
    fn ring_try(&mut self, row: u64, content: &Content) -> RingPut {
        match &mut self.rows {
            Some(rows) => rows.ring_try(row, content),
            None => unreachable!(),
        }
    }

    fn ticket(&mut self, kind: u64) -> u64 {
        match &mut self.rows {
            Some(rows) => rows.ticket(kind),
            None => unreachable!(),
        }
    }
}

impl<'a, 'b, R: Wait, G: Gate, N: Shared> Actor for Seated<'a, 'b, R, G, N> {
    ghost setting = { N.setting };

    ghost change = { N.change };

    fn connect(&mut self, session: &mut Session, user: NameId, host: NameId) {
        match self.rows.take() {
            Some(rows) => self.rows = Some(connect(self.rt, rows, session, user, host)),
            None => unreachable!(),
        }
    }

    fn quit(&mut self, session: &mut Session) {
        match self.rows.take() {
            Some(rows) => self.rows = Some(quit(self.rt, rows, session)),
            None => unreachable!(),
        }
    }

    fn truncate(&mut self, session: &mut Session, what: Truncation) {
        match self.rows.take() {
            Some(rows) => self.rows = Some(truncate(self.rt, rows, session, what)),
            None => unreachable!(),
        }
    }

    fn act(&mut self, session: &mut Session, what: SetupStatement) {
        match self.rows.take() {
            Some(rows) => self.rows = Some(act(self.rt, rows, session, what)),
            None => unreachable!(),
        }
    }

    fn show_held(
        &mut self,
        alloc: Global,
        session: &mut Session,
        query: &Select,
    ) -> Result<Rowset, NoMemory> {
        match self.rows.take() {
            Some(rows) => {
                let (rows, answer) = show_held(self.rt, alloc, rows, session, query);
                self.rows = Some(rows);
                answer
            }
            None => unreachable!(),
        }
    }

    fn pause(&mut self, session: Session) -> Paused {
        match self.rows.take() {
            Some(rows) => {
                let (rows, paused) = pause(self.rt, rows, session);
                self.rows = Some(rows);
                paused
            }
            None => unreachable!(),
        }
    }

    // Its block's lines are told by their numbers. No block has 2^64 lines: the number would stay at the last one.
    fn pass(&mut self, session: u64) {
        self.lines = self.lines.saturating_add(1);
        self.gate.pass(self.rt, session, self.lines);
    }

    ghost idle = { λ s row. refl };

    ghost unlent = { λ s. refl };
}
