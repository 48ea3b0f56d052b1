//! The root's own readings, while it is alone.

ghost use Rattle.std.specs.Prelude.{◌≡◌, ◌∷◌, [], ℕ, List, None};
ghost use Rattle.pfs_admin.specs.OpeningState.{opening_flags};
ghost use Rattle.pfs_board.specs.Knowledge.{IsWhole};
ghost use Rattle.pfs_board_store.specs.RootActors.{AreGathered, Worked};
ghost use Rattle.pfs_levels.specs.Calls.{Call, Opening};
ghost use Rattle.pfs_matching.specs.ObjectRules.{opening_objects};
ghost use Rattle.pfs_board_root.specs.Readings.{HaveRead};
ghost use Rattle.pfs_board_root.specs.Settlements.{own_opening};

use crate::root::Root;
use pfs_board::Seen as Shown;
use pfs_board_admin::Shared;
use pfs_board_store::laws;
use pfs_levels::Readable;
use pfs_rows::Seen;
use std::marker::{Brand, PhantomData};

/// Readings as contracts name them: what the root was as they began.
pub trait Began {
    ghost use Rattle.pfs_board_root.specs.Roots.{RootView};

    ghost was: { RootView };
}

impl Began for Brand {
    ghost use Rattle.pfs_board_root.specs.Roots.{blank};

    ghost was = { blank };
}

/// The root as a store to read from, once all seats are in: it changes and draws nothing, and finds no row in a hand.
pub struct Reading<'b, N: Shared, W: Began> {
    root: Root<'b, N>,
    began: PhantomData<W>,
    ghost whole: { IsWhole root.seat },
}

impl<'b, N: Shared, W: Began> Drop for Reading<'b, N, W> {
    fn drop(self) {
        let Reading { root: _, began: _ } = self;
    }
}

impl<'b, N: Shared, W: Began> Reading<'b, N, W> {
    /// The root begins to read. No other seat is out.
    pub fn new(root: Root<'b, N>) -> Reading<'b, N, W>
        requires was { W.was ≡ root }
        requires whole { IsWhole root.seat }
        ensures reached { (⟦<Reading<'b, N, W> as Readable>⟧.seen result).reached
            (own_opening (opening_flags N.setting opening_objects) root.entry) [] }
        ensures hand { (row : ℕ) → (⟦<Reading<'b, N, W> as Readable>⟧.seen result).hand row ≡ None }
    {
        Reading {
            root,
            began: PhantomData,
        }
    }

    /// The root again. What it read and loaded is one actor more of it, and each reading is what its seat saw of the
    /// row last.
    pub fn into_root(self) -> Root<'b, N>
        ensures read { (start : Opening) → (calls : List Call)
            → (⟦<Reading<'b, N, W> as Readable>⟧.seen self.entry).reached start calls
            → HaveRead (opening_flags N.setting opening_objects) W.was result start calls }
        ensures gathered { (start : Opening) → (calls : List Call)
            → (⟦<Reading<'b, N, W> as Readable>⟧.seen self.entry).reached start calls → (actors : List Worked)
            → AreGathered actors W.was.seat W.was.words W.was.draws → AreGathered
            (record { start = start; calls = calls } ∷ actors) result.seat result.words result.draws }
        ensures whole { IsWhole result.seat }
    {
        laws::gathered();
        let Reading { root, began: _ } = self;
        root.tell();
        root
    }
}

impl<'b, N: Shared, W: Began> Readable for Reading<'b, N, W> {
    ghost seen = { λ s. record {
      reached = λ start calls. HaveRead (opening_flags N.setting opening_objects) W.was s.root start calls;
      hand = λ row. None;
      left = 0;
      draws = 0;
      words = None;
      name = 0;
    } };

    fn read(&mut self, row: u64) -> Seen {
        match self.root.look(row) {
            Shown::Whole { version, content } => Seen::Whole { version, content },
            Shown::Free { word } => Seen::Free { word },
            Shown::Busy {
                first: _,
                second: _,
            } => unreachable!(),
        }
    }

    fn load(&mut self, word: u64) -> (u64, u16) {
        self.root.load(word)
    }
}
