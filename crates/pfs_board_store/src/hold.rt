//! What an actor does inside an action, and as it pauses.

ghost use Rattle.std.specs.Prelude.{◌≡◌, ◌≤◌, ◌++◌, [], ℕ, List, Option, Some, None, IfSome, IsSome, length, option_map};
ghost use Rattle.std.proofs.Props.{props};
ghost use Rattle.pfs_levels.specs.Calls.{Call, Opening, Goes};
ghost use Rattle.pfs_board.specs.Knowledge.{corner};
ghost use Rattle.pfs_board_store.specs.WriterWords.{HasSet, meeting, number_of, sets_in, sets_since_met, words_of};
ghost use Rattle.pfs_switches.specs.declared.view.Setting.{Setting};
ghost use Rattle.pfs_board_store.specs.ActorCalls.{in_hand};

use crate::rows::BoardRows;
use pfs_board::{Content, Kept};
use pfs_levels::{Added, Hold, Readable, RingPut, Rows};
use pfs_rows::Seen;
use pfs_stat::Stat;
use pfs_switches::Writer;
use std::snapshot::Snapshot;
use std::sync::Wait;

/// The store of an actor that may also wait for rows and hold them, and set words where it was lent their writer.
#[derive(Drop)]
pub struct BoardHold<'a, 'b, R: Wait, V: Kept> {
    rt: &'a R,
    rows: BoardRows<'b, V>,
    writer: Option<Writer>,
    // The writer as it was lent, for clauses alone.
    lent: Snapshot<Option<Writer>>,
    ghost same: { IfSome writer (λ w. w.switches ≡ rows.switches.now.id) } by { Prim.hlevel props },
    ghost wide: { IfSome writer (λ w. 160 ≤ length w.view.seen) } by { Prim.hlevel props },
    ghost inside: { IfSome writer (λ _. IsSome (in_hand (corner rows.seat.view 0).stage)) } by { Prim.hlevel props },
}

impl<'a, 'b, R: Wait, V: Kept> BoardHold<'a, 'b, R, V> {
    /// A hold that an actor's store goes into. It may set words where it is lent their writer, which only an action is.
    /// The actor meets it here, as one call more, and has then seen each word at the version that the writer knows.
    pub fn new(rt: &'a R, rows: BoardRows<'b, V>, writer: Option<Writer>) -> BoardHold<'a, 'b, R, V>
        requires wide { IfSome writer (λ w. 160 ≤ length w.view.seen) }
        requires inside { IfSome writer (λ _. IsSome ((⟦<BoardRows<'b, V> as Readable>⟧.seen rows).hand 0)) }
        requires same { IfSome writer (λ w. (start : Opening) × (calls : List Call)
            × ((⟦<BoardRows<'b, V> as Readable>⟧.seen rows).reached start calls) × (w.switches ≡ start.switches.table)) }
        ensures call { Goes (⟦<BoardRows<'b, V> as Readable>⟧.seen rows.entry).reached
            (⟦<BoardHold<'a, 'b, R, V> as Readable>⟧.seen result).reached (meeting writer) }
        ensures left { (⟦<BoardHold<'a, 'b, R, V> as Readable>⟧.seen result).left
            ≡ (⟦<BoardRows<'b, V> as Readable>⟧.seen rows.entry).left }
        ensures draws { (⟦<BoardHold<'a, 'b, R, V> as Readable>⟧.seen result).draws
            ≡ (⟦<BoardRows<'b, V> as Readable>⟧.seen rows.entry).draws }
        ensures hand { (r : ℕ) → (⟦<BoardHold<'a, 'b, R, V> as Readable>⟧.seen result).hand r
            ≡ (⟦<BoardRows<'b, V> as Readable>⟧.seen rows.entry).hand r }
        ensures words { (⟦<BoardHold<'a, 'b, R, V> as Readable>⟧.seen result).words ≡ option_map (λ w. words_of w.view)
            writer }
        ensures name { (⟦<BoardHold<'a, 'b, R, V> as Readable>⟧.seen result).name ≡ number_of (sets_in writer) }
    {
        let lent = Snapshot::of(&writer);
        match writer {
            Some(pen) => {
                let mut rows = rows;
                let pen = rows.met(pen);
                BoardHold {
                    rt,
                    rows,
                    writer: Some(pen),
                    lent,
                }
            }
            None => BoardHold {
                rt,
                rows,
                writer: None,
                lent,
            },
        }
    }

    /// Gives back the store, behind the hold's calls, and the writer, where it was lent one. Its sets are those of the
    /// calls behind its meet, then those that it had as it was lent, which the hold's name tells.
    pub fn into_parts(self) -> (BoardRows<'b, V>, Option<Writer>)
        ensures call { Goes (⟦<BoardHold<'a, 'b, R, V> as Readable>⟧.seen self.entry).reached
            (⟦<BoardRows<'b, V> as Readable>⟧.seen result.0).reached [] }
        ensures left { (⟦<BoardRows<'b, V> as Readable>⟧.seen result.0).left
            ≡ (⟦<BoardHold<'a, 'b, R, V> as Readable>⟧.seen self.entry).left }
        ensures draws { (⟦<BoardRows<'b, V> as Readable>⟧.seen result.0).draws
            ≡ (⟦<BoardHold<'a, 'b, R, V> as Readable>⟧.seen self.entry).draws }
        ensures hand { (r : ℕ) → (⟦<BoardRows<'b, V> as Readable>⟧.seen result.0).hand r
            ≡ (⟦<BoardHold<'a, 'b, R, V> as Readable>⟧.seen self.entry).hand r }
        ensures words { option_map (λ w. words_of w.view) result.1
            ≡ (⟦<BoardHold<'a, 'b, R, V> as Readable>⟧.seen self.entry).words }
        ensures same { (start : Opening) → (calls : List Call)
            → (⟦<BoardHold<'a, 'b, R, V> as Readable>⟧.seen self.entry).reached start calls → IfSome result.1
            (λ w. w.switches ≡ start.switches.table) }
        ensures wide { IfSome result.1 (λ w. 160 ≤ length w.view.seen) }
        ensures sets { (start : Opening) → (calls : List Call)
            → (⟦<BoardHold<'a, 'b, R, V> as Readable>⟧.seen self.entry).reached start calls → (had : List Setting)
            → (⟦<BoardHold<'a, 'b, R, V> as Readable>⟧.seen self.entry).name ≡ number_of had → IfSome result.1
            (λ w. w.view.sets ≡ sets_since_met calls ++ had) }
    {
        let BoardHold {
            rt: _,
            rows,
            writer,
            lent: _,
        } = self;
        (rows, writer)
    }
}

impl<'a, 'b, R: Wait, V: Kept> Readable for BoardHold<'a, 'b, R, V> {
    ghost seen = { λ s. record {
      reached = λ start calls. ((⟦<BoardRows<'b, V> as Readable>⟧.seen s.rows).reached start calls)
          × HasSet s.lent.value calls s.writer;
      hand = (⟦<BoardRows<'b, V> as Readable>⟧.seen s.rows).hand;
      left = (⟦<BoardRows<'b, V> as Readable>⟧.seen s.rows).left;
      draws = (⟦<BoardRows<'b, V> as Readable>⟧.seen s.rows).draws;
      words = option_map (λ w. words_of w.view) s.writer;
      name = number_of (sets_in s.lent.value);
    } };

    fn read(&mut self, row: u64) -> Seen {
        self.rows.read(row)
    }

    fn load(&mut self, word: u64) -> (u64, u16) {
        self.rows.load(word)
    }
}

impl<'a, 'b, R: Wait, V: Kept> Rows for BoardHold<'a, 'b, R, V> {
    fn add_try(&mut self, row: u64, amount: &Stat) -> Added {
        self.rows.add_try(row, amount)
    }

    fn ring_try(&mut self, row: u64, content: &Content) -> RingPut {
        self.rows.ring_try(row, content)
    }

    fn ticket(&mut self, kind: u64) -> u64 {
        self.rows.ticket(kind)
    }
}

impl<'a, 'b, R: Wait, V: Kept> Hold for BoardHold<'a, 'b, R, V> {
    fn take(&mut self, row: u64) -> (u64, Content) {
        self.rows.take_row(self.rt, row)
    }

    fn put(&mut self, row: u64, content: &Content) -> u64 {
        self.rows.put_row(row, content)
    }

    fn free(&mut self, row: u64) {
        self.rows.free_row(row);
    }

    fn set(&mut self, word: u64, flags: u16) -> u64 {
        match &mut self.writer {
            Some(writer) => self.rows.set_word(writer, word, flags),
            None => unreachable!(),
        }
    }
}
