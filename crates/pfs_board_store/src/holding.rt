//! How an actor holds rows and sets words.

ghost use Rattle.std.specs.Prelude.{◌≡◌, ◌<◌, ◌≤◌, ◌+◌, ◌^◌, ◌∷◌, [], ℕ, Some, None, IsSome, length, slice_index};
ghost use Rattle.pfs_board.specs.Knowledge.{held};
ghost use Rattle.pfs_levels.specs.Calls.{Goes, Takes, Puts, Frees, Sets, Meets, IsRow};
ghost use Rattle.pfs_levels.specs.Views.{Kept as StoreKept, Same, given_back, taken};
ghost use Rattle.pfs_switches.specs.Knowledge.{was_set};

use crate::rows::BoardRows;
use pfs_board::{Content, Kept, Taken};
use pfs_levels::Readable;
use pfs_switches::Writer;
use std::sync::Wait;
use std::thread::yield_now;

impl<'a, V: Kept> BoardRows<'a, V> {
    /// Takes a row, and tries again until it has it: its version and what it held.
    pub(crate) fn take_row<R: Wait>(&mut self, rt: &R, row: u64) -> (u64, Content)
        requires known { IsRow row }
        requires away { (⟦<BoardRows<'a, V> as Readable>⟧.seen self.old).hand row ≡ None }
        requires room { 0 < (⟦<BoardRows<'a, V> as Readable>⟧.seen self.old).left }
        ensures call { Goes (⟦<BoardRows<'a, V> as Readable>⟧.seen self.old).reached
            (⟦<BoardRows<'a, V> as Readable>⟧.seen self.new).reached (Takes row result.0 result.1 ∷ []) }
        ensures kept { StoreKept 1 0 (taken row result.0 (⟦<BoardRows<'a, V> as Readable>⟧.seen self.old))
            (⟦<BoardRows<'a, V> as Readable>⟧.seen self.new) }
        ensures mine { (⟦<BoardRows<'a, V> as Readable>⟧.seen self.new).hand row ≡ Some result.0 }
        ensures table { self.new.switches.now.id ≡ self.old.switches.now.id }
    {
        for _ in rt.forever() {
            if let Taken::Mine { word, content } = self.board.take(&mut self.seat, row) {
                return (word / 4, content);
            }
            yield_now();
        }
        unreachable!()
    }

    /// Publishes a content in a row in hand: the version, one above that of the take.
    pub(crate) fn put_row(&mut self, row: u64, content: &Content) -> u64
        requires known { IsRow row }
        requires held { IsSome ((⟦<BoardRows<'a, V> as Readable>⟧.seen self.old).hand row) }
        ensures call { Goes (⟦<BoardRows<'a, V> as Readable>⟧.seen self.old).reached
            (⟦<BoardRows<'a, V> as Readable>⟧.seen self.new).reached (Puts row content.now result ∷ []) }
        ensures next { (v : ℕ) → (⟦<BoardRows<'a, V> as Readable>⟧.seen self.old).hand row ≡ Some v → result ≡ v + 1 }
        ensures kept { Same (given_back row (⟦<BoardRows<'a, V> as Readable>⟧.seen self.old))
            (⟦<BoardRows<'a, V> as Readable>⟧.seen self.new) }
        ensures table { self.new.switches.now.id ≡ self.old.switches.now.id }
    {
        self.board.put(&mut self.seat, row, content)
    }

    /// Releases a row in hand as free, at the version at which it was taken.
    pub(crate) fn free_row(&mut self, row: u64)
        requires known { IsRow row }
        requires held { IsSome ((⟦<BoardRows<'a, V> as Readable>⟧.seen self.old).hand row) }
        ensures call { (v : ℕ) → (⟦<BoardRows<'a, V> as Readable>⟧.seen self.old).hand row ≡ Some v → Goes
            (⟦<BoardRows<'a, V> as Readable>⟧.seen self.old).reached (⟦<BoardRows<'a, V> as Readable>⟧.seen self.new).reached
            (Frees row v ∷ []) }
        ensures kept { StoreKept 0 0 (given_back row (⟦<BoardRows<'a, V> as Readable>⟧.seen self.old))
            (⟦<BoardRows<'a, V> as Readable>⟧.seen self.new) }
        ensures table { self.new.switches.now.id ≡ self.old.switches.now.id }
    {
        self.board.free(&mut self.seat, row);
    }

    /// The actor meets the writer, and has then seen each word's present version.
    pub(crate) fn met(&mut self, writer: Writer) -> Writer
        requires same { writer.switches ≡ self.old.switches.now.id }
        requires wide { 160 ≤ length writer.view.seen }
        ensures writer { result ≡ writer }
        ensures call { Goes (⟦<BoardRows<'a, V> as Readable>⟧.seen self.old).reached
            (⟦<BoardRows<'a, V> as Readable>⟧.seen self.new).reached (Meets writer.view.seen ∷ []) }
        ensures kept { Same (⟦<BoardRows<'a, V> as Readable>⟧.seen self.old) (⟦<BoardRows<'a, V> as Readable>⟧.seen self.new) }
        ensures table { self.new.switches.now.id ≡ self.old.switches.now.id }
    {
        let mut writer = writer;
        self.switches.meet(&mut self.words, &mut writer);
        writer
    }

    /// Sets a word by the writer, whom the seat meets before and behind the set.
    pub(crate) fn set_word(&mut self, writer: &mut Writer, word: u64, flags: u16) -> u64
        requires known { word < 160 }
        requires inside { IsSome ((⟦<BoardRows<'a, V> as Readable>⟧.seen self.old).hand 0) }
        requires same { writer.old.switches ≡ self.old.switches.now.id }
        requires wide { 160 ≤ length writer.old.view.seen }
        requires early { slice_index writer.old.view.seen word + 1 < 2 ^ 48 }
        ensures call { Goes (⟦<BoardRows<'a, V> as Readable>⟧.seen self.old).reached
            (⟦<BoardRows<'a, V> as Readable>⟧.seen self.new).reached (Sets word flags result ∷ []) }
        ensures next { result ≡ slice_index writer.old.view.seen word + 1 }
        ensures writer { (writer.new.switches ≡ writer.old.switches)
            × (writer.new.view ≡ was_set writer.old.view word result flags) }
        ensures kept { Same (⟦<BoardRows<'a, V> as Readable>⟧.seen self.old) (⟦<BoardRows<'a, V> as Readable>⟧.seen self.new) }
        ensures table { self.new.switches.now.id ≡ self.old.switches.now.id }
    {
        self.seat.tell();
        self.switches.meet(&mut self.words, writer);
        match self
            .switches
            .set_and_load(&mut self.words, writer, word, flags)
        {
            Ok((version, _)) => version,
            Err(_) => unreachable!(),
        }
    }
}
