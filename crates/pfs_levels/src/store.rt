//! The shared store as an actor sees it: rows, switch words and tickets.

ghost use Rattle.std.specs.Prelude.{◌≡◌, ◌<◌, ◌≤◌, ◌+◌, ◌-◌, ◌^◌, ◌∷◌, [], ℕ, Some, None, IsSome};
ghost use Rattle.pfs_levels.specs.Calls.{Adds, Rings, Reads, Loads, Draws, Takes, Puts, Frees, Sets, Leaves, Goes, Begins, IsRow, IsCell, IsRing, IsLate, row_in, known_version};
ghost use Rattle.pfs_levels.specs.Views.{Store, Same, Kept, taken, given_back, empty_handed, with_word};

use crate::answers::{Added, RingPut};
use pfs_board::{Content, Label};
use pfs_rows::Seen;
use pfs_stat::Stat;

/// The store as one sees it that reads it. No call waits for anybody, takes memory, or changes a row.
///
/// What a store is to a proof is `seen`. Its first field, `reached`, says which calls, each with its arguments and its
/// answer, may have led to it, and each call carries any such list on by itself. A frame goes with it: the rows in
/// hand, the publications and draws that are left, the words that are known, and the store's name.
pub trait Readable {
    /// All that contracts see of it.
    ghost seen: { Self → Store };

    /// Reads a row whole, or says that it is free or in another actor's hand.
    fn read(&mut self, row: u64) -> Seen
        requires known { IsRow row }
        requires away { (seen self.old).hand row ≡ None }
        ensures call { Goes (seen self.old).reached (seen self.new).reached (Reads row result ∷ []) }
        ensures kept { Same (seen self.old) (seen self.new) };

    /// Loads a switch word: its version and its flags.
    fn load(&mut self, word: u64) -> (u64, u16)
        requires { word < 160 }
        ensures call { Goes (seen self.old).reached (seen self.new).reached (Loads word result.0 result.1 ∷ []) }
        ensures kept { Same (seen self.old) (seen self.new) };
}

/// The store as an actor sees it that records and reads. No call waits for anybody or takes memory.
pub trait Rows: Readable {
    /// Merges an amount into a cell or a digest row. Held comes only where another actor had the row in hand, which
    /// its two lock words show; then nothing was added.
    fn add_try(&mut self, row: u64, amount: &Stat) -> Added
        requires cell { IsCell row }
        requires away { (Self.seen self.old).hand row ≡ None }
        requires room { 0 < (Self.seen self.old).left }
        ensures call { Goes (Self.seen self.old).reached (Self.seen self.new).reached
            (Adds row amount.now result ∷ []) }
        ensures row { row_in result ≡ row }
        ensures kept { Kept 1 0 (Self.seen self.old) (Self.seen self.new) };

    /// Writes an event to a ring place, or to the long place of its ticket. Busy comes only where another actor had
    /// the row in hand, and Late exactly where the row holds the greater ticket given, in the long history alone;
    /// then nothing was written.
    fn ring_try(&mut self, row: u64, content: &Content) -> RingPut
        requires ring { IsRing row content.now }
        requires away { (Self.seen self.old).hand row ≡ None }
        requires room { 0 < (Self.seen self.old).left }
        ensures call { Goes (Self.seen self.old).reached (Self.seen self.new).reached
            (Rings row content.now result ∷ []) }
        ensures late { IsLate row content.now result }
        ensures kept { Kept 1 0 (Self.seen self.old) (Self.seen self.new) };

    /// Draws the next ticket of a kind.
    fn ticket(&mut self, kind: u64) -> u64
        requires known { kind < 4 }
        requires room { 0 < (Self.seen self.old).draws }
        ensures call { Goes (Self.seen self.old).reached (Self.seen self.new).reached (Draws kind result ∷ []) }
        ensures small { result < 2 ^ 47 }
        ensures left { (Self.seen self.new).left ≡ (Self.seen self.old).left }
        ensures kept { Kept 0 1 (Self.seen self.old) (Self.seen self.new) };
}

/// What an actor may do besides inside an action, and as it pauses: it holds rows, and sets words.
pub trait Hold: Rows {
    /// Takes a row, and waits until it has it: its version and what it held.
    fn take(&mut self, row: u64) -> (u64, Content)
        requires known { IsRow row }
        requires away { (Self.seen self.old).hand row ≡ None }
        requires room { 0 < (Self.seen self.old).left }
        ensures call { Goes (Self.seen self.old).reached (Self.seen self.new).reached
            (Takes row result.0 result.1 ∷ []) }
        ensures mine { (Self.seen self.new).hand row ≡ Some result.0 }
        ensures kept { Kept 1 0 (taken row result.0 (Self.seen self.old)) (Self.seen self.new) };

    /// Publishes a content in a row in hand, which it gives back: the row's version, one above that of the take.
    fn put(&mut self, row: u64, content: &Content) -> u64
        requires known { IsRow row }
        requires held { IsSome ((Self.seen self.old).hand row) }
        ensures call { Goes (Self.seen self.old).reached (Self.seen self.new).reached
            (Puts row content.now result ∷ []) }
        ensures next { (v : ℕ) → (Self.seen self.old).hand row ≡ Some v → result ≡ v + 1 }
        ensures kept { Same (given_back row (Self.seen self.old)) (Self.seen self.new) };

    /// Releases a row in hand as free, at the version at which it was taken.
    fn free(&mut self, row: u64)
        requires known { IsRow row }
        requires held { IsSome ((Self.seen self.old).hand row) }
        ensures call { (v : ℕ) → (Self.seen self.old).hand row ≡ Some v
            → Goes (Self.seen self.old).reached (Self.seen self.new).reached (Frees row v ∷ []) }
        ensures kept { Kept 0 0 (given_back row (Self.seen self.old)) (Self.seen self.new) };

    /// Sets a switch word: its version, one above the one before. The actor may set words, and the word's version is
    /// below 2^48 - 1.
    fn set(&mut self, word: u64, flags: u16) -> u64
        requires known { word < 160 }
        requires lent { IsSome (Self.seen self.old).words }
        requires early { known_version (Self.seen self.old).words word + 1 < 2 ^ 48 }
        ensures call { Goes (Self.seen self.old).reached (Self.seen self.new).reached (Sets word flags result ∷ []) }
        ensures next { result ≡ known_version (Self.seen self.old).words word + 1 }
        ensures kept { Same (with_word word result flags (Self.seen self.old)) (Self.seen self.new) };
}

/// What an actor may do besides that begins actions.
pub trait Acts: Hold {
    /// Begins an action, and waits until no other is under way: its number, one above that of the one before.
    fn enter(&mut self, label: Label) -> u64
        requires outside { (Self.seen self.old).hand 0 ≡ None }
        requires room { 0 < (Self.seen self.old).left }
        ensures call { Begins (Self.seen self.old).reached (Self.seen self.new).reached label result }
        ensures number { result ≤ 2 ^ 47 }
        ensures inside { IsSome ((Self.seen self.new).hand 0) }
        ensures mine { (n : ℕ) → result ≡ n + 1 → (Self.seen self.new).hand 0 ≡ Some n }
        ensures kept { Kept 1 0 (taken 0 (result - 1) (Self.seen self.old)) (Self.seen self.new) };

    /// Ends the action. No other row may be in hand.
    fn leave(&mut self)
        requires inside { IsSome ((Self.seen self.old).hand 0) }
        requires alone { (r : ℕ) → 0 < r → (Self.seen self.old).hand r ≡ None }
        ensures call { Goes (Self.seen self.old).reached (Self.seen self.new).reached (Leaves ∷ []) }
        ensures kept { Same (empty_handed (Self.seen self.old)) (Self.seen self.new) };
}
