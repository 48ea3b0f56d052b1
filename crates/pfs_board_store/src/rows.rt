//! What an actor records and reads with: its seats.

ghost use Rattle.std.specs.Prelude.{true, ◌≢◌, ◌≡◌, ◌<◌, ◌≤◌, ◌+◌, ◌-◌, ◌*◌, ◌/◌, ◌%◌, ◌^◌, ◌∷◌, ◌++◌, [], ℕ, List, Some, None, IsSome, length};
ghost use Rattle.pfs_board.specs.Knowledge.{corner, held};
ghost use Rattle.pfs_board.specs.declared.view.Label.{Label};
ghost use Rattle.pfs_levels.specs.Calls.{Call, Opening, Goes, Adds, Rings, Reads, Loads, Draws, Enters, Leaves, row_in, IsLate, IsCell, IsRing, IsRow, action_in, after_in, label_in};
ghost use Rattle.pfs_levels.specs.Views.{Kept as StoreKept, Same, empty_handed};
ghost use Rattle.pfs_switches.specs.OpeningWords.{opening_words};
ghost use Rattle.pfs_board_store.specs.Looks.{AreLooked, HasReadOn};
ghost use Rattle.pfs_board_store.specs.ActorCalls.{IsReached, HasMade, IsFresh, IsIn, in_hand, opening_of, labels_in};

use pfs_board::{Board, BoardSeat, Content, Kept, Label, Seen as Shown, Taken};
use pfs_levels::{Added, Readable, RingPut, Rows};
use pfs_rows::{LONG_HISTORY, Seen};
use pfs_stat::Stat;
use pfs_switches::{SwitchSeat, Switches};
use pfs_tickets::{TicketSeat, Tickets};
use std::sync::Wait;

/// What one actor works with: a seat of the board, one of the setup words and one of the tickets.
#[derive(Drop)]
pub struct Seats {
    pub board: BoardSeat,
    pub switches: SwitchSeat,
    pub tickets: TicketSeat,
}

/// A store that an actor records to and reads from in a thread of its own, with seats of its own. It waits for nobody.
#[derive(Drop)]
pub struct BoardRows<'a, V: Kept> {
    pub(crate) board: &'a Board<V>,
    pub(crate) switches: &'a Switches,
    pub(crate) tickets: &'a Tickets,
    pub(crate) seat: BoardSeat,
    pub(crate) words: SwitchSeat,
    pub(crate) draws: TicketSeat,
    ghost same_board: { seat.board ≡ board.now.id },
    ghost same_words: { words.switches ≡ switches.now.id },
    ghost same_tickets: { draws.tickets ≡ tickets.now },
    ghost wide: { 17 * 14242 ≤ length board.now.start },
    ghost rows: { 14242 ≤ length seat.view.rows },
    ghost known: { 161 ≤ length switches.now.start },
    ghost looks: { 160 ≤ length words.view.seen },
    ghost inside: { IsIn seat.view },
}

impl<'a, V: Kept> BoardRows<'a, V> {
    /// The store of an actor that begins, with seats of these tables. The board has the rows of a run, and the setup
    /// words are those of one.
    pub fn new(
        board: &'a Board<V>,
        switches: &'a Switches,
        tickets: &'a Tickets,
        seats: Seats,
    ) -> BoardRows<'a, V>
        requires tables { (seats.board.board ≡ board.now.id) × (seats.switches.switches ≡ switches.now.id)
            × (seats.tickets.tickets ≡ tickets.now) }
        requires sizes { (17 * 14242 ≤ length board.now.start) × (161 ≤ length switches.now.start)
            × (14242 ≤ length seats.board.view.rows) × (160 ≤ length seats.switches.view.seen) }
        requires fresh { IsFresh seats.board.view × (seats.switches.view.loads ≡ [])
            × (seats.tickets.view.tickets ≡ []) × (seats.switches.view.meets ≡ []) }
        ensures reached { (flags : List ℕ) → seats.switches.view.start ≡ opening_words flags
            → (⟦<BoardRows<'a, V> as Readable>⟧.seen result).reached (opening_of board.now.id switches.now.id tickets.now
            flags seats.board.view seats.switches.view seats.tickets.view) [] }
        ensures left { (⟦<BoardRows<'a, V> as Readable>⟧.seen result).left ≡ seats.board.view.allowance }
        ensures draws { (⟦<BoardRows<'a, V> as Readable>⟧.seen result).draws ≡ seats.tickets.view.draws }
        ensures hand { (r : ℕ) → (⟦<BoardRows<'a, V> as Readable>⟧.seen result).hand r ≡ None }
    {
        let Seats {
            board: seat,
            switches: words,
            tickets: draws,
        } = seats;
        BoardRows {
            board,
            switches,
            tickets,
            seat,
            words,
            draws,
        }
    }

    /// Gives the seats back, once no row is in hand and no action under way. They may use what the store had left.
    pub fn into_seats(self) -> Seats
        requires idle { (r : ℕ) → (⟦<BoardRows<'a, V> as Readable>⟧.seen self).hand r ≡ None }
        ensures made { (start : Opening) → (calls : List Call) → (⟦<BoardRows<'a, V> as Readable>⟧.seen self.entry).reached
            start calls → HasMade start calls result.board result.switches result.tickets }
        ensures held { held result.board.view.rows ≡ 0 }
        ensures left { result.board.view.allowance ≡ (⟦<BoardRows<'a, V> as Readable>⟧.seen self.entry).left }
        ensures draws { result.tickets.view.draws ≡ (⟦<BoardRows<'a, V> as Readable>⟧.seen self.entry).draws }
    {
        self.seat.tell();
        let BoardRows {
            board: _,
            switches: _,
            tickets: _,
            seat,
            words,
            draws,
        } = self;
        Seats {
            board: seat,
            switches: words,
            tickets: draws,
        }
    }

    /// Begins an action, and waits until no other is under way: its number, one above that of the one before, and the
    /// kept value, which stands for the labels of all actions before it.
    pub fn enter<R: Wait>(&mut self, rt: &R, label: Label) -> (u64, V)
        requires outside { (⟦<BoardRows<'a, V> as Readable>⟧.seen self.old).hand 0 ≡ None }
        requires room { 0 < (⟦<BoardRows<'a, V> as Readable>⟧.seen self.old).left }
        ensures call { (start : Opening) → (calls : List Call) → (⟦<BoardRows<'a, V> as Readable>⟧.seen self.old).reached
            start calls → (labels : List Label) × ((result.0 ≡ length labels + 1) × V.stands_for result.1 labels
            × (⟦<BoardRows<'a, V> as Readable>⟧.seen self.new).reached start (Enters label labels ∷ calls)) }
        ensures number { result.0 ≤ 2 ^ 47 }
        ensures left { (⟦<BoardRows<'a, V> as Readable>⟧.seen self.old).left
            ≤ (⟦<BoardRows<'a, V> as Readable>⟧.seen self.new).left + 1 }
        ensures draws { (⟦<BoardRows<'a, V> as Readable>⟧.seen self.new).draws
            ≡ (⟦<BoardRows<'a, V> as Readable>⟧.seen self.old).draws }
        ensures inside { IsSome ((⟦<BoardRows<'a, V> as Readable>⟧.seen self.new).hand 0) }
        ensures hand { (r : ℕ) → 0 < r → (⟦<BoardRows<'a, V> as Readable>⟧.seen self.new).hand r
            ≡ (⟦<BoardRows<'a, V> as Readable>⟧.seen self.old).hand r }
    {
        self.seat.tell();
        self.board.enter(rt, &mut self.seat, label)
    }

    /// Ends the action. The value stands for the labels that the action found and its own behind them. No other row
    /// may be in hand.
    pub fn leave(&mut self, value: V)
        requires inside { IsSome ((⟦<BoardRows<'a, V> as Readable>⟧.seen self.old).hand 0) }
        requires alone { (r : ℕ) → 0 < r → (⟦<BoardRows<'a, V> as Readable>⟧.seen self.old).hand r ≡ None }
        requires value { (start : Opening) × (calls : List Call)
            × ((⟦<BoardRows<'a, V> as Readable>⟧.seen self.old).reached start calls)
            × V.stands_for value (labels_in calls ++ label_in calls ∷ []) }
        ensures call { Goes (⟦<BoardRows<'a, V> as Readable>⟧.seen self.old).reached
            (⟦<BoardRows<'a, V> as Readable>⟧.seen self.new).reached (Leaves ∷ []) }
        ensures kept { Same (empty_handed (⟦<BoardRows<'a, V> as Readable>⟧.seen self.old))
            (⟦<BoardRows<'a, V> as Readable>⟧.seen self.new) }
    {
        self.seat.tell();
        self.board.leave(&mut self.seat, value);
    }

    /// Writes an event to a current or history place.
    fn put_event(&mut self, row: u64, content: &Content) -> RingPut
        requires place { (8450 ≤ row) × (row < 10242) }
        requires away { (⟦<BoardRows<'a, V> as Readable>⟧.seen self.old).hand row ≡ None }
        requires room { 0 < (⟦<BoardRows<'a, V> as Readable>⟧.seen self.old).left }
        ensures call { Goes (⟦<BoardRows<'a, V> as Readable>⟧.seen self.old).reached
            (⟦<BoardRows<'a, V> as Readable>⟧.seen self.new).reached (Rings row content.now result ∷ []) }
        ensures kept { StoreKept 1 0 (⟦<BoardRows<'a, V> as Readable>⟧.seen self.old)
            (⟦<BoardRows<'a, V> as Readable>⟧.seen self.new) }
        ensures late { IsLate row content.now result }
        ensures table { self.new.switches.now.id ≡ self.old.switches.now.id }
    {
        match self.board.take(&mut self.seat, row) {
            Taken::Busy { first, second } => RingPut::Busy { first, second },
            Taken::Mine {
                word: _,
                content: _,
            } => RingPut::Done {
                version: self.board.put(&mut self.seat, row, content),
            },
        }
    }

    /// Writes an event to a place of the long history from this lock word on, which a read has just shown.
    fn put_event_at(&mut self, row: u64, word: u64, content: &Content) -> RingPut
        requires place { (10242 ≤ row) × (row < 14242) }
        requires away { (⟦<BoardRows<'a, V> as Readable>⟧.seen self.old).hand row ≡ None }
        requires room { 0 < (⟦<BoardRows<'a, V> as Readable>⟧.seen self.old).left }
        requires word { (word % 4 ≢ 1) × ((corner self.old.seat.view row).fresh ≡ true)
            × ((corner self.old.seat.view row).last ≡ Some word) }
        ensures call { (start : Opening) → (calls : List Call) → self.old.board.now.id ≡ start.board.table
            → self.old.switches.now.id ≡ start.switches.table → self.old.tickets.now ≡ start.tickets.table
            → IsReached start calls self.old.seat.view self.old.words.view self.old.draws.view
            → HasReadOn start.board calls row content.now word self.old.seat.view.reads self.old.seat.view.sights
            → (⟦<BoardRows<'a, V> as Readable>⟧.seen self.new).reached start (Rings row content.now result ∷ calls) }
        ensures kept { StoreKept 1 0 (⟦<BoardRows<'a, V> as Readable>⟧.seen self.old)
            (⟦<BoardRows<'a, V> as Readable>⟧.seen self.new) }
        ensures late { IsLate row content.now result }
        ensures table { self.new.switches.now.id ≡ self.old.switches.now.id }
    {
        match self.board.take_at(&mut self.seat, row, word) {
            Taken::Busy { first, second } => RingPut::Busy { first, second },
            Taken::Mine {
                word: _,
                content: _,
            } => RingPut::Done {
                version: self.board.put(&mut self.seat, row, content),
            },
        }
    }
}

impl<'a, V: Kept> Readable for BoardRows<'a, V> {
    ghost seen = { λ s. record {
      reached = λ start calls. (s.board.now.id ≡ start.board.table)
          × (s.switches.now.id ≡ start.switches.table) × (s.tickets.now ≡ start.tickets.table)
          × IsReached start calls s.seat.view s.words.view s.draws.view
          × AreLooked start.board calls s.seat.view.reads s.seat.view.sights;
      hand = λ row. in_hand (corner s.seat.view row).stage;
      left = s.seat.view.allowance - held s.seat.view.rows;
      draws = s.draws.view.draws;
      words = None;
      name = 0;
    } };

    fn read(&mut self, row: u64) -> Seen
        requires known { IsRow row }
        requires away { (⟦<BoardRows<'a, V> as Readable>⟧.seen self.old).hand row ≡ None }
        ensures call { Goes (⟦<BoardRows<'a, V> as Readable>⟧.seen self.old).reached
            (⟦<BoardRows<'a, V> as Readable>⟧.seen self.new).reached (Reads row result ∷ []) }
        ensures kept { Same (⟦<BoardRows<'a, V> as Readable>⟧.seen self.old) (⟦<BoardRows<'a, V> as Readable>⟧.seen self.new) }
        ensures table { self.new.switches.now.id ≡ self.old.switches.now.id }
    {
        match self.board.read(&mut self.seat, row) {
            Shown::Whole { version, content } => Seen::Whole { version, content },
            Shown::Free { word } => Seen::Free { word },
            Shown::Busy { first, second } => Seen::Busy { first, second },
        }
    }

    fn load(&mut self, word: u64) -> (u64, u16)
        requires { word < 160 }
        ensures call { Goes (⟦<BoardRows<'a, V> as Readable>⟧.seen self.old).reached
            (⟦<BoardRows<'a, V> as Readable>⟧.seen self.new).reached (Loads word result.0 result.1 ∷ []) }
        ensures kept { Same (⟦<BoardRows<'a, V> as Readable>⟧.seen self.old) (⟦<BoardRows<'a, V> as Readable>⟧.seen self.new) }
        ensures table { self.new.switches.now.id ≡ self.old.switches.now.id }
    {
        self.switches.load(&mut self.words, word)
    }
}

impl<'a, V: Kept> Rows for BoardRows<'a, V> {
    fn add_try(&mut self, row: u64, amount: &Stat) -> Added
        requires cell { IsCell row }
        requires away { (⟦<BoardRows<'a, V> as Readable>⟧.seen self.old).hand row ≡ None }
        requires room { 0 < (⟦<BoardRows<'a, V> as Readable>⟧.seen self.old).left }
        ensures call { Goes (⟦<BoardRows<'a, V> as Readable>⟧.seen self.old).reached
            (⟦<BoardRows<'a, V> as Readable>⟧.seen self.new).reached (Adds row amount.now result ∷ []) }
        ensures row { row_in result ≡ row }
        ensures kept { StoreKept 1 0 (⟦<BoardRows<'a, V> as Readable>⟧.seen self.old)
            (⟦<BoardRows<'a, V> as Readable>⟧.seen self.new) }
        ensures table { self.new.switches.now.id ≡ self.old.switches.now.id }
    {
        match self.board.take(&mut self.seat, row) {
            Taken::Busy { first, second } => Added::Held { row, first, second },
            Taken::Mine { word: _, content } => {
                let sum = Stat::of_words(&content).merge(*amount);
                let version = self.board.put(&mut self.seat, row, &sum.to_words());
                Added::Counted { row, version }
            }
        }
    }

    fn ring_try(&mut self, row: u64, content: &Content) -> RingPut
        requires ring { IsRing row content.now }
        requires away { (⟦<BoardRows<'a, V> as Readable>⟧.seen self.old).hand row ≡ None }
        requires room { 0 < (⟦<BoardRows<'a, V> as Readable>⟧.seen self.old).left }
        ensures call { Goes (⟦<BoardRows<'a, V> as Readable>⟧.seen self.old).reached
            (⟦<BoardRows<'a, V> as Readable>⟧.seen self.new).reached (Rings row content.now result ∷ []) }
        ensures late { IsLate row content.now result }
        ensures kept { StoreKept 1 0 (⟦<BoardRows<'a, V> as Readable>⟧.seen self.old)
            (⟦<BoardRows<'a, V> as Readable>⟧.seen self.new) }
        ensures table { self.new.switches.now.id ≡ self.old.switches.now.id }
    {
        if row < LONG_HISTORY {
            return self.put_event(row, content);
        }
        match self.board.read(&mut self.seat, row) {
            Shown::Busy { first, second } => RingPut::Busy { first, second },
            Shown::Free { word } => self.put_event_at(row, word, content),
            Shown::Whole {
                version,
                content: found,
            } => {
                if found[15] > content[15] {
                    RingPut::Late {
                        ticket: found[15] - 1,
                        version,
                    }
                } else {
                    self.put_event_at(row, 4 * version + 2, content)
                }
            }
        }
    }

    fn ticket(&mut self, kind: u64) -> u64
        requires known { kind < 4 }
        requires room { 0 < (⟦<BoardRows<'a, V> as Readable>⟧.seen self.old).draws }
        ensures call { Goes (⟦<BoardRows<'a, V> as Readable>⟧.seen self.old).reached
            (⟦<BoardRows<'a, V> as Readable>⟧.seen self.new).reached (Draws kind result ∷ []) }
        ensures small { result < 2 ^ 47 }
        ensures left { (⟦<BoardRows<'a, V> as Readable>⟧.seen self.new).left
            ≡ (⟦<BoardRows<'a, V> as Readable>⟧.seen self.old).left }
        ensures kept { StoreKept 0 1 (⟦<BoardRows<'a, V> as Readable>⟧.seen self.old)
            (⟦<BoardRows<'a, V> as Readable>⟧.seen self.new) }
        ensures table { self.new.switches.now.id ≡ self.old.switches.now.id }
    {
        self.tickets.draw(&mut self.draws, kind)
    }
}
