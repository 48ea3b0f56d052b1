//! The root of a run over a board.

ghost use Rattle.std.specs.Prelude.{◌≡◌, ◌*◌, ◌+◌, ◌<◌, ◌≤◌, [], ◌∷◌, ℕ, All, List, length, slice_index, sum_by, vec_capacity};
ghost use Rattle.pfs_admin.specs.OpeningState.{opening_flags};
ghost use Rattle.pfs_board.specs.Knowledge.{IsWhole, held, root as board_root, stake};
ghost use Rattle.pfs_board.specs.ReadAnswers.{IsSeenAs};
ghost use Rattle.pfs_board.specs.SeatViews.{known as known_board};
ghost use Rattle.pfs_board_admin.specs.LabelWords.{AllKeepWords, version_after};
ghost use Rattle.pfs_board_store.specs.RootActors.{AreGathered, Worked, calls_of_all};
ghost use Rattle.pfs_levels.specs.CallOrder.{AllCalls};
ghost use Rattle.pfs_matching.specs.ObjectRules.{opening_objects};
ghost use Rattle.pfs_switches.specs.Knowledge.{loaded, reader, whole};
ghost use Rattle.pfs_switches.specs.OpeningWords.{opening_words};
ghost use Rattle.pfs_switches.specs.SeatViews.{known as known_words};
ghost use Rattle.pfs_tickets.specs.Knowledge.{IsWhole as HasAllDraws, root as tickets_root};
ghost use Rattle.pfs_tickets.specs.SeatViews.{known as known_tickets};
ghost use Rattle.pfs_board_root.specs.Roots.{AreKnown, AreSplit, HasSplit, HasTakenIn, IsKnown, opening_at, root_of};
ghost use Rattle.pfs_board_root.specs.Settlements.{HasSettled};

use pfs_admin::Lost;
use pfs_board::{Board, Seen as Shown};
use pfs_board_admin::{Desk, Shared};
use pfs_board_session::{Gate, Seated};
use pfs_board_store::{BoardRows, Seats, laws};
use pfs_levels::Readable;
use pfs_switches::Switches;
use pfs_tickets::Tickets;
use std::marker::Model;
use std::sync::Wait;

/// The seats that all actors' seats are split off, between its calls in no action and with no row in hand. Contracts
/// see which tables it is of, and what its seats know.
#[derive(Drop)]
pub struct Root<'b, N: Shared> {
    board: &'b Board<Desk<N>>,
    switches: &'b Switches,
    tickets: &'b Tickets,
    seats: Seats,
}

impl<'b, N: Shared> Model for Root<'b, N> {
    ghost use Rattle.pfs_admin.specs.OpeningState.{opening_flags};
    ghost use Rattle.pfs_matching.specs.ObjectRules.{opening_objects};
    ghost use Rattle.pfs_board_root.specs.Roots.{IsRooted, RootView, root_view};

    ghost Value = { RootView };

    ghost view = { λ r. root_view r.board.now r.switches.now r.tickets.now r.seats.board r.seats.switches
        r.seats.tickets };

    ghost invariant = { λ r. IsRooted (opening_flags N.setting opening_objects) N.switches r.board.now r.switches.now
        r.tickets.now r.seats.board r.seats.switches r.seats.tickets };
}

impl<'b, N: Shared> Root<'b, N> {
    /// The root of new tables, with their first seats. The board has the rows of a run, and the words are this run's.
    pub fn new(
        board: &'b Board<Desk<N>>,
        switches: &'b Switches,
        tickets: &'b Tickets,
        seats: Seats,
    ) -> Root<'b, N>
        requires board { seats.board ≡ known_board board.now.id (board_root board.now.start) }
        requires words { (seats.switches ≡ known_words switches.now.id (reader (whole switches.now.start)))
            × (switches.now.start ≡ opening_words (opening_flags N.setting opening_objects)) }
        requires tickets { seats.tickets ≡ known_tickets tickets.now tickets_root }
        requires run { switches.now.id ≡ N.switches }
        requires sizes { (17 * 14242 ≤ length board.now.start) × (161 ≤ length switches.now.start) }
        ensures board { (result.board ≡ board.now.id) × (result.seat ≡ board_root board.now.start) }
        ensures words { (result.switches ≡ switches.now.id) × (result.words ≡ reader (whole switches.now.start)) }
        ensures tickets { (result.tickets ≡ tickets.now) × (result.draws ≡ tickets_root) }
        ensures whole { IsWhole result.seat × HasAllDraws result.draws }
        ensures gathered { AreGathered [] result.seat result.words result.draws }
    {
        Root {
            board,
            switches,
            tickets,
            seats,
        }
    }

    /// One actor more: its seats are the next of their tables, and may make so many publications and draws.
    pub fn split<'a, R: Wait, G: Gate>(
        &mut self,
        rt: &'a R,
        gate: &'a G,
        publications: u64,
        draws: u64,
    ) -> Seated<'a, 'b, R, G, N>
        requires some { (0 < publications) × (publications < self.old.seat.allowance) }
        requires draws { draws ≤ self.old.draws.draws }
        ensures began { (⟦<Seated<'a, 'b, R, G, N> as Readable>⟧.seen result).reached
            (opening_at (opening_flags N.setting opening_objects) self.old publications draws 1) [] }
        ensures left { (⟦<Seated<'a, 'b, R, G, N> as Readable>⟧.seen result).left ≡ publications }
        ensures draws { (⟦<Seated<'a, 'b, R, G, N> as Readable>⟧.seen result).draws ≡ draws }
        ensures root { HasSplit 1 publications draws self.old self.new }
    {
        let seats = Seats {
            board: self.board.split(&mut self.seats.board, publications),
            switches: self.switches.split(&mut self.seats.switches),
            tickets: self.tickets.split(&mut self.seats.tickets, draws),
        };
        Seated::new(
            rt,
            gate,
            BoardRows::new(self.board, self.switches, self.tickets, seats),
        )
    }

    /// So many actors, into room that is there, each as `split` gives it, in the order of their numbers.
    pub fn split_all<'a, R: Wait, G: Gate>(
        &mut self,
        rt: &'a R,
        gate: &'a G,
        actors: &mut Vec<Seated<'a, 'b, R, G, N>>,
        count: u64,
        publications: u64,
        draws: u64,
    )
        requires room { (actors.old.items ≡ []) × (count ≤ vec_capacity actors.old) }
        requires some { (0 < publications) × (count * publications < self.old.seat.allowance) }
        requires draws { count * draws ≤ self.old.draws.draws }
        ensures began { AreSplit (λ a. (⟦<Seated<'a, 'b, R, G, N> as Readable>⟧.seen a).reached)
            (opening_at (opening_flags N.setting opening_objects) self.old publications draws) 1 actors.new.items }
        ensures left { All (λ a. ((⟦<Seated<'a, 'b, R, G, N> as Readable>⟧.seen a).left ≡ publications)
            × ((⟦<Seated<'a, 'b, R, G, N> as Readable>⟧.seen a).draws ≡ draws)) actors.new.items }
        ensures count { length actors.new.items ≡ count }
        ensures root { HasSplit count publications draws self.old self.new }
    {
        for _ in 0..count {
            let actor = self.split(rt, gate, publications, draws);
            actors.push_reserved(actor);
        }
    }

    /// An actor's seats are taken in, and what it has left is the root's again. They are of these tables, as is known
    /// of some list of calls that led to it.
    pub fn take_in<'a, R: Wait, G: Gate>(&mut self, actor: Seated<'a, 'b, R, G, N>)
        requires known { (w : Worked) × IsKnown self.old
            (λ a. (⟦<Seated<'a, 'b, R, G, N> as Readable>⟧.seen a).reached) w actor }
        ensures taken { (w : Worked) → IsKnown self.old
            (λ a. (⟦<Seated<'a, 'b, R, G, N> as Readable>⟧.seen a).reached) w actor.entry
            → HasTakenIn N.setting N.change (w ∷ []) self.old self.new }
        ensures back { self.new.seat.allowance ≡ self.old.seat.allowance
            + (⟦<Seated<'a, 'b, R, G, N> as Readable>⟧.seen actor.entry).left }
        ensures draws_back { self.new.draws.draws ≡ self.old.draws.draws
            + (⟦<Seated<'a, 'b, R, G, N> as Readable>⟧.seen actor.entry).draws }
    {
        laws::gathered();
        let Seats {
            board,
            switches,
            tickets,
        } = actor.into_rows().into_seats();
        self.board.join(&mut self.seats.board, board);
        self.switches.join(&mut self.seats.switches, switches);
        self.tickets.join(&mut self.seats.tickets, tickets);
    }

    /// All actors' seats are taken in, the last one first, so that the root has their lists in the actors' order, and
    /// all that they have left.
    pub fn take_all<'a, R: Wait, G: Gate>(&mut self, actors: Vec<Seated<'a, 'b, R, G, N>>)
        requires known { (ws : List Worked) × AreKnown self.old
            (λ a. (⟦<Seated<'a, 'b, R, G, N> as Readable>⟧.seen a).reached) ws actors.items }
        ensures taken { (ws : List Worked) → AreKnown self.old
            (λ a. (⟦<Seated<'a, 'b, R, G, N> as Readable>⟧.seen a).reached) ws actors.entry.items
            → HasTakenIn N.setting N.change ws self.old self.new }
        ensures back { self.new.seat.allowance ≡ self.old.seat.allowance
            + sum_by (λ a. (⟦<Seated<'a, 'b, R, G, N> as Readable>⟧.seen a).left) actors.entry.items }
        ensures draws_back { self.new.draws.draws ≡ self.old.draws.draws
            + sum_by (λ a. (⟦<Seated<'a, 'b, R, G, N> as Readable>⟧.seen a).draws) actors.entry.items }
    {
        let mut actors = actors;
        while let Some(actor) = actors.pop() {
            self.take_in(actor);
        }
    }

    /// Once all seats are in, at a phase's end: the desk is lent, the root meets its writer and tells the tickets, and
    /// the desk goes back as it was. What found no place so far is answered.
    pub fn settle(&mut self) -> Lost
        requires whole { IsWhole self.old.seat × HasAllDraws self.old.draws }
        ensures settled { (actors : List Worked) → AreGathered actors self.old.seat self.old.words self.old.draws
            → AllCalls (AllKeepWords (version_after N.setting N.change)) (calls_of_all actors)
            → HasSettled N.setting N.change (opening_flags N.setting opening_objects) N.switches actors result self.old
            self.new }
        ensures whole { IsWhole self.new.seat × HasAllDraws self.new.draws }
    {
        laws::met();
        let desk = self.board.lend(&mut self.seats.board);
        let (admin, mut writer) = desk.into_parts();
        self.switches.meet(&mut self.seats.switches, &mut writer);
        self.tickets.tell(&mut self.seats.tickets, 0);
        let lost = admin.lost();
        self.board
            .restore(&mut self.seats.board, Desk::new(admin, writer));
        lost
    }

    /// Its seats, which know all that it knew. Its setup words opened with the flags of its setting.
    pub fn into_seats(self) -> Seats
        ensures same { root_of result ≡ self.entry }
        ensures opened { result.switches.view.start ≡ opening_words (opening_flags N.setting opening_objects) }
    {
        let Root {
            board: _,
            switches: _,
            tickets: _,
            seats,
        } = self;
        seats
    }

    // What holds between calls.
    pub(crate) fn tell(&self)
        ensures outside { (self.now.seat.action ≡ 0) × (self.now.seat.after ≡ 0) }
        ensures empty { held self.now.seat.rows ≡ 0 }
        ensures opened { self.now.words.start ≡ opening_words (opening_flags N.setting opening_objects) }
    {
        let _ = &self.seats;
    }

    // Reads a row.
    pub(crate) fn look(&mut self, row: u64) -> Shown
        requires row { row < 14242 }
        ensures outside { (self.old.seat.action ≡ 0) × (self.old.seat.after ≡ 0)
            × (14242 ≤ length self.old.seat.rows) }
        ensures seen { IsSeenAs self.old.seat row result self.new.seat }
        ensures stake { stake self.new.seat ≡ stake self.old.seat }
        ensures tables { (self.new.board ≡ self.old.board) × (self.new.switches ≡ self.old.switches)
            × (self.new.tickets ≡ self.old.tickets) }
        ensures others { (self.new.words ≡ self.old.words) × (self.new.draws ≡ self.old.draws) }
    {
        self.board.read(&mut self.seats.board, row)
    }

    // Loads a word.
    pub(crate) fn load(&mut self, word: u64) -> (u64, u16)
        requires low { word < 160 }
        ensures wide { 160 ≤ length self.old.words.seen }
        ensures later { slice_index self.old.words.seen word ≤ result.0 }
        ensures seen { (at : ℕ) → slice_index self.old.words.seen at ≤ slice_index self.new.words.seen at }
        ensures words { self.new.words ≡ loaded self.old.words word result.0 result.1 }
        ensures tables { (self.new.board ≡ self.old.board) × (self.new.switches ≡ self.old.switches)
            × (self.new.tickets ≡ self.old.tickets) }
        ensures others { (self.new.seat ≡ self.old.seat) × (self.new.draws ≡ self.old.draws) }
    {
        self.switches.load(&mut self.seats.switches, word)
    }
}
