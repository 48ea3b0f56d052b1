//! An actor of a board as large as a run's, and what it stands on.

ghost use Rattle.std.specs.Prelude.{[], ◌≡◌, ◌<◌, ◌≤◌, ◌+◌, ◌*◌, ℕ, List, false, length, IfOk, Some};
ghost use Rattle.pfs_admin.specs.OpeningState.{opened};
ghost use Rattle.pfs_board.specs.Knowledge.{held};
ghost use Rattle.pfs_board_store.specs.WriterWords.{words_of};
ghost use Rattle.pfs_session.specs.SessionStates.{no_place};
ghost use Rattle.pfs_switches.specs.OpeningWords.{opening_words};
ghost use Rattle.pfs_test_store.specs.ActorStores.{IsBegun, IsIdle};

use crate::actions::opened;
use crate::admin::setting;
use pfs_admin::{Admin, opening_flags};
use pfs_board::{Board, BoardSeat, Kept, NoMemory, Opening};
use pfs_board_store::{BoardRows, Seats};
use pfs_classes::Setting;
use pfs_levels::Readable;
use pfs_matching::Objects;
use pfs_session::Session;
use pfs_stat::zero;
use pfs_switches::{SwitchSeat, Switches, Writer};
use pfs_tickets::{TicketSeat, Tickets};
use std::alloc::Global;
use std::test::Fail;

const ROWS: u64 = 14_242;

// A value that stands for whatever labels.
#[derive(Drop)]
pub(crate) struct Anything {}

impl Kept for Anything {
    ghost stands_for = { λ x labels. Unit {0} };
}

// The rows of a run as they are at first: cells and digest rows have counted nothing, infos and ring places are free.
fn fresh_rows(alloc: Global) -> Result<Vec<Opening>, NoMemory>
    ensures { IfOk result (λ v. length v.items ≡ 14242) }
{
    let mut rows = Vec::new(alloc);
    for row in 0..ROWS {
        let is_cell = 129 <= row && row < 8_450;
        rows.push(Opening {
            allocated: row == 0 || is_cell,
            content: if is_cell { zero().to_words() } else { [0; 16] },
        })?;
    }
    Ok(rows)
}

// A board with those rows, and its root.
pub(crate) fn fresh(alloc: Global) -> Result<(Board<Anything>, BoardSeat), NoMemory>
    ensures board { IfOk result (λ b. (b.1.board ≡ b.0.id) × (17 * 14242 ≤ length b.0.start)) }
    ensures root { IfOk result (λ b. (b.1.view.number ≡ 0) × (b.1.view.lent ≡ false) × (held b.1.view.rows ≡ 0)
        × (14242 ≤ length b.1.view.rows) × (1000000 < b.1.view.allowance)) }
{
    let rows = fresh_rows(alloc)?;
    Board::open(alloc, rows.as_slice(), Anything {})
}

// Words that open with the setting's flags.
pub(crate) fn run_words(
    alloc: Global,
    setting: &Setting,
) -> Result<(Switches, SwitchSeat, Writer), NoMemory>
    ensures tables { IfOk result (λ b. (b.1.switches ≡ b.0.id) × (b.1.view.number ≡ 0) × (b.2.switches ≡ b.0.id)) }
    ensures sizes { IfOk result (λ b. (161 ≤ length b.0.start) × (160 ≤ length b.1.view.seen)
        × (160 ≤ length b.2.view.seen)) }
    ensures words { IfOk result (λ b. (flags : List ℕ) × (b.1.view.start ≡ opening_words flags)) }
    ensures lent { IfOk result (λ b. words_of b.2.view ≡ (opened setting.now).words) }
{
    let objects = Objects::open(alloc)?;
    let flags = opening_flags(alloc, setting, &objects)?;
    let opened = Switches::open(alloc, flags.as_slice())?;
    Ok(opened)
}

pub(crate) fn fresh_tickets(alloc: Global) -> Result<(Tickets, TicketSeat), NoMemory>
    ensures seat { IfOk result (λ b. (b.1.tickets ≡ b.0) × (b.1.view.number ≡ 0) × (1000 ≤ b.1.view.draws)) }
{
    Tickets::open(alloc)
}

// What a session runs over, as it is at first, and the session.
pub(crate) struct Run {
    pub board: Board<Anything>,
    pub root: BoardSeat,
    pub switches: Switches,
    pub reader: SwitchSeat,
    pub writer: Writer,
    pub tickets: Tickets,
    pub drawer: TicketSeat,
    pub admin: Admin,
    pub session: Session,
}

// A run's tables, their roots, the administration as it opens, and a session with room for so many entries.
pub(crate) fn fresh_run(alloc: Global, entries: u64) -> Result<Run, Fail>
    ensures tables { IfOk result (λ r. (r.root.board ≡ r.board.id) × (r.reader.switches ≡ r.switches.id)
        × (r.writer.switches ≡ r.switches.id) × (r.drawer.tickets ≡ r.tickets)) }
    ensures sizes { IfOk result (λ r. (17 * 14242 ≤ length r.board.start) × (161 ≤ length r.switches.start)
        × (14242 ≤ length r.root.view.rows) × (160 ≤ length r.reader.view.seen) × (160 ≤ length r.writer.view.seen)) }
    ensures root { IfOk result (λ r. (r.root.view.number ≡ 0) × (r.root.view.lent ≡ false)
        × (held r.root.view.rows ≡ 0) × (1000000 < r.root.view.allowance)) }
    ensures others { IfOk result (λ r. (r.reader.view.number ≡ 0) × (r.drawer.view.number ≡ 0)
        × (1000 ≤ r.drawer.view.draws)) }
    ensures words { IfOk result (λ r. (flags : List ℕ) × (r.reader.view.start ≡ opening_words flags)) }
    ensures lent { IfOk result (λ r. Some (words_of r.writer.view) ≡ Some r.admin.words) }
    ensures admin { IfOk result (λ r. (r.admin.actions ≡ 0) × (2 ≤ length r.admin.names)) }
    ensures first { IfOk result (λ r. (r.session.state.actions ≡ 0) × (r.session.state.place ≡ no_place)
        × (r.session.state.drawn ≡ 0)) }
    ensures closed { IfOk result (λ r. r.session.state.opened ≡ record { depth = 1; events = [] }) }
    ensures room { IfOk result (λ r. r.session.journal.room ≡ entries) }
{
    let setting = setting(alloc)?;
    let (board, root) = fresh(alloc)?;
    let (switches, reader, writer) = run_words(alloc, &setting)?;
    let (tickets, drawer) = fresh_tickets(alloc)?;
    let admin = Admin::open(alloc, &setting)?;
    let session = opened(alloc, entries)?;
    Ok(Run {
        board,
        root,
        switches,
        reader,
        writer,
        tickets,
        drawer,
        admin,
        session,
    })
}

// An actor of its own, with three hundred publications and fifty draws, that has no row in hand.
#[tactic(auto, using(pfs_board_store::proofs::FreshSeats::fresh_given, pfs_board_store::proofs::FreshSeats::length_given, pfs_board_store::proofs::FreshSeats::length_off))]
pub(crate) fn actor<'a>(
    board: &'a Board<Anything>,
    switches: &'a Switches,
    tickets: &'a Tickets,
    root: &mut BoardSeat,
    reader: &mut SwitchSeat,
    drawer: &mut TicketSeat,
) -> BoardRows<'a, Anything>
    requires tables { (root.old.board ≡ board.now.id) × (reader.old.switches ≡ switches.now.id)
        × (drawer.old.tickets ≡ tickets.now) }
    requires sizes { (17 * 14242 ≤ length board.now.start) × (161 ≤ length switches.now.start)
        × (14242 ≤ length root.old.view.rows) × (160 ≤ length reader.old.view.seen) }
    requires root { (root.old.view.number ≡ 0) × (root.old.view.lent ≡ false) × (held root.old.view.rows ≡ 0)
        × (300 < root.old.view.allowance) }
    requires others { (reader.old.view.number ≡ 0) × (drawer.old.view.number ≡ 0)
        × (50 ≤ drawer.old.view.draws) }
    requires words { (flags : List ℕ) × (reader.old.view.start ≡ opening_words flags) }
    ensures tables { (root.new.board ≡ board.now.id) × (reader.new.switches ≡ switches.now.id)
        × (drawer.new.tickets ≡ tickets.now) }
    ensures sizes { (14242 ≤ length root.new.view.rows) × (160 ≤ length reader.new.view.seen) }
    ensures root { (root.new.view.number ≡ 0) × (root.new.view.lent ≡ false) × (held root.new.view.rows ≡ 0)
        × (root.old.view.allowance ≤ root.new.view.allowance + 300) }
    ensures others { (reader.new.view.number ≡ 0) × (drawer.new.view.number ≡ 0)
        × (drawer.old.view.draws ≤ drawer.new.view.draws + 50) }
    ensures words { reader.new.view.start ≡ reader.old.view.start }
    ensures begun { IsBegun (⟦<BoardRows<'a, Anything> as Readable>⟧.seen result).reached switches.now.id }
    ensures idle { IsIdle (⟦<BoardRows<'a, Anything> as Readable>⟧.seen result).hand }
    ensures left { (⟦<BoardRows<'a, Anything> as Readable>⟧.seen result).left ≡ 300 }
    ensures draws { (⟦<BoardRows<'a, Anything> as Readable>⟧.seen result).draws ≡ 50 }
{
    let seats = Seats {
        board: board.split(root, 300),
        switches: switches.split(reader),
        tickets: tickets.split(drawer, 50),
    };
    BoardRows::new(board, switches, tickets, seats)
}
