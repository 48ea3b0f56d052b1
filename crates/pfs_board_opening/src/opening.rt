//! The tables of a run.

ghost use Rattle.std.specs.Prelude.{◌≡◌, [], IfOk};
ghost use Rattle.pfs_admin.specs.OpeningState.{opening_flags as flags_of};
ghost use Rattle.pfs_board.specs.Knowledge.{IsWhole};
ghost use Rattle.pfs_board_root.specs.Settlements.{HasSettled};
ghost use Rattle.pfs_matching.specs.ObjectRules.{opening_objects};
ghost use Rattle.pfs_tickets.specs.Knowledge.{IsWhole as HasAllDraws};
ghost use Rattle.pfs_board_opening.specs.Opened.{AreFresh, HaveOpened, first_root, nothing_lost};

use crate::NoMemory;
use crate::rows::FirstRows;
use pfs_admin::opening_flags;
use pfs_board::{Board, laws as board_laws};
use pfs_board_admin::{Desk, Shared};
use pfs_board_root::Root;
use pfs_board_store::{Seats, laws};
use pfs_classes::Setting;
use pfs_matching::Objects;
use pfs_switches::{SwitchSeat, Switches, Writer};
use pfs_tickets::Tickets;
use std::alloc::Global;

/// The setup words of a run, with their first seat and their writer. A run is named by them (`Shared`), so they open
/// before the tables that stand for it.
#[derive(Drop)]
pub struct RunWords {
    pub switches: Switches,
    pub seat: SwitchSeat,
    pub writer: Writer,
}

/// The words of a setting's run.
pub fn open_words(alloc: Global, setting: &Setting) -> Result<RunWords, NoMemory>
    ensures { IfOk result (λ words. AreFresh setting.now words.switches words.seat words.writer) }
{
    let objects = Objects::open(alloc)?;
    let flags = opening_flags(alloc, setting, &objects)?;
    let (switches, seat, writer) = Switches::open(alloc, flags.as_slice())?;
    Ok(RunWords {
        switches,
        seat,
        writer,
    })
}

/// The tables of a run: its board, which keeps the desk, its setup words and its tickets.
#[derive(Drop)]
pub struct Tables<N: Shared> {
    pub board: Board<Desk<N>>,
    pub switches: Switches,
    pub tickets: Tickets,
}

/// The tables of a run that is named by its setting and these words, with their first seats.
pub fn open_tables<N: Shared>(
    alloc: Global,
    setting: &Setting,
    words: RunWords,
) -> Result<(Tables<N>, Seats), NoMemory>
    requires setting { N.setting ≡ setting.now }
    requires run { words.switches.id ≡ N.switches }
    requires fresh { AreFresh setting.now words.switches words.seat words.writer }
    ensures { IfOk result (λ r. HaveOpened setting.now N.switches r.0.board r.0.switches r.0.tickets r.1.board
        r.1.switches r.1.tickets) }
{
    board_laws::opened();
    laws::opened();
    let RunWords {
        switches,
        seat,
        writer,
    } = words;
    let desk: Desk<N> = Desk::open(alloc, setting, writer)?;
    let (board, first) = Board::open_by(alloc, &FirstRows {}, desk)?;
    let (tickets, drawer) = Tickets::open(alloc)?;
    let seats = Seats {
        board: first,
        switches: seat,
        tickets: drawer,
    };
    Ok((
        Tables {
            board,
            switches,
            tickets,
        },
        seats,
    ))
}

impl<N: Shared> Tables<N> {
    /// The root of these tables, which has settled once: it was told an end of no actors, where nothing was lost.
    pub fn begin(&self, seats: Seats) -> Root<'_, N>
        requires { HaveOpened N.setting N.switches self.now.board self.now.switches self.now.tickets seats.board
            seats.switches seats.tickets }
        ensures settled { HasSettled N.setting N.change (flags_of N.setting opening_objects) N.switches [] nothing_lost
            (first_root self.now.board self.now.switches self.now.tickets) result }
        ensures whole { IsWhole result.seat × HasAllDraws result.draws }
    {
        let mut root = Root::new(&self.board, &self.switches, &self.tickets, seats);
        root.settle();
        root
    }
}
