//! The tickets, their seats, and the calls.
ghost use Rattle.std.specs.Prelude.{◌≡◌, ℕ, ◌+◌, ◌<◌, ◌≤◌, IfOk};
ghost use Rattle.atomic_table.specs.Seated.{TableId};
ghost use Rattle.pfs_tickets.specs.declared.view.Drawn.{Drawn};
ghost use Rattle.pfs_tickets.specs.History.{Each, count_of};
ghost use Rattle.pfs_tickets.specs.Knowledge.{all_draws, IsWhole, root, drew, left_with, given, joined};
ghost use Rattle.pfs_tickets.specs.SeatViews.{Known, known, first_view, IsSized, IsReady};
ghost use Rattle.pfs_tickets.specs.WholeSeats.{IsComplete};

use crate::rules::{Count, Cut, Draw, Glue, Rules, Tell};
use crate::view::View;
use atomic_table::{Badge, Table};
use std::alloc::{AllocError, Global};
use std::marker::Model;
use std::mem;

/// There was no memory.
pub type NoMemory = AllocError;

/// The tickets of the four kinds 0 to 3. Contracts see which ones they are.
#[derive(Drop)]
pub struct Tickets {
    table: Table<(), View, (), Rules, Global>,
}

impl Model for Tickets {
    ghost Value = { TableId };

    ghost view = { λ b. b.table.shared.table_id };

    ghost invariant = { λ b. IsSized b.table.shared.table_id };
}

/// What one actor knows of the tickets, and its right to draw. It has no bytes. Contracts see which tickets it is of,
/// and the view.
#[derive(Drop)]
pub struct TicketSeat {
    badge: Badge<View>,
}

impl Model for TicketSeat {
    ghost Value = { Known };

    ghost view = { λ s. known s.badge.table_id (first_view s.badge.views) };

    ghost invariant = { λ s. IsReady s.badge.views };
}

impl Tickets {
    /// Four words at 0, where no ticket is drawn yet, and the root seat with all draws, 2^47. It is refused only
    /// where there is no memory.
    pub fn open(alloc: Global) -> Result<(Tickets, TicketSeat), NoMemory>
        ensures seat { IfOk result (λ b. b.1 ≡ known b.0 root) }
    {
        let (table, seat) = Table::of_words(alloc, &[0, 0, 0, 0], &())?;
        Ok((
            Tickets { table },
            TicketSeat {
                badge: seat.into_badge(),
            },
        ))
    }

    /// Draws the next ticket of a kind, 0 to 3: one fetch-and-add. It is above each of its kind that the seat has,
    /// and where no other seat is out it is their number. It takes one of the seat's draws, and waits for nobody. The
    /// rule is our own.
    pub fn draw(&self, seat: &mut TicketSeat, kind: u64) -> u64
        requires tickets { seat.old.tickets ≡ self.now }
        requires kind { kind < 4 }
        requires left { 0 < seat.old.view.draws }
        ensures seat { seat.new ≡ known seat.old.tickets (drew seat.old.view kind result) }
        ensures above { Each (λ (x : Drawn). x.kind ≡ kind → x.ticket < result) seat.old.view.tickets }
        ensures next { IsWhole seat.old.view → result ≡ count_of kind seat.old.view.tickets }
        ensures room { result + seat.old.view.draws ≤ all_draws }
    {
        let badge = mem::replace(&mut seat.badge, Badge::blank());
        let mut sitting = badge.into_seat::<()>();
        let ticket = self
            .table
            .shared
            .fetch_add::<Draw>(&mut sitting, kind as usize, 1);
        seat.badge = sitting.into_badge();
        ticket
    }

    /// A new seat with this many of the root's draws. Its number is how many seats the root has then made.
    pub fn split(&self, seat: &mut TicketSeat, draws: u64) -> TicketSeat
        requires tickets { seat.old.tickets ≡ self.now }
        requires root { seat.old.view.number ≡ 0 }
        requires draws { draws ≤ seat.old.view.draws }
        ensures seat { seat.new ≡ known seat.old.tickets (left_with seat.old.view draws) }
        ensures new { result ≡ known seat.old.tickets (given seat.old.view draws) }
    {
        let badge = mem::replace(&mut seat.badge, Badge::blank());
        let mut sitting = badge.into_seat::<()>();
        let shared = &self.table.shared;
        shared.compare_exchange::<Tell>(&mut sitting, 0, draws, draws);
        let other = shared.split_seat::<Cut>(&mut sitting);
        seat.badge = sitting.into_badge();
        TicketSeat {
            badge: other.into_badge(),
        }
    }

    /// Takes a seat in: the draws that it has left, and its tickets with their drawers' numbers.
    pub fn join(&self, seat: &mut TicketSeat, other: TicketSeat)
        requires tickets { (seat.old.tickets ≡ self.now) × (other.tickets ≡ self.now) }
        requires root { seat.old.view.number ≡ 0 }
        ensures seat { seat.new ≡ known seat.old.tickets (joined seat.old.view other.view) }
    {
        let TicketSeat { badge: other } = other;
        let badge = mem::replace(&mut seat.badge, Badge::blank());
        let mut sitting = badge.into_seat::<()>();
        self.table
            .shared
            .join_seat::<Glue>(&mut sitting, other.into_seat::<()>());
        seat.badge = sitting.into_badge();
    }

    /// How many tickets of a kind, 0 to 3, were drawn. It tells a seat that has the whole sum of draws left and
    /// tickets drawn all that holds of them. One load; the seat stays as it is, and the tickets stay in use. It waits
    /// for nobody.
    pub fn tell(&self, seat: &mut TicketSeat, kind: u64) -> u64
        requires tickets { seat.old.tickets ≡ self.now }
        requires kind { kind < 4 }
        requires whole { IsWhole seat.old.view }
        ensures count { result ≡ count_of kind seat.old.view.tickets }
        ensures complete { IsComplete seat.old.view }
        ensures seat { seat.new ≡ seat.old }
    {
        let badge = mem::replace(&mut seat.badge, Badge::blank());
        let mut sitting = badge.into_seat::<()>();
        let word = self.table.shared.load::<Count>(&mut sitting, kind as usize);
        seat.badge = sitting.into_badge();
        word
    }
}
