ghost use Rattle.std.specs.Prelude.{◌≡◌, ◌≤◌};
ghost use Rattle.pfs_tickets.specs.Knowledge.{stake};

use crate::asserts::same;
use pfs_tickets::{NoMemory, TicketSeat, Tickets};
use std::thread::join;

#[test]
fn tickets_of_a_kind_are_drawn_in_turn(rt: HostRuntime) -> Result<(), NoMemory> {
    let (tickets, mut root) = Tickets::open(rt.alloc())?;
    let mut first = tickets.split(&mut root, 3);
    let mut second = tickets.split(&mut root, 2);
    same(&rt, "first", tickets.draw(&mut first, 2), 0);
    same(&rt, "second", tickets.draw(&mut second, 2), 1);
    same(&rt, "other kind", tickets.draw(&mut second, 3), 0);
    same(&rt, "first again", tickets.draw(&mut first, 2), 2);
    same(&rt, "root", tickets.draw(&mut root, 0), 0);
    tickets.join(&mut root, second);
    tickets.join(&mut root, first);
    Ok(())
}

#[test]
fn the_root_is_told_and_goes_on(rt: HostRuntime) -> Result<(), NoMemory> {
    let (tickets, mut root) = Tickets::open(rt.alloc())?;
    same(&rt, "none", tickets.tell(&mut root, 1), 0);
    let mut seat = tickets.split(&mut root, 5);
    same(&rt, "first", tickets.draw(&mut seat, 1), 0);
    same(&rt, "second", tickets.draw(&mut seat, 1), 1);
    tickets.join(&mut root, seat);
    same(&rt, "two", tickets.tell(&mut root, 1), 2);
    same(&rt, "third", tickets.draw(&mut root, 1), 2);
    same(&rt, "three", tickets.tell(&mut root, 1), 3);
    same(&rt, "other kind", tickets.tell(&mut root, 3), 0);
    Ok(())
}

const ROUNDS: u64 = 3000;

// What a thread drew of kind 2: the sum of its tickets, and whether one was not above the one before.
#[derive(Drop)]
struct Draws {
    seat: TicketSeat,
    sum: u64,
    fell: bool,
}

fn draw_often(tickets: &Tickets, mut seat: TicketSeat) -> Draws
    requires { (seat.tickets ≡ tickets.now) × (3000 ≤ seat.view.draws) }
    ensures { (result.seat.tickets ≡ seat.tickets) × (stake result.seat.view ≡ stake seat.view) }
{
    let mut sum = 0u64;
    let mut fell = false;
    let mut next = 0;
    for _ in 0..ROUNDS {
        let ticket = tickets.draw(&mut seat, 2);
        fell = fell || ticket < next;
        next = ticket + 1;
        sum = sum.wrapping_add(ticket);
    }
    Draws { seat, sum, fell }
}

#[test]
fn two_threads_draw_each_ticket_once(rt: HostRuntime) -> Result<(), NoMemory> {
    let (tickets, mut root) = Tickets::open(rt.alloc())?;
    let one = tickets.split(&mut root, ROUNDS);
    let two = tickets.split(&mut root, ROUNDS);
    let (one, two) = join(
        &rt,
        || -> Draws
            requires { (one.tickets ≡ tickets) × (3000 ≤ one.view.draws) }
            ensures { (result.seat.tickets ≡ one.tickets) × (stake result.seat.view ≡ stake one.view) }
        { draw_often(&tickets, one) },
        || -> Draws
            requires { (two.tickets ≡ tickets) × (3000 ≤ two.view.draws) }
            ensures { (result.seat.tickets ≡ two.tickets) × (stake result.seat.view ≡ stake two.view) }
        { draw_often(&tickets, two) },
    );
    same(&rt, "fell", (one.fell, two.fell), (false, false));
    let sum = one.sum.wrapping_add(two.sum);
    same(&rt, "sum", sum, ROUNDS * (2 * ROUNDS - 1));
    let Draws { seat, .. } = one;
    tickets.join(&mut root, seat);
    let Draws { seat, .. } = two;
    tickets.join(&mut root, seat);
    same(&rt, "drawn", tickets.tell(&mut root, 2), 2 * ROUNDS);
    Ok(())
}
