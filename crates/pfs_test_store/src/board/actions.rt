ghost use Rattle.std.specs.Prelude.{◌≡◌, ℕ, ◌+◌, ◌*◌, ◌<◌, ◌≤◌, ◌++◌, ◌∷◌, [], List, false, true, length, IfOk, OnOk};
ghost use Rattle.pfs_board.specs.declared.view.Label.{Label};
ghost use Rattle.pfs_board.specs.Knowledge.{corner, is_holding, held, stake, IsWhole};
ghost use Rattle.pfs_board.specs.SeatViews.{Place, Known, HasRow};

use super::{Tally, opened, read_once, whole};
use crate::asserts::same;
use pfs_board::{Board, BoardSeat, Kept, Label, NoMemory, Opening, Seen};
use std::alloc::Global;
use std::sync::Wait;
use std::thread::join;

// An action that counts itself.
fn count_one<R: Wait>(rt: &R, board: &Board<Tally>, seat: &mut BoardSeat, line: u64) -> (u64, u64)
    requires board { seat.old.board ≡ board.now.id }
    requires seat { (seat.old.view.action ≡ 0) × (seat.old.view.lent ≡ false) × (held seat.old.view.rows ≡ 0)
        × (0 < seat.old.view.allowance) }
    ensures board { seat.new.board ≡ seat.old.board }
    ensures seat { (seat.new.view.action ≡ 0) × (seat.new.view.lent ≡ false) × (held seat.new.view.rows ≡ 0)
        × (seat.new.view.number ≡ seat.old.view.number) × (seat.old.view.allowance ≤ seat.new.view.allowance + 1)
        × (stake seat.new.view ≡ stake seat.old.view) }
{
    let (number, mut tally) = board.enter(rt, seat, Label { session: 0, line });
    let before = tally.count;
    tally.count += 1;
    board.leave(seat, tally);
    (number, before)
}

#[test]
fn the_root_acts_twice(rt: HostRuntime) -> Result<(), NoMemory> {
    let (board, mut root) = opened(rt.alloc(), true)?;
    let first = count_one(&rt, &board, &mut root, 1);
    let second = count_one(&rt, &board, &mut root, 2);
    same(&rt, "numbers", (first, second), ((1, 0), (2, 1)));
    let seen = read_once(&board, &mut root, 0);
    same(&rt, "seen", seen, whole(2, [0; 16]));
    let (rows, tally) = board.close(root);
    same(&rt, "left", (rows.as_slice()[0].word, tally.count), (10, 2));
    Ok(())
}

#[test]
fn the_value_is_lent_and_restored(rt: HostRuntime) -> Result<(), NoMemory> {
    let (board, mut root) = opened(rt.alloc(), true)?;
    count_one(&rt, &board, &mut root, 1);
    let tally = board.lend(&mut root);
    same(&rt, "lent", tally.count, 1);
    board.restore(&mut root, tally);
    let second = count_one(&rt, &board, &mut root, 2);
    same(&rt, "number", second, (2, 1));
    let (_, tally) = board.close(root);
    same(&rt, "left", tally.count, 2);
    Ok(())
}

// The labels of all actions, in their order.
#[derive(Drop)]
struct Register {
    labels: Vec<Label>,
}

impl Kept for Register {
    ghost stands_for = { λ x labels. x.labels.items ≡ labels };
}

fn register_one<R: Wait>(
    rt: &R,
    board: &Board<Register>,
    seat: &mut BoardSeat,
    label: Label,
) -> Result<(), NoMemory>
    requires board { seat.old.board ≡ board.now.id }
    requires seat { (seat.old.view.action ≡ 0) × (seat.old.view.lent ≡ false) × (held seat.old.view.rows ≡ 0)
        × (0 < seat.old.view.allowance) }
    ensures board { seat.new.board ≡ seat.old.board }
    ensures seat { OnOk result ((seat.new.view.action ≡ 0) × (seat.new.view.lent ≡ false)
        × (held seat.new.view.rows ≡ 0) × (seat.old.view.allowance ≤ seat.new.view.allowance + 1)
        × (stake seat.new.view ≡ stake seat.old.view)) }
{
    let (_, mut register) = board.enter(rt, seat, label);
    register.labels.push(label)?;
    board.leave(seat, register);
    Ok(())
}

const LINES: u64 = 1000;

fn register_lines<R: Wait>(
    rt: &R,
    board: &Board<Register>,
    mut seat: BoardSeat,
    session: u64,
) -> Result<BoardSeat, NoMemory>
    requires board { seat.board ≡ board.now.id }
    requires seat { (seat.view.action ≡ 0) × (seat.view.lent ≡ false) × (held seat.view.rows ≡ 0)
        × (1000 ≤ seat.view.allowance) }
    ensures board { IfOk result (λ s. s.board ≡ board.now.id) }
    ensures seat { IfOk result (λ s. (held s.view.rows ≡ 0) × (stake s.view ≡ stake seat.view)) }
{
    for line in 0..LINES {
        register_one(
            rt,
            board,
            &mut seat,
            Label {
                session,
                line: line + 1,
            },
        )?;
    }
    Ok(seat)
}

// How many lines of the session stand in the register, or none where they aren't the first ones in their order.
fn lines_of(register: &Register, session: u64) -> Option<u64> {
    let mut count = 0;
    for label in &register.labels {
        if label.session == session {
            if label.line != count + 1 {
                return None;
            }
            count += 1;
        }
    }
    Some(count)
}

#[test]
fn two_threads_act_a_thousand_times_each(rt: HostRuntime) -> Result<(), NoMemory> {
    let alloc = rt.alloc();
    let rows = [Opening {
        allocated: true,
        content: [0; 16],
    }];
    let labels = Vec::with_capacity(alloc, 2000)?;
    let (board, mut root) = Board::open(alloc, &rows, Register { labels })?;
    let one = board.split(&mut root, 2000);
    let two = board.split(&mut root, 2000);
    let (one, two) = join(
        &rt,
        || -> Result<BoardSeat, NoMemory>
            requires { (one.board ≡ board.id) × (one.view.action ≡ 0) × (one.view.lent ≡ false)
                × (held one.view.rows ≡ 0) × (1000 ≤ one.view.allowance) }
            ensures { IfOk result (λ s. (s.board ≡ board.id) × (held s.view.rows ≡ 0)
                × (stake s.view ≡ stake one.view)) }
        { register_lines(&rt, &board, one, 1) },
        || -> Result<BoardSeat, NoMemory>
            requires { (two.board ≡ board.id) × (two.view.action ≡ 0) × (two.view.lent ≡ false)
                × (held two.view.rows ≡ 0) × (1000 ≤ two.view.allowance) }
            ensures { IfOk result (λ s. (s.board ≡ board.id) × (held s.view.rows ≡ 0)
                × (stake s.view ≡ stake two.view)) }
        { register_lines(&rt, &board, two, 2) },
    );
    board.join(&mut root, one?);
    board.join(&mut root, two?);
    let (rows, register) = board.close(root);
    same(&rt, "left", rows.as_slice()[0].word, 4 * 2 * LINES + 2);
    same(&rt, "labels", register.labels.len(), 2000);
    let lines = (lines_of(&register, 1), lines_of(&register, 2));
    same(&rt, "lines", lines, (Some(LINES), Some(LINES)));
    Ok(())
}
