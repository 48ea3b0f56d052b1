//! What one thread and several seats can show of a store's board that nothing has used.
ghost use Rattle.std.specs.Prelude.{◌≡◌, ℕ, ◌+◌, ◌*◌, ◌<◌, ◌≤◌, false, true, length, IfOk};
ghost use Rattle.pfs_board.specs.Knowledge.{corner, is_holding, held, stake, IsWhole};
ghost use Rattle.pfs_board.specs.SeatViews.{Place, Known, HasRow};

use super::{FIRST, Tally, read_once, take_alone, whole};
use crate::asserts::same;
use pfs_board::{Board, BoardSeat, Content, NoMemory, Opening, Seen, Taken};
use std::alloc::Global;

const ROWS: u64 = 14_242;

// The place of a current wait.
const RING: u64 = 8_450;

const OTHER: Content = [8, 0, 0, 0, 0, 0, 0, 0, 0, 0, 0, 0, 0, 0, 0, 10];

// Infos and ring places open free, the rows between them allocated with zeros.
fn fresh_rows(alloc: Global) -> Result<Vec<Opening>, NoMemory>
    ensures { IfOk result (λ v. length v.items ≡ 14242) }
{
    let mut rows = Vec::new(alloc);
    for row in 0..ROWS {
        rows.push(Opening {
            allocated: row == 0 || (129 <= row && row < RING),
            content: [0; 16],
        })?;
    }
    Ok(rows)
}

fn fresh(alloc: Global) -> Result<(Board<Tally>, BoardSeat), NoMemory>
    ensures board { IfOk result (λ b. (b.1.board ≡ b.0.id) × HasRow b.0 14241) }
    ensures root { IfOk result (λ b. IsWhole b.1.view × (b.1.view.number ≡ 0) × (b.1.view.lent ≡ false)
        × (held b.1.view.rows ≡ 0) × (1000000 < b.1.view.allowance)) }
{
    let rows = fresh_rows(alloc)?;
    Board::open(alloc, rows.as_slice(), Tally { count: 0 })
}

fn put_alone(board: &Board<Tally>, root: &mut BoardSeat, row: u64, content: &Content) -> u64
    requires board { (root.old.board ≡ board.now.id) × HasRow board.now row × (0 < row) }
    requires root { IsWhole root.old.view × (held root.old.view.rows ≡ 0) × (0 < root.old.view.allowance) }
    ensures board { root.new.board ≡ root.old.board }
    ensures root { IsWhole root.new.view × (held root.new.view.rows ≡ 0)
        × (root.new.view.number ≡ root.old.view.number) × (root.new.view.lent ≡ root.old.view.lent)
        × (root.old.view.allowance ≤ root.new.view.allowance + 1) }
{
    take_alone(board, root, row);
    board.put(root, row, content)
}

// Takes a row and keeps it in hand.
#[tactic(auto, using(pfs_board::proofs::ViewFacts::held_none))]
fn hold(board: &Board<Tally>, seat: &mut BoardSeat, row: u64) -> bool
    requires board { (seat.old.board ≡ board.now.id) × HasRow board.now row × (0 < row) }
    requires seat { (held seat.old.view.rows ≡ 0) × (0 < seat.old.view.allowance) }
    ensures board { seat.new.board ≡ seat.old.board }
{
    match board.take(seat, row) {
        Taken::Mine {
            word: _,
            content: _,
        } => true,
        Taken::Busy {
            first: _,
            second: _,
        } => false,
    }
}

// Whether the row is whole where the root reads it alone, which is never busy.
#[tactic(auto, using(pfs_board::proofs::ViewFacts::held_none))]
fn read_alone(board: &Board<Tally>, root: &mut BoardSeat, row: u64) -> bool
    requires board { (root.old.board ≡ board.now.id) × HasRow board.now row }
    requires root { IsWhole root.old.view × (held root.old.view.rows ≡ 0) }
    ensures board { root.new.board ≡ root.old.board }
    ensures root { IsWhole root.new.view × (held root.new.view.rows ≡ 0) }
{
    match board.read(root, row) {
        Seen::Whole {
            version: _,
            content: _,
        } => true,
        Seen::Free { word: _ } => false,
        Seen::Busy {
            first: _,
            second: _,
        } => unreachable!(),
    }
}

fn put_each(board: &Board<Tally>, root: &mut BoardSeat)
    requires board { (root.old.board ≡ board.now.id) × HasRow board.now 14241 }
    requires root { IsWhole root.old.view × (held root.old.view.rows ≡ 0) × (14242 < root.old.view.allowance) }
    ensures board { root.new.board ≡ root.old.board }
    ensures root { IsWhole root.new.view × (held root.new.view.rows ≡ 0) }
{
    for row in 1..ROWS {
        put_alone(board, root, row, &FIRST);
    }
}

// How many rows are whole.
fn read_each(board: &Board<Tally>, root: &mut BoardSeat) -> u64
    requires board { (root.old.board ≡ board.now.id) × HasRow board.now 14241 }
    requires root { IsWhole root.old.view × (held root.old.view.rows ≡ 0) }
    ensures board { root.new.board ≡ root.old.board }
    ensures root { IsWhole root.new.view × (held root.new.view.rows ≡ 0) }
{
    let mut whole = 0;
    for row in 0..ROWS {
        if read_alone(board, root, row) {
            whole += 1;
        }
    }
    whole
}

#[test]
fn the_root_alone_is_never_busy(rt: HostRuntime) -> Result<(), NoMemory> {
    let (board, mut root) = fresh(rt.alloc())?;
    put_each(&board, &mut root);
    assert_eq!(rt; read_each(&board, &mut root), ROWS);
    Ok(())
}

#[test]
fn a_ring_place_opens_free(rt: HostRuntime) -> Result<(), NoMemory> {
    let (board, mut root) = fresh(rt.alloc())?;
    let seen = read_once(&board, &mut root, RING);
    assert!(rt; seen == Seen::Free { word: 0 });
    Ok(())
}

#[test]
fn a_ring_place_is_freed_between_two_contents(rt: HostRuntime) -> Result<(), NoMemory> {
    let (board, mut root) = fresh(rt.alloc())?;
    let version = put_alone(&board, &mut root, RING, &FIRST);
    let seen = read_once(&board, &mut root, RING);
    same(&rt, "first", (version, seen), (1, whole(1, FIRST)));
    take_alone(&board, &mut root, RING);
    board.free(&mut root, RING);
    let seen = read_once(&board, &mut root, RING);
    same(&rt, "freed", seen, Seen::Free { word: 4 });
    let version = put_alone(&board, &mut root, RING, &OTHER);
    let seen = read_once(&board, &mut root, RING);
    same(&rt, "other", (version, seen), (2, whole(2, OTHER)));
    Ok(())
}

#[test]
fn a_row_in_another_hand_is_busy(rt: HostRuntime) -> Result<(), NoMemory> {
    let (board, mut root) = fresh(rt.alloc())?;
    put_alone(&board, &mut root, RING, &FIRST);
    let mut second = board.split(&mut root, 5);
    let seen = read_once(&board, &mut second, RING);
    same(&rt, "seen", seen, whole(1, FIRST));
    same(&rt, "in hand", hold(&board, &mut root, RING), true);
    let seen = read_once(&board, &mut second, RING);
    let busy = Seen::Busy {
        first: 5,
        second: 5,
    };
    same(&rt, "seen in hand", seen, busy);
    Ok(())
}
