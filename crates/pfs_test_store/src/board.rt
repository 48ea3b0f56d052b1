ghost use Rattle.std.specs.Prelude.{◌≡◌, ℕ, ◌+◌, ◌*◌, ◌<◌, ◌≤◌, false, true, length, IfOk, IfSome};
ghost use Rattle.pfs_board.specs.declared.view.Label.{Label};
ghost use Rattle.pfs_board.specs.Knowledge.{corner, is_holding, held, stake, IsWhole};
ghost use Rattle.pfs_board.specs.SeatViews.{Place, Known, HasRow};

use crate::asserts::same;
use pfs_board::{Board, BoardSeat, Content, Kept, NoMemory, Opening, Seen, Taken};
use std::alloc::Global;
use std::thread::join;

mod actions;
mod hostile;

// How many actions there were.
#[derive(Drop)]
pub(crate) struct Tally {
    pub(crate) count: u64,
}

impl Kept for Tally {
    ghost stands_for = { λ x labels. x.count ≡ length labels };
}

pub(crate) const FIRST: Content = [7, 0, 0, 0, 0, 0, 0, 0, 0, 0, 0, 0, 0, 0, 0, 9];

// A board of two rows with zeros, of which row 1 is allocated or free.
pub(crate) fn opened(alloc: Global, allocated: bool) -> Result<(Board<Tally>, BoardSeat), NoMemory>
    ensures board { IfOk result (λ b. (b.1.board ≡ b.0.id) × HasRow b.0 1) }
    ensures root { IfOk result (λ b. IsWhole b.1.view × (b.1.view.number ≡ 0) × (b.1.view.action ≡ 0)
        × (b.1.view.lent ≡ false) × (held b.1.view.rows ≡ 0) × (1000000 < b.1.view.allowance)) }
{
    let rows = [
        Opening {
            allocated: true,
            content: [0; 16],
        },
        Opening {
            allocated,
            content: [0; 16],
        },
    ];
    Board::open(alloc, &rows, Tally { count: 0 })
}

// A take that the root makes alone is never busy.
#[tactic(auto, using(pfs_board::proofs::ViewFacts::held_none))]
pub(crate) fn take_alone(board: &Board<Tally>, root: &mut BoardSeat, row: u64) -> (u64, Content)
    requires board { (root.old.board ≡ board.now.id) × HasRow board.now row × (0 < row) }
    requires root { IsWhole root.old.view × (held root.old.view.rows ≡ 0) × (0 < root.old.view.allowance) }
    ensures board { root.new.board ≡ root.old.board }
    ensures row { is_holding (corner root.new.view row).stage ≡ true }
    ensures root { IsWhole root.new.view × (held root.new.view.rows ≡ 1)
        × (root.new.view.number ≡ root.old.view.number) × (root.new.view.lent ≡ root.old.view.lent)
        × (root.new.view.allowance ≡ root.old.view.allowance) }
{
    match board.take(root, row) {
        Taken::Mine { word, content } => (word, content),
        Taken::Busy {
            first: _,
            second: _,
        } => unreachable!(),
    }
}

// Takes row 1 and puts a content, where it is not in another's hand.
#[tactic(auto, using(pfs_board::proofs::ViewFacts::held_none))]
fn put_once(board: &Board<Tally>, seat: &mut BoardSeat, content: &Content) -> Option<u64>
    requires board { (seat.old.board ≡ board.now.id) × HasRow board.now 1 }
    requires seat { (held seat.old.view.rows ≡ 0) × (0 < seat.old.view.allowance) }
    ensures board { seat.new.board ≡ seat.old.board }
    ensures seat { (held seat.new.view.rows ≡ 0) × (seat.new.view.number ≡ seat.old.view.number)
        × (seat.new.view.lent ≡ seat.old.view.lent) × (seat.old.view.allowance ≤ seat.new.view.allowance + 1) }
    ensures stake { stake seat.new.view ≡ stake seat.old.view }
{
    match board.take(seat, 1) {
        Taken::Mine {
            word: _,
            content: _,
        } => Some(board.put(seat, 1, content)),
        Taken::Busy {
            first: _,
            second: _,
        } => None,
    }
}

#[tactic(auto, using(pfs_board::proofs::ViewFacts::held_none))]
pub(crate) fn read_once(board: &Board<Tally>, seat: &mut BoardSeat, row: u64) -> Seen
    requires board { (seat.old.board ≡ board.now.id) × HasRow board.now row }
    requires seat { held seat.old.view.rows ≡ 0 }
    ensures board { seat.new.board ≡ seat.old.board }
    ensures seat { (held seat.new.view.rows ≡ 0) × (seat.new.view.number ≡ seat.old.view.number)
        × (seat.new.view.lent ≡ seat.old.view.lent) × (seat.new.view.allowance ≡ seat.old.view.allowance) }
    ensures stake { stake seat.new.view ≡ stake seat.old.view }
{
    board.read(seat, row)
}

// What is seen of a row that is whole.
pub(crate) fn whole(version: u64, content: Content) -> Seen {
    Seen::Whole { version, content }
}

#[test]
fn one_row_is_taken_put_and_read(rt: HostRuntime) -> Result<(), NoMemory> {
    let (board, mut root) = opened(rt.alloc(), true)?;
    let found = take_alone(&board, &mut root, 1);
    same(&rt, "found", found, (2, [0; 16]));
    same(&rt, "put", board.put(&mut root, 1, &FIRST), 1);
    let seen = read_once(&board, &mut root, 1);
    same(&rt, "seen", seen, whole(1, FIRST));
    let (rows, tally) = board.close(root);
    let row = &rows.as_slice()[1];
    same(&rt, "left", (row.word, row.content), (6, FIRST));
    same(&rt, "actions", tally.count, 0);
    Ok(())
}

#[tactic(auto, using(pfs_board::proofs::ViewFacts::held_none))]
#[test]
fn a_row_in_hand_is_busy_to_another_seat(rt: HostRuntime) -> Result<(), NoMemory> {
    let (board, mut root) = opened(rt.alloc(), true)?;
    let mut second = board.split(&mut root, 5);
    put_once(&board, &mut root, &FIRST);
    let Taken::Mine { word, content } = board.take(&mut root, 1) else {
        panic!(rt; "nobody has the row");
    };
    same(&rt, "found", (word, content), (6, FIRST));
    let seen = read_once(&board, &mut second, 1);
    let busy = Seen::Busy {
        first: 5,
        second: 5,
    };
    same(&rt, "seen in hand", seen, busy);
    board.put(&mut root, 1, &[0; 16]);
    let seen = read_once(&board, &mut second, 1);
    same(&rt, "seen behind it", seen, whole(2, [0; 16]));
    board.join(&mut root, second);
    let (rows, _) = board.close(root);
    let row = &rows.as_slice()[1];
    same(&rt, "left", (row.word, row.content), (10, [0; 16]));
    Ok(())
}

#[test]
fn a_row_that_opened_free_is_seen_free(rt: HostRuntime) -> Result<(), NoMemory> {
    let (board, mut root) = opened(rt.alloc(), false)?;
    let seen = read_once(&board, &mut root, 1);
    same(&rt, "seen", seen, Seen::Free { word: 0 });
    let found = take_alone(&board, &mut root, 1);
    same(&rt, "found", found, (0, [0; 16]));
    same(&rt, "put", board.put(&mut root, 1, &FIRST), 1);
    let seen = read_once(&board, &mut root, 1);
    same(&rt, "seen behind it", seen, whole(1, FIRST));
    let (rows, _) = board.close(root);
    same(&rt, "left", rows.as_slice()[1].word, 6);
    Ok(())
}

#[test]
fn a_row_is_released(rt: HostRuntime) -> Result<(), NoMemory> {
    let (board, mut root) = opened(rt.alloc(), true)?;
    take_alone(&board, &mut root, 1);
    same(&rt, "put", board.put(&mut root, 1, &FIRST), 1);
    let (word, content) = take_alone(&board, &mut root, 1);
    same(&rt, "taken", word, 6);
    board.free(&mut root, 1);
    let seen = read_once(&board, &mut root, 1);
    same(&rt, "seen", seen, Seen::Free { word: 4 });
    let found = take_alone(&board, &mut root, 1);
    same(&rt, "found", found, (4, content));
    same(&rt, "put again", board.put(&mut root, 1, &found.1), 2);
    Ok(())
}

// What one thread did: how often it published, and whether it read words of two publications at once.
#[derive(Drop)]
struct Work {
    seat: BoardSeat,
    puts: u64,
    torn: bool,
}

const ROUNDS: u64 = 3000;

fn put_and_read(board: &Board<Tally>, mut seat: BoardSeat, by: u64) -> Work
    requires board { (seat.board ≡ board.now.id) × HasRow board.now 1 }
    requires seat { (held seat.view.rows ≡ 0) × (3000 ≤ seat.view.allowance) }
    ensures board { result.seat.board ≡ board.now.id }
    ensures seat { (held result.seat.view.rows ≡ 0) × (stake result.seat.view ≡ stake seat.view) }
    ensures puts { result.puts ≤ 3000 }
{
    let mut puts = 0;
    let mut torn = false;
    for i in 0..ROUNDS {
        if put_once(board, &mut seat, &[by.wrapping_add(i); 16]).is_some() {
            puts += 1;
        }
        if let Seen::Whole {
            version: _,
            content,
        } = read_once(board, &mut seat, 1)
        {
            torn = torn || content[0] != content[15];
        }
    }
    Work { seat, puts, torn }
}

#[test]
fn two_threads_share_a_row(rt: HostRuntime) -> Result<(), NoMemory> {
    let (board, mut root) = opened(rt.alloc(), true)?;
    let one = board.split(&mut root, 4000);
    let two = board.split(&mut root, 4000);
    let (one, two) = join(
        &rt,
        || -> Work
            requires { (one.board ≡ board.id) × HasRow board 1 × (held one.view.rows ≡ 0)
                × (3000 ≤ one.view.allowance) }
            ensures { (result.seat.board ≡ board.id) × (held result.seat.view.rows ≡ 0)
                × (stake result.seat.view ≡ stake one.view) × (result.puts ≤ 3000) }
        { put_and_read(&board, one, 0) },
        || -> Work
            requires { (two.board ≡ board.id) × HasRow board 1 × (held two.view.rows ≡ 0)
                × (3000 ≤ two.view.allowance) }
            ensures { (result.seat.board ≡ board.id) × (held result.seat.view.rows ≡ 0)
                × (stake result.seat.view ≡ stake two.view) × (result.puts ≤ 3000) }
        { put_and_read(&board, two, ROUNDS) },
    );
    same(&rt, "torn", (one.torn, two.torn), (false, false));
    let puts = one.puts + two.puts;
    assert!(rt; 0 < puts);
    board.join(&mut root, one.seat);
    board.join(&mut root, two.seat);
    let (rows, _) = board.close(root);
    same(&rt, "left", rows.as_slice()[1].word, 4 * puts + 2);
    Ok(())
}
