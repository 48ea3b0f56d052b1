ghost use Rattle.std.specs.Prelude.{◌≡◌, ◌+◌, ◌<◌, length, IfOk};
ghost use Rattle.pfs_switches.specs.SeatViews.{HasWord};

use crate::asserts::same;
use pfs_switches::{NoMemory, SwitchSeat, Switches, Writer};
use std::alloc::Global;
use std::thread::join;

// Words with the flags of the consumers at first, and none on all others.
fn opened(alloc: Global) -> Result<(Switches, SwitchSeat, Writer), NoMemory>
    ensures { IfOk result (λ b. (b.1.switches ≡ b.0.id) × (b.2.switches ≡ b.0.id) × HasWord b.0 39
        × (b.1.view.number ≡ 0)) }
{
    let mut flags = [0u16; 160];
    flags[0] = 28888;
    Switches::open(alloc, &flags)
}

#[test]
fn a_set_is_loaded(rt: HostRuntime) -> Result<(), NoMemory> {
    let (switches, mut seat, mut writer) = opened(rt.alloc())?;
    same(&rt, "first", switches.load(&mut seat, 0), (0, 28888));
    same(&rt, "opening", switches.load(&mut seat, 39), (0, 0));
    same(&rt, "set", switches.set(&mut writer, 39, 1), Ok(1));
    same(&rt, "loaded", switches.load(&mut seat, 39), (1, 1));
    Ok(())
}

#[test]
fn a_set_is_loaded_at_once(rt: HostRuntime) -> Result<(), NoMemory> {
    let (switches, mut seat, mut writer) = opened(rt.alloc())?;
    same(&rt, "set", switches.set(&mut writer, 39, 1), Ok(1));
    let both = switches.set_and_load(&mut seat, &mut writer, 39, 3);
    same(&rt, "set and loaded", both, Ok((2, 3)));
    same(&rt, "loaded", switches.load(&mut seat, 39), (2, 3));
    same(&rt, "first", switches.load(&mut seat, 0), (0, 28888));
    Ok(())
}

#[test]
fn a_seat_is_taken_in(rt: HostRuntime) -> Result<(), NoMemory> {
    let (switches, mut root, mut writer) = opened(rt.alloc())?;
    let mut seat = switches.split(&mut root);
    same(&rt, "set", switches.set(&mut writer, 39, 3), Ok(1));
    switches.meet(&mut seat, &mut writer);
    same(&rt, "loaded", switches.load(&mut seat, 39), (1, 3));
    switches.join(&mut root, seat);
    let rows = switches.close(root, writer);
    let rows = rows.as_slice();
    same(&rt, "words", rows.len(), 160);
    same(&rt, "left", (rows[0], rows[39]), ((0, 28888), (1, 3)));
    Ok(())
}

const ROUNDS: u64 = 3000;

// What a thread saw of word 39: its last version, whether a version fell, and whether flags were not those of their
// version.
#[derive(Drop)]
struct Loads {
    seat: SwitchSeat,
    last: u64,
    fell: bool,
    mixed: bool,
}

fn load_often(switches: &Switches, mut seat: SwitchSeat) -> Loads
    requires { (seat.switches ≡ switches.now.id) × HasWord switches.now 39 }
    ensures { result.seat.switches ≡ switches.now.id }
{
    let mut last = 0;
    let mut fell = false;
    let mut mixed = false;
    for _ in 0..ROUNDS {
        let (version, flags) = switches.load(&mut seat, 39);
        fell = fell || version < last;
        mixed = mixed || version % 4 != u64::from(flags);
        last = version;
    }
    Loads {
        seat,
        last,
        fell,
        mixed,
    }
}

// Each version of word 39 gets the flags that are its number modulo 4.
fn set_often(switches: &Switches, mut writer: Writer) -> Writer
    requires { (writer.switches ≡ switches.now.id) × HasWord switches.now 39 }
    ensures { result.switches ≡ switches.now.id }
{
    for i in 0..ROUNDS {
        let _ = switches.set(&mut writer, 39, ((i + 1) % 4) as u16);
    }
    writer
}

#[test]
fn a_thread_loads_while_another_sets(rt: HostRuntime) -> Result<(), NoMemory> {
    let (switches, mut root, writer) = opened(rt.alloc())?;
    let seat = switches.split(&mut root);
    let (loads, mut writer) = join(
        &rt,
        || -> Loads
            requires { (seat.switches ≡ switches.id) × HasWord switches 39 }
            ensures { result.seat.switches ≡ switches.id }
        { load_often(&switches, seat) },
        || -> Writer
            requires { (writer.switches ≡ switches.id) × HasWord switches 39 }
            ensures { result.switches ≡ switches.id }
        { set_often(&switches, writer) },
    );
    let wrong = (loads.fell, loads.mixed, ROUNDS < loads.last);
    same(&rt, "wrong", wrong, (false, false, false));
    let mut seat = loads.seat;
    switches.meet(&mut seat, &mut writer);
    let last = (ROUNDS, (ROUNDS % 4) as u16);
    same(&rt, "loaded", switches.load(&mut seat, 39), last);
    switches.join(&mut root, seat);
    let rows = switches.close(root, writer);
    same(&rt, "left", rows.as_slice()[39], last);
    Ok(())
}
