//! What a test's run is about.

ghost use Rattle.std.specs.Prelude.{◌≡◌, ◌≤◌, IfOk, length};
ghost use Rattle.pfs_session.specs.SessionStates.{fresh};

use pfs_board::NoMemory;
use pfs_classes::Setting;
use pfs_script::Script;
use pfs_session::Session;
use pfs_stat::{Measure, Stat, of_event};
use std::alloc::Global;
use std::test::Fail;

// The setting that a script's lines give, with two names at least.
pub(crate) fn setting(alloc: Global, script: &[u8]) -> Result<Setting, Fail>
    ensures { IfOk result (λ setting. 2 ≤ length setting.names) }
{
    match Script::read(alloc, script) {
        Ok(Script { setting, phases: _ }) => {
            if setting.names.count() < 2 {
                return Err(Fail::from("too few names"));
            }
            Ok(setting)
        }
        Err(_) => Err(Fail::from("no script")),
    }
}

// A session of this number that is connected nowhere, with room for one open event and for so many entries.
pub(crate) fn session(alloc: Global, number: u64, entries: u64) -> Result<Session, NoMemory>
    ensures state { IfOk result (λ s. s.state ≡ fresh number 10 1) }
    ensures room { IfOk result (λ s. s.journal.room ≡ entries) }
{
    let mut session = Session::open(alloc, number, 10, 1)?;
    session.reserve(entries)?;
    Ok(session)
}

// What a wait of five picoseconds of class 6 adds.
pub(crate) fn wait() -> Stat {
    of_event(&Measure {
        timed: true,
        wait: 5,
        lock: 0,
        errors: 0,
        warnings: 0,
        affected: 0,
        sent: 0,
        examined: 0,
    })
}
