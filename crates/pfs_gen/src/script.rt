//! A whole script.

ghost use Rattle.std.specs.Prelude.{ℕ, ◌≡◌, ◌+◌, ◌*◌, ◌≤◌, ◌++◌, codes, IfOk, OnOk};
ghost use Rattle.std.specs.List.{flat_map, range_with_len};
ghost use Rattle.pfs_gen.specs.Draws.{state_after};
ghost use Rattle.pfs_gen.specs.GeneratedScript.{session_line, connect_line, session_text, script_text};

use crate::NoMemory;
use crate::units::{put_text, put_units};
use pfs_text::put_u64;
use std::alloc::Global;

/// How many sessions there are.
const SESSIONS: u64 = 8;

/// How many units a session has.
const UNITS: u64 = 500;

/// Appends the line of a session that goes on.
#[tactic(auto, unfolding(crate::specs::GeneratedScript::session_line))]
fn put_session_line(out: &mut Vec<u8>, session: u64) -> Result<(), NoMemory>
    ensures { OnOk result (out.new.items ≡ out.old.items ++ session_line session) }
{
    put_text(out, b"session ")?;
    put_u64(out, session)?;
    put_text(out, b"\n")
}

/// Appends the line of a session that connects, with its user and host.
#[tactic(auto, unfolding(crate::specs::GeneratedScript::connect_line))]
fn put_connect(out: &mut Vec<u8>, session: u64) -> Result<(), NoMemory>
    ensures { OnOk result (out.new.items ≡ out.old.items ++ connect_line session) }
{
    put_text(out, b"session ")?;
    put_u64(out, session)?;
    put_text(out, b" u")?;
    put_u64(out, session % 4)?;
    put_text(out, b" h")?;
    put_u64(out, session % 2)?;
    put_text(out, b"\n")
}

/// Appends the lines of so many sessions that connect, from session 1 on.
fn put_connects(out: &mut Vec<u8>, count: u64) -> Result<(), NoMemory>
    requires { count ≤ 64 }
    ensures { OnOk result (out.new.items ≡ out.old.items ++ flat_map connect_line (range_with_len 1 count)) }
{
    for below in 0..count {
        match put_connect(out, below + 1) {
            Ok(()) => {}
            Err(fault) => return Err(fault),
        }
    }
    Ok(())
}

/// Appends a session with its units, and gives the state behind them.
fn put_session(out: &mut Vec<u8>, below: u64, state: u64) -> Result<u64, NoMemory>
    requires { below ≤ 64 }
    ensures text { (number : ℕ) → state ≡ state_after number (4 * (500 * below))
        → OnOk result (out.new.items ≡ out.old.items ++ session_text number (below + 1)) }
    ensures next { (number : ℕ) → state ≡ state_after number (4 * (500 * below))
        → IfOk result (λ next. next ≡ state_after number (4 * (500 * (below + 1)))) }
{
    put_session_line(out, below + 1)?;
    put_units(out, UNITS, state)
}

/// Appends so many sessions with their units, from session 1 on.
fn put_sessions(out: &mut Vec<u8>, count: u64, number: u64) -> Result<(), NoMemory>
    requires { count ≤ 64 }
    ensures { OnOk result (out.new.items ≡ out.old.items ++ flat_map (session_text number) (range_with_len 1 count)) }
{
    let mut state = number;
    for below in 0..count {
        match put_session(out, below, state) {
            Ok(next) => state = next,
            Err(fault) => return Err(fault),
        }
    }
    Ok(())
}

/// The script of a number: eight sessions connect, and in the next phase each of them has 500
/// statements with a wait inside. Classes, texts and times are drawn by a generator that starts
/// with the number. The rule is our own.
#[tactic(auto, unfolding(crate::specs::GeneratedScript::script_text))]
pub fn script_of(alloc: Global, number: u64) -> Result<Vec<u8>, NoMemory>
    ensures { IfOk result (λ script. script.items ≡ script_text number) }
{
    let mut out = Vec::new(alloc);
    put_text(&mut out, b"phase\n")?;
    put_connects(&mut out, SESSIONS)?;
    put_text(&mut out, b"phase\n")?;
    put_sessions(&mut out, SESSIONS, number)?;
    Ok(out)
}
