//! A unit of a script: a statement with a wait inside.

ghost use Rattle.std.specs.Prelude.{ℕ, ◌≡◌, ◌+◌, ◌*◌, ◌≤◌, ◌++◌, codes, IfOk, OnOk};
ghost use Rattle.pfs_gen.specs.Draws.{state_after};
ghost use Rattle.pfs_gen.specs.GeneratedScript.{statement_line, spend_line, wait_line, unit_at, unit_text, units_text};

use crate::NoMemory;
use crate::numbers::{drawn, step};
use pfs_text::put_u64;

/// Appends a text.
pub fn put_text(out: &mut Vec<u8>, text: &[u8]) -> Result<(), NoMemory>
    ensures { OnOk result (out.new.items ≡ out.old.items ++ text.now) }
{
    out.extend_from_slice(text)?;
    Ok(())
}

/// The line that starts a statement, by its number.
#[tactic(auto, unfolding(crate::specs::GeneratedScript::statement_line))]
fn statement_line(number: u64) -> &'static [u8]
    ensures { result.now ≡ statement_line number }
{
    match number {
        0 => b"start statement/sql/select SELECT * FROM orders WHERE id = 10\n",
        1 => b"start statement/sql/insert INSERT INTO orders VALUES (1, 2)\n",
        2 => b"start statement/sql/update UPDATE orders SET quantity = 3 WHERE id = 10\n",
        _ => b"start statement/sql/delete DELETE FROM orders WHERE id IN (1, 2, 3)\n",
    }
}

/// The line that starts a wait, by the number of its class among those of files.
#[tactic(auto, unfolding(crate::specs::GeneratedScript::wait_line))]
fn wait_line(number: u64) -> &'static [u8]
    ensures { result.now ≡ wait_line number }
{
    match number {
        0 => b"start wait/io/file/sql/binlog\n",
        1 => b"start wait/io/file/innodb/innodb_data_file\n",
        _ => b"start wait/io/file/innodb/innodb_log_file\n",
    }
}

/// Appends a line that lets time pass.
#[tactic(auto, unfolding(crate::specs::GeneratedScript::spend_line))]
fn put_spend(out: &mut Vec<u8>, time: u64) -> Result<(), NoMemory>
    ensures { OnOk result (out.new.items ≡ out.old.items ++ spend_line time) }
{
    put_text(out, b"spend ")?;
    put_u64(out, time)?;
    put_text(out, b"\n")
}

/// Appends the unit of these numbers.
#[tactic(auto, unfolding(crate::specs::GeneratedScript::unit_text))]
fn put_unit_of(
    out: &mut Vec<u8>,
    statement: u64,
    before: u64,
    wait: u64,
    inside: u64,
) -> Result<(), NoMemory>
    ensures { OnOk result (out.new.items ≡ out.old.items ++ unit_text statement before wait inside) }
{
    put_text(out, statement_line(statement))?;
    put_spend(out, before)?;
    put_text(out, wait_line(wait))?;
    put_spend(out, inside)?;
    put_text(out, b"end\nend\n")
}

/// Appends the unit whose numbers are drawn next, and gives the state behind them.
pub fn put_unit(out: &mut Vec<u8>, state: u64) -> Result<u64, NoMemory>
    ensures text { (number unit : ℕ) → state ≡ state_after number (4 * unit)
        → OnOk result (out.new.items ≡ out.old.items ++ unit_at number unit) }
    ensures next { (number unit : ℕ) → state ≡ state_after number (4 * unit)
        → IfOk result (λ next. next ≡ state_after number (4 * (unit + 1))) }
{
    let first = step(state);
    let second = step(first);
    let third = step(second);
    let fourth = step(third);
    let statement = drawn(first) % 4;
    let before = drawn(second) % 1000;
    let wait = drawn(third) % 3;
    let inside = drawn(fourth) % 1000;
    match put_unit_of(out, statement, before, wait, inside) {
        Ok(()) => Ok(fourth),
        Err(fault) => Err(fault),
    }
}

/// Appends so many units, the first of this number, and gives the state behind them.
pub fn put_units(out: &mut Vec<u8>, count: u64, state: u64) -> Result<u64, NoMemory>
    ensures text { (number unit : ℕ) → state ≡ state_after number (4 * unit)
        → OnOk result (out.new.items ≡ out.old.items ++ units_text number unit count) }
    ensures next { (number unit : ℕ) → state ≡ state_after number (4 * unit)
        → IfOk result (λ next. next ≡ state_after number (4 * (unit + count))) }
{
    let mut next = state;
    for place in 0..count {
        match put_unit(out, next) {
            Ok(behind) => next = behind,
            Err(fault) => return Err(fault),
        }
    }
    Ok(next)
}
