//! Times with units, as MySQL's `sys.format_time` gives them.

ghost use Rattle.std.specs.Prelude.{◌≡◌, ◌<◌, ◌≤◌, ◌+◌, ◌++◌, ◌^◌, OnOk};
ghost use Rattle.pfs_view.specs.TimeTexts.{amount_text, hundredths_text, nearest as spec_nearest, step_of, time_text, unit_name, unit_of as spec_unit_of};

use crate::NoMemory;
use pfs_text::put_u64;

/// A unit that times are shown in.
#[derive(Clone, Copy, Debug, PartialEq, Eq)]
pub enum Unit {
    Week,
    Day,
    Hour,
    Minute,
    Second,
    Millisecond,
    Microsecond,
    Nanosecond,
}

impl Unit {
    /// A hundredth of the unit, in picoseconds.
    fn step(self) -> u64
        ensures value { result ≡ step_of self }
        ensures low { 10 ≤ result }
        ensures high { result < 2 ^ 60 }
    {
        match self {
            Unit::Week => 6_048_000_000_000_000,
            Unit::Day => 864_000_000_000_000,
            Unit::Hour => 36_000_000_000_000,
            Unit::Minute => 600_000_000_000,
            Unit::Second => 10_000_000_000,
            Unit::Millisecond => 10_000_000,
            Unit::Microsecond => 10_000,
            Unit::Nanosecond => 10,
        }
    }

    /// The name, behind a space.
    fn name(self) -> &'static [u8]
        ensures { result.now ≡ unit_name self }
    {
        match self {
            Unit::Week => b" w",
            Unit::Day => b" d",
            Unit::Hour => b" h",
            Unit::Minute => b" m",
            Unit::Second => b" s",
            Unit::Millisecond => b" ms",
            Unit::Microsecond => b" us",
            Unit::Nanosecond => b" ns",
        }
    }
}

/// The largest unit of which this is one at least; none below a nanosecond.
fn unit_of(picoseconds: u64) -> Option<Unit>
    ensures { result ≡ spec_unit_of picoseconds }
{
    if picoseconds >= 604_800_000_000_000_000 {
        Some(Unit::Week)
    } else if picoseconds >= 86_400_000_000_000_000 {
        Some(Unit::Day)
    } else if picoseconds >= 3_600_000_000_000_000 {
        Some(Unit::Hour)
    } else if picoseconds >= 60_000_000_000_000 {
        Some(Unit::Minute)
    } else {
        short_unit_of(picoseconds)
    }
}

/// The same of what is below a minute.
fn short_unit_of(picoseconds: u64) -> Option<Unit>
    requires { picoseconds < 60000000000000 }
    ensures { result ≡ spec_unit_of picoseconds }
{
    if picoseconds >= 1_000_000_000_000 {
        Some(Unit::Second)
    } else if picoseconds >= 1_000_000_000 {
        Some(Unit::Millisecond)
    } else if picoseconds >= 1_000_000 {
        Some(Unit::Microsecond)
    } else if picoseconds >= 1_000 {
        Some(Unit::Nanosecond)
    } else {
        None
    }
}

/// How many steps that is, to the nearest; a half is rounded up.
fn nearest(number: u64, step: u64) -> u64
    requires low { 10 ≤ step }
    requires high { step < 2 ^ 60 }
    ensures { result ≡ spec_nearest number step }
{
    let whole = number / step;
    if number % step * 2 < step {
        whole
    } else {
        whole + 1
    }
}

/// The digit with this value.
fn digit(value: u64) -> u8
    requires { value < 10 }
    ensures { result ≡ 48 + value }
{
    b'0' + value as u8
}

/// Appends a number of hundredths as one with two decimals.
fn put_hundredths(out: &mut Vec<u8>, hundredths: u64) -> Result<(), NoMemory>
    ensures { OnOk result (out.new.items ≡ out.old.items ++ hundredths_text hundredths) }
{
    put_u64(out, hundredths / 100)?;
    let decimals = [b'.', digit(hundredths / 10 % 10), digit(hundredths % 10)];
    out.extend_from_slice(&decimals)
}

/// Appends an amount of a unit.
fn put_amount(out: &mut Vec<u8>, picoseconds: u64, unit: Unit) -> Result<(), NoMemory>
    ensures { OnOk result (out.new.items ≡ out.old.items ++ amount_text picoseconds unit) }
{
    put_hundredths(out, nearest(picoseconds, unit.step()))?;
    out.extend_from_slice(unit.name())
}

/// Appends a time in picoseconds: below a nanosecond as it is, else in the largest unit of which it is one at least,
/// with two decimals. This is MySQL's `sys.format_time`.
pub fn put_time(out: &mut Vec<u8>, picoseconds: u64) -> Result<(), NoMemory>
    ensures { OnOk result (out.new.items ≡ out.old.items ++ time_text picoseconds) }
{
    match unit_of(picoseconds) {
        Some(unit) => put_amount(out, picoseconds, unit),
        None => {
            put_u64(out, picoseconds)?;
            out.extend_from_slice(b" ps")
        }
    }
}
