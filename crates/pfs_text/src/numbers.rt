//! Numbers as decimal texts.
ghost use Rattle.std.specs.Prelude.{◌≡◌, ◌<◌, ◌≤◌, ◌+◌, ◌-◌, ◌*◌, ◌^◌, ◌++◌, decimal, OnOk, OnErr};
ghost use Rattle.std.specs.Option.{SomeIff};
ghost use Rattle.std.specs.Str.Parse.{IsNumeral, digits_value};

use crate::NoMemory;
use itoa::Buffer;

/// Appends the number in decimal digits without leading zeros. On a refusal `out` is as before.
pub fn put_u64(out: &mut Vec<u8>, n: u64) -> Result<(), NoMemory>
    ensures ok { OnOk result (out.new.items ≡ out.old.items ++ decimal n) }
    ensures err { OnErr result (out.new.items ≡ out.old.items) }
{
    let mut buffer = Buffer::new();
    out.extend_from_slice(buffer.format(n).as_bytes())
}

/// The number that the text writes in decimal digits, leading zeros allowed. It is None exactly where the text is
/// empty, has a byte that is no digit, or writes a number over 2^64 - 1.
pub fn read_u64(text: &[u8]) -> Option<u64>
    ensures { SomeIff result (IsNumeral 10 text.now × (digits_value 10 text.now < 2 ^ 64)) (digits_value 10 text.now) }
{
    if text.is_empty() {
        return None;
    }
    let mut number = 0u64;
    for byte in text {
        if !byte.is_ascii_digit() {
            return None;
        }
        number = with_digit(number, *byte)?;
    }
    Some(number)
}

// The number with one more digit behind it, if it is still below 2^64.
fn with_digit(number: u64, digit: u8) -> Option<u64>
    requires low { 48 ≤ digit }
    requires high { digit < 58 }
    ensures { SomeIff result (number * 10 + (digit - 48) < 2 ^ 64) (number * 10 + (digit - 48)) }
{
    number.checked_mul(10)?.checked_add(u64::from(digit - b'0'))
}
