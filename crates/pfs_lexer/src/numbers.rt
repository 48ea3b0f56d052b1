//! Numbers.
#![tactic(auto)]

ghost use Rattle.std.specs.Prelude.{◌≡◌, ◌≤◌, ◌<◌, length};
ghost use Rattle.pfs_lexer.specs.Numbers as spec;

use crate::classes::{byte_at, digit_run, hex_run};

/// How long the number at the front is. A digit stands first.
pub(crate) fn number_len(bytes: &[u8]) -> usize
    requires { 0 < length bytes.now }
    ensures len { result ≡ spec.number_len bytes.now }
    ensures some { 0 < result }
    ensures within { result ≤ length bytes.now }
{
    hex_len(bytes).max(decimal_len(bytes))
}

// `0x` and hexadecimal digits.
#[tactic(auto, unfolding(crate::specs::Numbers::hex_len))]
fn hex_len(bytes: &[u8]) -> usize
    ensures len { result ≡ spec.hex_len bytes.now }
    ensures within { result ≤ length bytes.now }
{
    if !bytes.starts_with(b"0x") {
        return 0;
    }
    let digits = hex_run(&bytes[2..]);
    if digits > 0 { 2 + digits } else { 0 }
}

// Digits, a fraction and an exponent.
#[tactic(auto, unfolding(crate::specs::Numbers::decimal_len))]
fn decimal_len(bytes: &[u8]) -> usize
    requires { 0 < length bytes.now }
    ensures len { result ≡ spec.decimal_len bytes.now }
    ensures some { 0 < result }
    ensures within { result ≤ length bytes.now }
{
    let whole = 1 + digit_run(&bytes[1..]);
    let fraction = fraction_len(&bytes[whole..]);
    let exponent = exponent_len(&bytes[whole + fraction..]);
    whole + fraction + exponent
}

// `.` and digits.
#[tactic(auto, unfolding(crate::specs::Numbers::fraction_len))]
fn fraction_len(bytes: &[u8]) -> usize
    ensures len { result ≡ spec.fraction_len bytes.now }
    ensures within { result ≤ length bytes.now }
{
    if byte_at(bytes, 0) != b'.' {
        return 0;
    }
    let digits = digit_run(&bytes[1..]);
    if digits > 0 { 1 + digits } else { 0 }
}

// A sign.
#[tactic(auto, unfolding(crate::specs::Numbers::sign_len))]
fn sign_len(bytes: &[u8]) -> usize
    ensures len { result ≡ spec.sign_len bytes.now }
    ensures within { result ≤ length bytes.now }
{
    match byte_at(bytes, 0) {
        b'+' | b'-' => 1,
        _ => 0,
    }
}

// `e` or `E`, a sign and digits.
#[tactic(auto, unfolding(crate::specs::Numbers::exponent_len))]
fn exponent_len(bytes: &[u8]) -> usize
    ensures len { result ≡ spec.exponent_len bytes.now }
    ensures within { result ≤ length bytes.now }
{
    if !matches!(byte_at(bytes, 0), b'e' | b'E') {
        return 0;
    }
    let sign = sign_len(&bytes[1..]);
    let digits = digit_run(&bytes[1 + sign..]);
    if digits > 0 { 1 + sign + digits } else { 0 }
}
