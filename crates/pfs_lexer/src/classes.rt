//! Classes of bytes, and runs of one class.
#![tactic(auto)]

ghost use Rattle.std.specs.Prelude.{◌≡◌, ◌≤◌, ◌==◌, length};
ghost use Rattle.std.specs.Char.{is_ascii_digit, is_ascii_hexdigit};
ghost use Rattle.std.specs.List.{prefix_len, position_or_len};
ghost use Rattle.pfs_lexer.specs.Classes as spec;

/// The byte is white space: a tab, a line feed, a vertical tab, a form feed, a carriage return or a space.
pub(crate) fn is_blank(byte: u8) -> bool
    ensures { result ≡ spec.is_blank byte }
{
    matches!(byte, 9..=13 | b' ')
}

/// A word may begin with the byte.
pub(crate) fn is_word_start(byte: u8) -> bool
    ensures { result ≡ spec.is_word_start byte }
{
    byte.is_ascii_alphabetic() || byte == b'_' || byte == b'$'
}

/// A word may go on with the byte.
pub(crate) fn is_word_byte(byte: u8) -> bool
    ensures { result ≡ spec.is_word_byte byte }
{
    is_word_start(byte) || byte.is_ascii_digit()
}

/// How many bytes of a word stand at the front.
pub(crate) fn word_run(bytes: &[u8]) -> usize
    ensures run { result ≡ prefix_len spec.is_word_byte bytes.now }
    ensures within { result ≤ length bytes.now }
{
    bytes.iter().take_while(|byte| is_word_byte(**byte)).count()
}

/// How many decimal digits stand at the front.
pub(crate) fn digit_run(bytes: &[u8]) -> usize
    ensures run { result ≡ prefix_len is_ascii_digit bytes.now }
    ensures within { result ≤ length bytes.now }
{
    bytes
        .iter()
        .take_while(|byte| byte.is_ascii_digit())
        .count()
}

/// How many hexadecimal digits stand at the front.
pub(crate) fn hex_run(bytes: &[u8]) -> usize
    ensures run { result ≡ prefix_len is_ascii_hexdigit bytes.now }
    ensures within { result ≤ length bytes.now }
{
    bytes
        .iter()
        .take_while(|byte| byte.is_ascii_hexdigit())
        .count()
}

/// How many bytes stand before the first line feed, or all where there is none.
pub(crate) fn line_run(bytes: &[u8]) -> usize
    ensures run { result ≡ position_or_len (λ b. b == 10) bytes.now }
    ensures within { result ≤ length bytes.now }
{
    bytes.iter().take_while(|byte| **byte != b'\n').count()
}

/// The byte at a place, or 0 past the end.
pub(crate) fn byte_at(bytes: &[u8], place: usize) -> u8
    ensures { result ≡ spec.byte_at bytes.now place }
{
    bytes.get(place).copied().unwrap_or(0)
}
