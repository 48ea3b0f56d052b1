//! Comments.
#![tactic(auto)]

ghost use Rattle.std.specs.Prelude.{◌≡◌, ◌≤◌, length, IfSome};
ghost use Rattle.pfs_lexer.specs.Comments as spec;

use crate::classes::{byte_at, is_blank};

/// A comment begins that ends with its line: `#`, or `--` with white space or the end of the text behind it.
pub(crate) fn begins_line_comment(bytes: &[u8]) -> bool
    ensures { result ≡ spec.begins_line_comment bytes.now }
{
    byte_at(bytes, 0) == b'#'
        || (bytes.starts_with(b"--") && (bytes.len() == 2 || is_blank(byte_at(bytes, 2))))
}

/// A comment begins that ends with `*/`.
pub(crate) fn begins_comment(bytes: &[u8]) -> bool
    ensures { result ≡ spec.begins_comment bytes.now }
{
    bytes.starts_with(b"/*")
}

/// How many bytes there are up to the first `*/` and with it, or None where there is none.
pub(crate) fn comment_len(bytes: &[u8]) -> Option<usize>
    ensures len { result ≡ spec.comment_len bytes.now }
    ensures within { IfSome result (λ len. len ≤ length bytes.now) }
{
    for at in 0..bytes.len() {
        if bytes[at..].starts_with(b"*/") {
            return Some(at + 2);
        }
    }
    None
}
