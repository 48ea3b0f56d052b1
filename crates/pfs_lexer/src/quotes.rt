//! What stands between quotes.
#![tactic(auto)]

ghost use Rattle.std.specs.Prelude.{◌≡◌, ◌+◌, ◌<◌, ◌≤◌, length, IfSome};
ghost use Rattle.pfs_lexer.specs.QuotePairs as spec;

/// How many bytes stand behind the opening quote, up to the closing one and with it, or None without an
/// end. The quote doubled, and `\` with any byte, are no end; between backquotes `\` is a byte like others.
pub(crate) fn quoted_len(bytes: &[u8], quote: u8) -> Option<usize>
    ensures len { result ≡ spec.quoted_len quote bytes.now }
    ensures within { IfSome result (λ len. len ≤ length bytes.now) }
{
    let mut at = 0;
    'bytes: while at < bytes.len() {
        if pair_at(bytes, at, quote) {
            at += 2;
        } else if bytes[at] == quote {
            return Some(at + 1);
        } else {
            at += 1;
        }
    }
    None
}

// Two bytes at the place stand for one.
fn pair_at(bytes: &[u8], at: usize, quote: u8) -> bool
    requires { at < length bytes.now }
    ensures { result ≡ spec.pair_at quote bytes.now at }
{
    if at + 1 >= bytes.len() {
        return false;
    }
    if bytes[at] == quote {
        bytes[at + 1] == quote
    } else {
        quote != b'`' && bytes[at] == b'\\'
    }
}
