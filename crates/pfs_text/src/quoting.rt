//! Quoted texts, as the literals of SQL have them.
ghost use Rattle.std.specs.Prelude.{◌≡◌, ℕ, ◌+◌, ◌++◌, ◌∷◌, [], MatchOption, OnOk, OnErr};
ghost use Rattle.std.specs.List.{flat_map};
ghost use Rattle.pfs_text.specs.QuotedTexts.{Extends, IsQuotedFront, doubled, quoted};

use crate::NoMemory;

/// Appends the text between `'`, each `'` in it doubled. On a refusal `out` is as before.
pub fn quote(out: &mut Vec<u8>, text: &[u8]) -> Result<(), NoMemory>
    ensures ok { OnOk result (out.new.items ≡ out.old.items ++ quoted text.now) }
    ensures err { OnErr result (out.new.items ≡ out.old.items) }
{
    let before = out.len();
    match put_quoted(out, text) {
        Ok(()) => Ok(()),
        Err(fault) => {
            out.truncate(before);
            Err(fault)
        }
    }
}

// Appends the quoted text, or stops with a part of it behind what was there.
fn put_quoted(out: &mut Vec<u8>, text: &[u8]) -> Result<(), NoMemory>
    ensures ok { OnOk result (out.new.items ≡ out.old.items ++ quoted text.now) }
    ensures kept { Extends out.old.items out.new.items }
{
    out.push(b'\'')?;
    put_doubled(out, text)?;
    out.push(b'\'')?;
    Ok(())
}

fn put_doubled(out: &mut Vec<u8>, text: &[u8]) -> Result<(), NoMemory>
    ensures ok { OnOk result (out.new.items ≡ out.old.items ++ flat_map doubled text.now) }
    ensures kept { Extends out.old.items out.new.items }
{
    for byte in text {
        put_byte(out, *byte)?;
    }
    Ok(())
}

fn put_byte(out: &mut Vec<u8>, byte: u8) -> Result<(), NoMemory>
    ensures ok { OnOk result (out.new.items ≡ out.old.items ++ doubled byte) }
    ensures kept { Extends out.old.items out.new.items }
{
    if byte == b'\'' {
        out.push(byte)?;
    }
    out.push(byte)?;
    Ok(())
}

/// The length of the quoted text at the front. A doubled `'` goes on with the text, so no further `'` follows the
/// closing one. It is None exactly where no quoted text begins there or it is not closed.
pub fn unquote(bytes: &[u8]) -> Option<usize>
    ensures { MatchOption result ((n : ℕ) → ¬ IsQuotedFront bytes.now n) (λ n. IsQuotedFront bytes.now n) }
{
    if bytes.is_empty() || bytes[0] != b'\'' {
        return None;
    }
    let mut at = 1;
    while at < bytes.len() {
        if bytes[at] != b'\'' {
            at += 1;
        } else if at + 1 < bytes.len() && bytes[at + 1] == b'\'' {
            at += 2;
        } else {
            return Some(at + 1);
        }
    }
    None
}
