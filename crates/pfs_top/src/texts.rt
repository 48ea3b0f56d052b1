//! Lines of text, built by appending.

ghost use Rattle.std.specs.Prelude.{◌≡◌, ◌++◌, OnOk};

use crate::NoMemory;

/// Appends a text.
pub fn put_text(out: &mut Vec<u8>, text: &[u8]) -> Result<(), NoMemory>
    ensures { OnOk result (out.new.items ≡ out.old.items ++ text.now) }
{
    out.extend_from_slice(text)?;
    Ok(())
}
