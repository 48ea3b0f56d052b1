//! Which words an event has.

ghost use Rattle.std.specs.Prelude.{◌≡◌, ◌↔◌, IsTrue};
ghost use Rattle.pfs_event.specs.EventForm.{bit_of, HasForm};

/// The flag as a bit.
pub(crate) fn bit(flag: bool) -> u64
    ensures { result ≡ bit_of flag }
{
    if flag { 1 } else { 0 }
}

/// Whether some event has these words.
pub(crate) fn has_form(words: &[u64; 16]) -> bool
    ensures { IsTrue result ↔ HasForm words.now }
{
    words[3] % 64 <= 62 && words[3] / 64 <= 64 && words[4] / 4 <= 4 && words[5] == 0
}
