//! A word of a line, or the rest of a line, as a text.

ghost use Rattle.std.specs.Prelude.{◌≡◌, ◌==◌, ◌∷◌, [], true, List, ℕ};
ghost use Rattle.std.specs.List.{list_all};
ghost use Rattle.pfs_script.specs.ScriptWords.{is_script_byte};
ghost use Rattle.std.specs.Cmp.{partial_equiv_from_equiv};
ghost use Rattle.std.specs.Cmp.Lexicographic.{pointwise, nat_list_eq_equiv, bytes_decides};
ghost use Rattle.std.proofs.Common.{ap};

use std::fmt::{self, Debug, Formatter};
use std::hash::{Hash, Hasher};
use std::marker::Model;
use std::str::from_utf8;

/// Bytes of a line. A clause sees the bytes alone, not where they stand.
#[derive(Drop)]
pub struct Text<'a> {
    bytes: &'a [u8],
}

impl<'a> Model for Text<'a> {
    ghost use Rattle.std.specs.Prelude.{List, ℕ};

    ghost Value = { List ℕ };

    ghost view = { λ text. text.bytes.now };
}

impl<'a> Text<'a> {
    /// The text that has these bytes.
    pub fn new(bytes: &'a [u8]) -> Text<'a>
        ensures { result ≡ bytes.now }
    {
        Text { bytes }
    }

    /// Its bytes.
    pub fn bytes(&self) -> &'a [u8]
        ensures { result.now ≡ self.now }
    {
        self.bytes
    }
}

/// Texts are equal where their bytes are.
impl<'a> PartialEq for Text<'a> {
    ghost eq = { λ a b. pointwise ◌==◌ a b };

    ghost laws = { partial_equiv_from_equiv nat_list_eq_equiv };

    fn eq(&self, other: &Text<'a>) -> bool {
        self.bytes == other.bytes
    }
}

impl<'a> Eq for Text<'a> {
    ghost laws = { nat_list_eq_equiv };
}

/// A text is hashed as a whole.
impl<'a> Hash for Text<'a> {
    ghost hash_input = { λ text. text ∷ [] };

    ghost respects_eq = { λ one other same. ap (λ (bytes : List ℕ). bytes ∷ []) ((bytes_decides one other).0 same) };

    fn hash<H: Hasher>(&self, state: &mut H) {
        state.write(self.bytes);
    }
}

/// Bytes that are a text print as it does.
impl<'a> Debug for Text<'a> {
    fn fmt<W: fmt::Write>(&self, f: &mut Formatter<W>) -> fmt::Result {
        match std::str::from_utf8(self.bytes) {
            Ok(text) => Debug::fmt(&text, f),
            Err(_) => Debug::fmt(&self.bytes, f),
        }
    }
}

/// Bytes of a line that are ASCII. A clause sees the bytes alone.
#[derive(Drop)]
pub struct AsciiText<'a> {
    text: &'a str,
}

impl<'a> Model for AsciiText<'a> {
    ghost use Rattle.std.specs.Prelude.{List, ℕ};

    ghost Value = { List ℕ };

    ghost view = { λ text. text.text.now };
}

impl<'a> AsciiText<'a> {
    /// The text of these bytes, which a script may have, so that they are ASCII.
    pub fn new(bytes: &'a [u8]) -> AsciiText<'a>
        requires { list_all is_script_byte bytes.now ≡ true }
        ensures { result ≡ bytes.now }
    {
        match from_utf8(bytes) {
            Ok(text) => AsciiText { text },
            Err(_) => unreachable!(),
        }
    }

    /// The text.
    pub fn as_str(&self) -> &'a str
        ensures { result.now ≡ self.now }
    {
        self.text
    }
}

/// Texts are equal where their bytes are.
impl<'a> PartialEq for AsciiText<'a> {
    ghost eq = { λ a b. pointwise ◌==◌ a b };

    ghost laws = { partial_equiv_from_equiv nat_list_eq_equiv };

    fn eq(&self, other: &AsciiText<'a>) -> bool {
        self.text.as_bytes() == other.text.as_bytes()
    }
}

impl<'a> Eq for AsciiText<'a> {
    ghost laws = { nat_list_eq_equiv };
}

impl<'a> Debug for AsciiText<'a> {
    fn fmt<W: fmt::Write>(&self, f: &mut Formatter<W>) -> fmt::Result {
        Debug::fmt(&self.text, f)
    }
}
