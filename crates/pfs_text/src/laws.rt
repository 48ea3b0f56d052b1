//! What follows from the definitions for all values.
ghost use Rattle.std.specs.Prelude.{◌↔◌, ℕ, List, IsTrue};
ghost use Rattle.pfs_text.specs.Decimals.{DecimalsReadBack};
ghost use Rattle.pfs_text.specs.Likes.{is_like};
ghost use Rattle.pfs_text.specs.Patterns.{IsLike};
ghost use Rattle.pfs_text.specs.QuotedTexts.{QuotesAreExact};

/// The decimal text of a number is read back as that number.
pub fn numbers()
    ensures { DecimalsReadBack }
{}

/// A quoted text with no `'` behind it is found at its whole length and at no other, and two texts are never quoted
/// alike.
pub fn quotes()
    ensures { QuotesAreExact }
{}

/// The test for a text like a pattern is true exactly of the texts that are like it.
pub fn patterns()
    ensures { (pattern text : List ℕ) → IsTrue (is_like pattern text) ↔ IsLike pattern text }
{}
