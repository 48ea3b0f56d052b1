//! What is done over a store that finds everything.

ghost use Rattle.pfs_check_blank.specs.AllAsked.{AsksLaw, WholeLaw, WordsLaw};

/// What an administration does over such a store is all that it may be asked for: each take with all its gives, each
/// sign, and each set at its word's next version. The store has the words that it wrote.
pub fn asks()
    ensures asked { AsksLaw }
    ensures whole { WholeLaw }
    ensures words { WordsLaw }
{}
