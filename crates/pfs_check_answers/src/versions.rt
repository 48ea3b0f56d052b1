//! Who knows what stood in rows and switch words at their versions.

ghost use Rattle.std.specs.Prelude.{◌≡◌, ℕ, List};
ghost use Rattle.pfs_check_contents.specs.KeptContents.{IsHad};
ghost use Rattle.pfs_model.specs.EntryPlaces.{Placed};

/// Who knows what each row and each switch word of a report had at each of its versions.
pub trait Versions {
    /// Of these entries of a report it knows these contents of rows and these flags of words.
    ghost knows: { Self → List Placed → (ℕ → ℕ → List ℕ) → (ℕ → ℕ → ℕ) → Type 0 };

    /// What stood in a row at a version that it had.
    fn content(&self, row: u64, version: u64) -> [u64; 16]
        ensures { (all : List Placed) → (content : ℕ → ℕ → List ℕ) → (flags : ℕ → ℕ → ℕ)
            → knows self.now all content flags → IsHad all row version → result ≡ content row version };

    /// The flags of a word at a version.
    fn flags(&self, word: u64, version: u64) -> u16
        ensures { (all : List Placed) → (content : ℕ → ℕ → List ℕ) → (flags : ℕ → ℕ → ℕ)
            → knows self.now all content flags → result ≡ flags word version };
}
