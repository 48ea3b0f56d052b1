//! What words ask for.

ghost use Rattle.std.specs.Prelude.{ℕ, ◌↔◌, IsTrue, MatchOption};
ghost use Rattle.pfs_top.specs.CommandWords.{IsWord, AsksLoad};

use pfs_text::read_u64;

/// Whether the words are this one.
pub fn is_word(words: &[String], command: &str) -> bool
    ensures { IsTrue result ↔ IsWord command.now words.now }
{
    match words {
        [word] => word.as_str() == command,
        _ => false,
    }
}

/// The number whose script is to be run, where the words ask for one.
pub fn load_number(words: &[String]) -> Option<u64>
    ensures { MatchOption result ((number : ℕ) → ¬ AsksLoad words.now number) (λ number. AsksLoad words.now number) }
{
    match words {
        [word, digits] => {
            if word.as_str() == "load" {
                read_u64(digits.as_bytes())
            } else {
                None
            }
        }
        _ => None,
    }
}
