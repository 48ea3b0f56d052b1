//! Laws of the words of info rows: what stands in them, both ways.

ghost use Rattle.std.specs.Prelude.{◌≡◌, ℕ};
ghost use Rattle.pfs_containers.specs.declared.infos.ThreadInfo.{ThreadInfo};
ghost use Rattle.pfs_containers.specs.declared.infos.AccountInfo.{AccountInfo};
ghost use Rattle.pfs_containers.specs.declared.infos.NameInfo.{NameInfo};
ghost use Rattle.pfs_containers.specs.InfoWords.{thread_words, thread_of, account_words, account_of, name_words, name_of, six_words, three_words};

/// An info's words give the info back.
pub fn infos_return()
    ensures threads { (info : ThreadInfo) → thread_of (thread_words info) ≡ info }
    ensures accounts { (info : AccountInfo) → account_of (account_words info) ≡ info }
    ensures names { (info : NameInfo) → name_of (name_words info) ≡ info }
{}

/// Words that are 0 behind an info's fields are the words of the info that they say, so that two
/// rows of such words say the same exactly where they are equal.
pub fn words_return()
    ensures threads { (a b c d e f : ℕ) → thread_words (thread_of (six_words a b c d e f)) ≡ six_words a b c d e f }
    ensures accounts { (a b c d e f : ℕ) → account_words (account_of (six_words a b c d e f)) ≡ six_words a b c d e f }
    ensures names { (a b c : ℕ) → name_words (name_of (three_words a b c)) ≡ three_words a b c }
{}
