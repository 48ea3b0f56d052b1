//! The line that a program writes of a text that is no script.

ghost use Rattle.std.specs.Prelude.{ℕ, List, ◌≡◌, ◌<◌, ◌≤◌, ◌^◌, ◌++◌, length, decimal, IfOk, MatchOption, OnOk};
ghost use Rattle.std.specs.List.{prefix_len};
ghost use Rattle.pfs_view.specs.NumberFronts.{BeginsPlain, is_digit};
ghost use Rattle.pfs_view.specs.Refusals.{IsNoRefusal, explained_text, faulty_line, line_words, reason_words as spec_reason_words, refusal_line, refusal_text, why_faulty};

use crate::NoMemory;
use crate::script_lines::{line_at, put_quoted_line};
use pfs_text::{put_u64, read_u64};
use std::alloc::Global;

/// A script's first faulty line, counted from 1, and the number of the reason.
#[derive(Clone, Copy)]
pub struct Refusal {
    pub line: u64,
    pub reason: u64,
}

/// Why a line is faulty, in words.
fn reason_words(reason: u64) -> &'static [u8]
    ensures { result.now ≡ spec_reason_words reason }
{
    match reason {
        1 => b"a byte of it is none of a script's",
        2 => b"it is the last one and has no line feed",
        3 => b"it has none of the forms of a script, or a name breaks its rule",
        4 => b"it may not stand there",
        5 => b"a number in it is over 2^64 - 1, or a repeat has 0",
        6 =>
            b"its session is none of 1 to 64, has a block in the phase, or has quit, or names are missing or too many",
        7 => b"a name in it is not known, or is that of a class that is there",
        8 => b"a limit is outside its range, or is given twice",
        9 => b"an event may not start there, or none may end",
        10 => b"a statement's text can't be read as tokens",
        11 => b"with it there are more lines or bytes than a script may have",
        12 =>
            b"with it there are more phases, classes, tables, SELECTs or work than a script may have",
        _ => b"its reason has no words here",
    }
}

#[tactic(auto, unfolding(crate::specs::Refusals::faulty_line))]
fn put_faulty_line(out: &mut Vec<u8>, line: u64) -> Result<(), NoMemory>
    ensures { OnOk result (out.new.items ≡ out.old.items ++ faulty_line line) }
{
    out.extend_from_slice(b"bad script: line ")?;
    put_u64(out, line)?;
    Ok(())
}

#[tactic(auto, unfolding(crate::specs::Refusals::why_faulty))]
fn put_why_faulty(out: &mut Vec<u8>, reason: u64) -> Result<(), NoMemory>
    ensures { OnOk result (out.new.items ≡ out.old.items ++ why_faulty reason) }
{
    out.extend_from_slice(b" reason ")?;
    put_u64(out, reason)?;
    out.extend_from_slice(b"\n")
}

/// Appends the line that tells a refusal.
#[tactic(auto, unfolding(crate::specs::Refusals::refusal_line))]
fn put_refusal_line(out: &mut Vec<u8>, refusal: Refusal) -> Result<(), NoMemory>
    ensures { OnOk result (out.new.items ≡ out.old.items ++ refusal_line refusal.line refusal.reason) }
{
    put_faulty_line(out, refusal.line)?;
    put_why_faulty(out, refusal.reason)
}

#[tactic(auto, unfolding(crate::specs::Refusals::line_words))]
fn put_line_words(out: &mut Vec<u8>, line: u64) -> Result<(), NoMemory>
    ensures { OnOk result (out.new.items ≡ out.old.items ++ line_words line) }
{
    out.extend_from_slice(b"Line ")?;
    put_u64(out, line)?;
    out.extend_from_slice(b" is the first faulty line: ")?;
    Ok(())
}

/// Appends what a refusal says, in words.
#[tactic(auto, unfolding(crate::specs::Refusals::explained_text))]
fn put_explained(out: &mut Vec<u8>, refusal: Refusal) -> Result<(), NoMemory>
    ensures { OnOk result (out.new.items ≡ out.old.items ++ explained_text refusal.line refusal.reason) }
{
    put_line_words(out, refusal.line)?;
    out.extend_from_slice(reason_words(refusal.reason))?;
    out.extend_from_slice(b".\n")
}

/// The line that tells a refusal, what it says in words, and the line of the script, where that is there.
#[tactic(auto, unfolding(crate::specs::Refusals::refusal_text))]
pub(crate) fn refusal_text(
    alloc: Global,
    script: &[u8],
    refusal: Refusal,
) -> Result<Vec<u8>, NoMemory>
    ensures { IfOk result (λ text. text.items ≡ refusal_text script.now refusal.line refusal.reason) }
{
    let mut out = Vec::new(alloc);
    put_refusal_line(&mut out, refusal)?;
    put_explained(&mut out, refusal)?;
    put_quoted_line(&mut out, line_at(script, refusal.line))?;
    Ok(out)
}

/// What stands behind these words, where they stand in front of the text.
fn behind_words<'a>(text: &'a [u8], words: &[u8]) -> Option<&'a [u8]>
    ensures { (rest : List ℕ) → text.now ≡ words.now ++ rest → MatchOption result ⊥ (λ behind. behind.now ≡ rest) }
{
    text.strip_prefix(words)
}

/// How many digits stand in front of the text.
fn digits_length(text: &[u8]) -> usize
    ensures length { result ≡ prefix_len is_digit text.now }
    ensures inside { result ≤ length text.now }
{
    text.iter()
        .take_while(|byte| b'0' <= **byte && **byte <= b'9')
        .count()
}

/// The number in front of the text, and what stands behind it.
fn number_front(text: &[u8]) -> Option<(u64, &[u8])>
    ensures { (number : ℕ) (rest : List ℕ) → number < 2 ^ 64 → BeginsPlain rest → text.now ≡ decimal number ++ rest
        → MatchOption result ⊥ (λ found. (found.0 ≡ number) × (found.1.now ≡ rest)) }
{
    let end = digits_length(text);
    let number = read_u64(&text[..end])?;
    Some((number, &text[end..]))
}

/// What a text tells if it is the line of a refusal, which is compared afterwards: no such line is missed.
fn guess(text: &[u8]) -> Option<Refusal>
    ensures { (line reason : ℕ) → line < 2 ^ 64 → reason < 2 ^ 64 → text.now ≡ refusal_line line reason
        → MatchOption result ⊥ (λ refusal. (refusal.line ≡ line) × (refusal.reason ≡ reason)) }
{
    let numbers = behind_words(text, b"bad script: line ")?;
    let (line, rest) = number_front(numbers)?;
    let number = behind_words(rest, b" reason ")?;
    let (reason, _) = number_front(number)?;
    Some(Refusal { line, reason })
}

/// The refusal that this text tells, if it is the line of one.
pub(crate) fn refusal_of(alloc: Global, text: &[u8]) -> Result<Option<Refusal>, NoMemory>
    ensures { IfOk result (λ told. MatchOption told (IsNoRefusal text.now)
        (λ refusal. text.now ≡ refusal_line refusal.line refusal.reason)) }
{
    let Some(refusal) = guess(text) else {
        return Ok(None);
    };
    let mut line = Vec::new(alloc);
    put_refusal_line(&mut line, refusal)?;
    Ok(if line.as_slice() == text {
        Some(refusal)
    } else {
        None
    })
}
