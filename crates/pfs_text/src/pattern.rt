//! `LIKE`: whether a text is like a pattern.
ghost use Rattle.std.specs.Prelude.{◌≡◌, ℕ, ◌+◌, ◌<◌, ◌≤◌, [], ◌∷◌, ◌↔◌, IsTrue, MatchOption, drop, length, take};
ghost use Rattle.std.specs.Bool.{OnTrue};
ghost use Rattle.std.specs.List.{prefix_len};
ghost use Rattle.pfs_text.specs.Likes.{is_like};
ghost use Rattle.pfs_text.specs.Patterns.{IsLike, StandFor, part_of, parts_of};
ghost use Rattle.pfs_text.specs.ScanSteps.{MayBeginAt, Moves, Stands, StandsFirst, is_literal};

use memchr::memmem;

// What a piece of a pattern stands for.
#[derive(Clone, Copy)]
enum Part {
    AnyBytes,
    OneByte,
    Byte(u8),
}

// Where a scan stands. The parts before `place` and after the last `%`, which is just before `begin`, stand for the
// `passed` bytes from `start` on. `moves` says that there was a `%`, so that a later start may do as well.
#[derive(Clone, Copy)]
struct Scan {
    begin: usize,
    start: usize,
    place: usize,
    passed: usize,
    moves: bool,
}

enum Step {
    Goes(Scan),
    Ends(bool),
}

/// Whether the text is like the pattern: `%` stands for any bytes, `_` for one byte, `\` makes the next byte of the
/// pattern stand for itself, and a last `\` and every other byte stand for themselves. Bytes are compared, so letter
/// case counts. A mismatch goes back to the last `%` alone, and from there to the next place at which the bytes stand
/// that follow the `%`, so the time is at most the product of both lengths and mostly near their sum.
pub fn like(pattern: &[u8], text: &[u8]) -> bool
    ensures like { IsTrue result ↔ IsLike pattern.now text.now }
    ensures test { result ≡ is_like pattern.now text.now }
{
    like_by_steps(pattern, text)
}

fn like_by_steps(pattern: &[u8], text: &[u8]) -> bool
    ensures { IsTrue result ↔ IsLike pattern.now text.now }
{
    let mut scan = Scan {
        begin: 0,
        start: 0,
        place: 0,
        passed: 0,
        moves: false,
    };
    loop {
        match next_step(pattern, text, scan) {
            Step::Goes(next) => scan = next,
            Step::Ends(answer) => return answer,
        }
    }
}

fn next_step(pattern: &[u8], text: &[u8], scan: Scan) -> Step
    requires { Stands pattern.now text.now scan }
    ensures { Moves pattern.now text.now scan result }
{
    let at = scan.start + scan.passed;
    let Some((part, after)) = part_at(pattern, scan.place) else {
        if at == text.len() {
            return Step::Ends(true);
        }
        return later_start(pattern, text, scan);
    };
    if let Part::AnyBytes = part {
        return Step::Goes(Scan {
            begin: after,
            start: at,
            place: after,
            passed: 0,
            moves: true,
        });
    }
    if stands_at(part, text, at) {
        return Step::Goes(Scan {
            begin: scan.begin,
            start: scan.start,
            place: after,
            passed: scan.passed + 1,
            moves: scan.moves,
        });
    }
    later_start(pattern, text, scan)
}

// After a mismatch: the parts after the last `%` are tried at the next place at which they may begin.
fn later_start(pattern: &[u8], text: &[u8], scan: Scan) -> Step
    requires stands { Stands pattern.now text.now scan }
    requires stuck { ¬ StandFor (parts_of (drop scan.place pattern.now)) (drop (scan.start + scan.passed) text.now) }
    ensures { Moves pattern.now text.now scan result }
{
    if !scan.moves || scan.start == text.len() {
        return Step::Ends(false);
    }
    let from = scan.start + 1;
    match next_place(&pattern[scan.begin..], &text[from..]) {
        None => Step::Ends(false),
        Some(skipped) => Step::Goes(Scan {
            begin: scan.begin,
            start: from + skipped,
            place: scan.begin,
            passed: 0,
            moves: true,
        }),
    }
}

// The first place from which on the text may be like the pattern: the bytes stand there with which the pattern begins.
fn next_place(pattern: &[u8], text: &[u8]) -> Option<usize>
    ensures { MayBeginAt pattern.now text.now result }
{
    memmem::find(text, literal_front(pattern))
}

// The bytes before the first `%`, `_` or `\`.
fn literal_front(pattern: &[u8]) -> &[u8]
    ensures { result.now ≡ take (prefix_len is_literal pattern.now) pattern.now }
{
    let length = literal_length(pattern);
    &pattern[..length]
}

fn literal_length(pattern: &[u8]) -> usize
    ensures { result ≡ prefix_len is_literal pattern.now }
{
    pattern
        .iter()
        .take_while(|byte| !matches!(**byte, b'%' | b'_' | b'\\'))
        .count()
}

// The part at a place of the pattern, and the place after it.
fn part_at(pattern: &[u8], place: usize) -> Option<(Part, usize)>
    requires { place ≤ length pattern.now }
    ensures none { MatchOption result (length pattern.now ≡ place) (λ found. place < found.1) }
    ensures inside { MatchOption result (drop place pattern.now ≡ []) (λ found. found.1 ≤ length pattern.now) }
    ensures part { MatchOption result (parts_of (drop place pattern.now) ≡ [])
        (λ found. parts_of (drop place pattern.now) ≡ found.0 ∷ parts_of (drop found.1 pattern.now)) }
{
    if place == pattern.len() {
        return None;
    }
    let byte = pattern[place];
    if byte == b'\\' && place + 1 < pattern.len() {
        return Some((Part::Byte(pattern[place + 1]), place + 2));
    }
    Some((plain_part(byte), place + 1))
}

fn plain_part(byte: u8) -> Part
    ensures { result ≡ part_of byte }
{
    match byte {
        b'%' => Part::AnyBytes,
        b'_' => Part::OneByte,
        _ => Part::Byte(byte),
    }
}

// Whether the part stands for the byte of the text at this place.
fn stands_at(part: Part, text: &[u8], at: usize) -> bool
    requires { at ≤ length text.now }
    ensures stands { IsTrue result ↔ StandsFirst part (drop at text.now) }
    ensures inside { OnTrue result (at < length text.now) }
{
    if at == text.len() {
        return false;
    }
    match part {
        Part::AnyBytes => false,
        Part::OneByte => true,
        Part::Byte(byte) => byte == text[at],
    }
}
