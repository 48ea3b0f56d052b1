//! What a line seems to say. The reader takes a line only where spelling what it seems to say gives
//! the line back, so all that counts here is that each line of a report is told as it is.

ghost use Rattle.std.specs.Prelude.{ℕ, List, ◌≡◌, ◌≢◌, ◌++◌, ◌∷◌, [], ◌<◌, ◌≤◌, length, take, MatchOption, IfOk, IfSome, Option, Some, codes, decimal};
ghost use Rattle.std.specs.List.{All, flat_map, prefix_len};
ghost use Rattle.pfs_journal.specs.SingleLines.{line_text, IsLine};
ghost use Rattle.pfs_journal.specs.LineWords.{is_word_byte, dash_of, Fits, FitsValue, front_word, behind_word, Leads, IsBehind, FitsField, FitsLine, verdict_of, alone_says, one_says, two_say, three_say, plain_says, optional_word, line_word, line_rest, entry_rest};
ghost use Rattle.pfs_journal.specs.Reports.{IsName};
ghost use Rattle.pfs_journal.specs.declared.line.Line.TheVariants as says;
ghost use Rattle.pfs_journal.specs.declared.line.Line.{Line};
ghost use Rattle.pfs_journal.specs.declared.values.LostReport.{LostReport};
ghost use Rattle.pfs_event.specs.declared.entry.Entry.TheVariants as entries;
ghost use Rattle.pfs_event.specs.declared.verdict.Verdict.{Verdict};
ghost use Rattle.pfs_text.specs.declared.values.RowValue.{RowValue};
ghost use Rattle.pfs_text.specs.declared.values.RowValue.TheVariants as value;
ghost use Rattle.pfs_text.specs.QuotedTexts.{doubled, quoted, IsQuotedFront};
ghost use Rattle.pfs_journal.specs.Spelling.{optional_text, value_text};

use crate::NoMemory;
use crate::line::Line;
use crate::values::LostReport;
use pfs_event::{Entry, Verdict};
use pfs_text::{Row, RowValue, Text, read_u64, unquote};
use std::alloc::Global;

/// How many bytes stand before the first space.
fn word_length(bytes: &[u8]) -> usize
    ensures length { result ≡ prefix_len is_word_byte bytes.now }
    ensures inside { result ≤ length bytes.now }
{
    bytes.iter().take_while(|byte| **byte != b' ').count()
}

/// The bytes up to the first space, and those from it on.
fn first_word(bytes: &[u8]) -> (&[u8], &[u8])
    ensures word { result.0.now ≡ front_word bytes.now }
    ensures behind { result.1.now ≡ behind_word bytes.now }
    ensures inside { length result.1.now ≤ length bytes.now }
{
    let length = word_length(bytes);
    (&bytes[..length], &bytes[length..])
}

/// The word behind a space, and what follows it.
fn next_word(bytes: &[u8]) -> Option<(&[u8], &[u8])>
    ensures { (word behind : List ℕ) → Leads word behind bytes.now
        → MatchOption result ⊥ (λ x. (x.0.now ≡ word) × (x.1.now ≡ behind)) }
{
    if bytes.is_empty() || bytes[0] != b' ' {
        return None;
    }
    Some(first_word(&bytes[1..]))
}

/// That there is no number, where the word is `-`.
fn dash(word: &[u8]) -> Option<Option<u64>>
    ensures { result ≡ dash_of word.now }
{
    if word == b"-".as_slice() {
        Some(None)
    } else {
        None
    }
}

/// The number in a word, or none for `-`.
fn optional(word: &[u8]) -> Option<Option<u64>>
    ensures { (number : Option ℕ) → FitsField number → word.now ≡ optional_word number → result ≡ Some number }
{
    match read_u64(word) {
        Some(number) => Some(Some(number)),
        None => dash(word),
    }
}

/// The number behind a space, or none for `-`, and what follows it.
fn field(bytes: &[u8]) -> Option<(Option<u64>, &[u8])>
    ensures { (number : Option ℕ) (behind : List ℕ) → FitsField number → IsBehind behind
        → bytes.now ≡ optional_text number ++ behind → MatchOption result ⊥ (λ x. (x.0 ≡ number) × (x.1.now ≡ behind)) }
{
    let (word, behind) = next_word(bytes)?;
    let number = optional(word)?;
    Some((number, behind))
}

/// Four such numbers.
fn four(bytes: &[u8]) -> Option<(Option<u64>, Option<u64>, Option<u64>, Option<u64>)>
    ensures { (a b c d : Option ℕ) → All FitsField (a ∷ b ∷ c ∷ d ∷ [])
        → bytes.now ≡ flat_map optional_text (a ∷ b ∷ c ∷ d ∷ [])
        → MatchOption result ⊥ (λ x. (x.0 ≡ a) × (x.1 ≡ b) × (x.2 ≡ c) × (x.3 ≡ d)) }
{
    let (first, behind) = field(bytes)?;
    let (second, rest) = field(behind)?;
    let (third, last) = field(rest)?;
    let (fourth, _) = field(last)?;
    Some((first, second, third, fourth))
}

/// Numbers behind a word: the first so many of five.
#[derive(Clone, Copy)]
struct Fields {
    numbers: [Option<u64>; 5],
    count: usize,
}

/// All five numbers, where nothing is left.
fn all_five(numbers: [Option<u64>; 5], rest: &[u8]) -> Option<Fields>
    ensures few { IfSome result (λ fields. fields.count ≤ 5) }
    ensures whole { MatchOption result (rest.now ≢ [])
        (λ fields. (rest.now ≡ []) × (take fields.count fields.numbers ≡ take 5 numbers)) }
{
    if rest.is_empty() {
        Some(Fields { numbers, count: 5 })
    } else {
        None
    }
}

/// The numbers in words behind spaces, at most five.
fn fields_of(bytes: &[u8]) -> Option<Fields>
    ensures few { IfSome result (λ fields. fields.count ≤ 5) }
    ensures said { (numbers : List (Option ℕ)) → All FitsField numbers → length numbers ≤ 5
        → bytes.now ≡ flat_map optional_text numbers
        → MatchOption result ⊥ (λ fields. take fields.count fields.numbers ≡ numbers) }
{
    let mut numbers = [None; 5];
    let mut rest = bytes;
    for place in 0..5 {
        if rest.is_empty() {
            return Some(Fields {
                numbers,
                count: place,
            });
        }
        match field(rest) {
            Some((number, behind)) => {
                numbers[place] = number;
                rest = behind;
            }
            None => return None,
        }
    }
    all_five(numbers, rest)
}

/// The verdict of a name.
fn verdict(name: &[u8]) -> Option<Verdict>
    ensures { result ≡ verdict_of name.now }
{
    if name == b"lost-thread".as_slice() {
        Some(Verdict::LostThread)
    } else if name == b"lost-class".as_slice() {
        Some(Verdict::LostClass)
    } else if name == b"off-global".as_slice() {
        Some(Verdict::OffGlobal)
    } else if name == b"off-class".as_slice() {
        Some(Verdict::OffClass)
    } else if name == b"off-table".as_slice() {
        Some(Verdict::OffTable)
    } else if name == b"off-thread".as_slice() {
        Some(Verdict::OffThread)
    } else if name == b"lost-nested".as_slice() {
        Some(Verdict::LostNested)
    } else if name == b"lost-locker".as_slice() {
        Some(Verdict::LostLocker)
    } else if name == b"aside".as_slice() {
        Some(Verdict::Aside)
    } else if name == b"attributed".as_slice() {
        Some(Verdict::Attributed)
    } else {
        None
    }
}

/// A start, from what follows its word.
fn start(bytes: &[u8]) -> Option<Line>
    ensures { (event : Option ℕ) (verdict : Verdict) (a b c d : Option ℕ)
        → All FitsField (event ∷ a ∷ b ∷ c ∷ d ∷ []) → bytes.now ≡ entry_rest (entries.Start event verdict a b c d)
        → result ≡ Some (says.Entry (entries.Start event verdict a b c d)) }
{
    let (event, behind) = field(bytes)?;
    let (name, rest) = next_word(behind)?;
    let verdict = verdict(name)?;
    let (consumers, thread, class, table) = four(rest)?;
    Some(Line::Entry(Entry::Start {
        event,
        verdict,
        consumers,
        thread,
        class,
        table,
    }))
}

fn alone(word: &[u8]) -> Option<Line>
    ensures { result ≡ alone_says word.now }
{
    if word == b"settle".as_slice() {
        Some(Line::Entry(Entry::Settle))
    } else if word == b"query".as_slice() {
        Some(Line::Entry(Entry::Query))
    } else if word == b"final".as_slice() {
        Some(Line::Final)
    } else if word == b"end".as_slice() {
        Some(Line::End)
    } else {
        None
    }
}

fn with_one(word: &[u8], number: u64) -> Option<Line>
    ensures { result ≡ one_says word.now number }
{
    if word == b"act".as_slice() {
        Some(Line::Entry(Entry::Act { action: number }))
    } else if word == b"reply".as_slice() {
        Some(Line::Entry(Entry::Reply { number }))
    } else if word == b"error".as_slice() {
        Some(Line::Entry(Entry::Error { number }))
    } else if word == b"vacant".as_slice() {
        Some(Line::Entry(Entry::Vacant { row: number }))
    } else if word == b"rows".as_slice() {
        Some(Line::Entry(Entry::Rows { number }))
    } else if word == b"session".as_slice() {
        Some(Line::Session(number))
    } else if word == b"phase".as_slice() {
        Some(Line::Phase(number))
    } else if word == b"pfs-report".as_slice() {
        Some(Line::Head(number))
    } else {
        None
    }
}

fn with_two(word: &[u8], row: u64, version: u64) -> Option<Entry>
    ensures { result ≡ two_say word.now row version }
{
    if word == b"add".as_slice() {
        Some(Entry::Add { row, version })
    } else if word == b"ring".as_slice() {
        Some(Entry::Ring { row, version })
    } else if word == b"take".as_slice() {
        Some(Entry::Take { row, version })
    } else if word == b"tag".as_slice() {
        Some(Entry::Tag { row, version })
    } else if word == b"free".as_slice() {
        Some(Entry::Free { row, version })
    } else if word == b"seen".as_slice() {
        Some(Entry::Seen { row, version })
    } else if word == b"saw".as_slice() {
        Some(Entry::Saw { word: row, version })
    } else {
        None
    }
}

fn with_three(word: &[u8], row: u64, second: u64, third: u64) -> Option<Entry>
    ensures { result ≡ three_say word.now row second third }
{
    if word == b"held".as_slice() {
        Some(Entry::Held {
            row,
            first: second,
            second: third,
        })
    } else if word == b"busy".as_slice() {
        Some(Entry::Busy {
            row,
            first: second,
            second: third,
        })
    } else if word == b"long".as_slice() {
        Some(Entry::Long {
            row,
            version: second,
            ticket: third,
        })
    } else if word == b"late".as_slice() {
        Some(Entry::Late {
            row,
            ticket: second,
            greater: third,
        })
    } else if word == b"give".as_slice() {
        Some(Entry::Give {
            row,
            version: second,
            source: third,
        })
    } else if word == b"set".as_slice() {
        Some(Entry::Set {
            word: row,
            version: second,
            flags: third,
        })
    } else {
        None
    }
}

/// A session's connect, where its numbers are these.
fn connect(word: &[u8], numbers: [Option<u64>; 5]) -> Option<Line>
    ensures { result ≡ plain_says word.now (take 5 numbers) }
{
    if word == b"connect".as_slice() {
        Some(Line::Entry(Entry::Connect {
            action: numbers[0]?,
            thread: numbers[1],
            account: numbers[2],
            user: numbers[3],
            host: numbers[4],
        }))
    } else {
        None
    }
}

/// An event's end.
fn end(word: &[u8], numbers: [Option<u64>; 5]) -> Option<Line>
    ensures { result ≡ plain_says word.now (take 4 numbers) }
{
    if word == b"end".as_slice() {
        Some(Line::Entry(Entry::End {
            event: numbers[0],
            last: numbers[1],
            consumers: numbers[2],
            thread: numbers[3],
        }))
    } else {
        None
    }
}

/// What a word says with these numbers behind it.
fn with_fields(word: &[u8], fields: Fields) -> Option<Line>
    requires { fields.count ≤ 5 }
    ensures { result ≡ plain_says word.now (take fields.count fields.numbers) }
{
    let numbers = fields.numbers;
    match fields.count {
        0 => alone(word),
        1 => with_one(word, numbers[0]?),
        2 => Some(Line::Entry(with_two(word, numbers[0]?, numbers[1]?)?)),
        3 => Some(Line::Entry(with_three(word, numbers[0]?, numbers[1]?, numbers[2]?)?)),
        4 => end(word, numbers),
        _ => connect(word, numbers),
    }
}

/// The byte whose doubled form stands in front, and what follows it.
fn front_byte(bytes: &[u8]) -> (u8, &[u8])
    requires { 0 < length bytes.now }
    ensures shorter { length result.1.now < length bytes.now }
    ensures front { (byte : ℕ) (behind : List ℕ) → bytes.now ≡ doubled byte ++ behind
        → (result.0 ≡ byte) × (result.1.now ≡ behind) }
{
    let byte = bytes[0];
    let size = if byte == b'\'' && bytes.len() > 1 {
        2
    } else {
        1
    };
    (byte, &bytes[size..])
}

/// The text whose quoted form has these bytes between its quotes.
fn unescaped(alloc: Global, bytes: &[u8]) -> Result<Text, NoMemory>
    ensures { (text : List ℕ) → bytes.now ≡ flat_map doubled text → IfOk result (λ found. found ≡ text) }
{
    let mut text = Vec::new(alloc);
    let mut left = bytes;
    while !left.is_empty() {
        let (byte, behind) = front_byte(left);
        text.push(byte)?;
        left = behind;
    }
    Ok(Text::new(text))
}

/// The quoted text of so many bytes in front, and what follows it.
fn quoted_value(
    alloc: Global,
    bytes: &[u8],
    size: usize,
) -> Result<Option<(RowValue, &[u8])>, NoMemory>
    requires { IsQuotedFront bytes.now size }
    ensures inside { IfOk result (λ found. IfSome found (λ x. length x.1.now ≤ length bytes.now)) }
    ensures said { (text behind : List ℕ) → IsBehind behind → bytes.now ≡ quoted text ++ behind
        → IfOk result (λ found. MatchOption found ⊥ (λ x. (x.0 ≡ value.Text text) × (x.1.now ≡ behind))) }
{
    let text = unescaped(alloc, &bytes[1..size - 1])?;
    Ok(Some((RowValue::Text(text), &bytes[size..])))
}

/// NULL or a number in front, and what follows it.
fn plain_value(bytes: &[u8]) -> Option<(RowValue, &[u8])>
    ensures inside { IfSome result (λ x. length x.1.now ≤ length bytes.now) }
    ensures null { (behind : List ℕ) → IsBehind behind → bytes.now ≡ codes "NULL" ++ behind
        → MatchOption result ⊥ (λ x. (x.0 ≡ value.Null) × (x.1.now ≡ behind)) }
    ensures number { (n : ℕ) (behind : List ℕ) → Fits n → IsBehind behind → bytes.now ≡ decimal n ++ behind
        → MatchOption result ⊥ (λ x. (x.0 ≡ value.Number n) × (x.1.now ≡ behind)) }
{
    let (word, behind) = first_word(bytes);
    if word == b"NULL".as_slice() {
        return Some((RowValue::Null, behind));
    }
    let number = read_u64(word)?;
    Some((RowValue::Number(number), behind))
}

/// The value in front, and what follows it.
fn value(alloc: Global, bytes: &[u8]) -> Result<Option<(RowValue, &[u8])>, NoMemory>
    ensures said { (said : RowValue) (behind : List ℕ) → FitsValue said → IsBehind behind
        → 32 ∷ bytes.now ≡ value_text said ++ behind
        → IfOk result (λ found. MatchOption found ⊥ (λ x. (x.0 ≡ said) × (x.1.now ≡ behind))) }
    ensures inside { IfOk result (λ found. IfSome found (λ x. length x.1.now ≤ length bytes.now)) }
{
    match unquote(bytes) {
        Some(length) => quoted_value(alloc, bytes, length),
        None => Ok(plain_value(bytes)),
    }
}

/// What stands behind a space.
fn behind_space(bytes: &[u8]) -> Option<&[u8]>
    ensures front { (rest : List ℕ) → bytes.now ≡ 32 ∷ rest → MatchOption result ⊥ (λ found. found.now ≡ rest) }
    ensures shorter { IfSome result (λ found. length found.now < length bytes.now) }
{
    if bytes.is_empty() || bytes[0] != b' ' {
        return None;
    }
    Some(&bytes[1..])
}

/// The value behind a space, and what follows it, which is shorter.
fn next_value(alloc: Global, bytes: &[u8]) -> Result<Option<(RowValue, &[u8])>, NoMemory>
    ensures said { (said : RowValue) (behind : List ℕ) → FitsValue said → IsBehind behind
        → bytes.now ≡ value_text said ++ behind
        → IfOk result (λ found. MatchOption found ⊥ (λ x. (x.0 ≡ said) × (x.1.now ≡ behind))) }
    ensures shorter { IfOk result (λ found. IfSome found (λ x. length x.1.now < length bytes.now)) }
{
    match behind_space(bytes) {
        Some(rest) => value(alloc, rest),
        None => Ok(None),
    }
}

/// A row, from what follows its word.
fn row(alloc: Global, bytes: &[u8]) -> Result<Option<Line>, NoMemory>
    ensures { (values : List RowValue) → All FitsValue values → bytes.now ≡ flat_map value_text values
        → IfOk result (λ found. found ≡ Some (says.Row values)) }
{
    let mut values = Vec::new(alloc);
    let mut rest = bytes;
    while !rest.is_empty() {
        match next_value(alloc, rest)? {
            Some((value, behind)) => {
                values.push(value)?;
                rest = behind;
            }
            None => return Ok(None),
        }
    }
    Ok(Some(Line::Row(Row::new(values))))
}

/// A table, from what follows its word.
fn table(alloc: Global, bytes: &[u8]) -> Result<Option<Line>, NoMemory>
    ensures { (name : List ℕ) → IsName name → bytes.now ≡ line_rest (says.Table name)
        → IfOk result (λ found. found ≡ Some (says.Table name)) }
{
    match next_word(bytes) {
        Some((name, _)) => Ok(Some(Line::Table(Text::from_slice(alloc, name)?))),
        None => Ok(None),
    }
}

/// The number behind a space.
fn last_number(bytes: &[u8]) -> Option<u64>
    ensures { (number : ℕ) → Fits number → bytes.now ≡ flat_map optional_text (Some number ∷ [])
        → result ≡ Some number }
{
    let (word, _) = next_word(bytes)?;
    read_u64(word)
}

/// A name and a number, each behind a space.
fn named(bytes: &[u8]) -> Option<(&[u8], u64)>
    ensures { (lost : LostReport) → IsName lost.name → Fits lost.number → bytes.now ≡ line_rest (says.Lost lost)
        → MatchOption result ⊥ (λ x. (x.0.now ≡ lost.name) × (x.1 ≡ lost.number)) }
{
    let (name, behind) = next_word(bytes)?;
    let number = last_number(behind)?;
    Some((name, number))
}

/// A counter, from what follows its word.
fn lost(alloc: Global, bytes: &[u8]) -> Result<Option<Line>, NoMemory>
    ensures { (lost : LostReport) → IsName lost.name → Fits lost.number → bytes.now ≡ line_rest (says.Lost lost)
        → IfOk result (λ found. found ≡ Some (says.Lost lost)) }
{
    match named(bytes) {
        Some((name, number)) => {
            let name = Text::from_slice(alloc, name)?;
            Ok(Some(Line::Lost(LostReport { name, number })))
        }
        None => Ok(None),
    }
}

/// What a word says with the numbers behind it.
fn plain(word: &[u8], bytes: &[u8]) -> Option<Line>
    ensures { (numbers : List (Option ℕ)) → All FitsField numbers → length numbers ≤ 5
        → bytes.now ≡ flat_map optional_text numbers → result ≡ plain_says word.now numbers }
{
    match fields_of(bytes) {
        Some(fields) => with_fields(word, fields),
        None => None,
    }
}

/// What a line says, by its first word and what follows it.
fn by_word(alloc: Global, word: &[u8], bytes: &[u8]) -> Result<Option<Line>, NoMemory>
    ensures { (line : Line) → IsLine line → FitsLine line → word.now ≡ line_word line → bytes.now ≡ line_rest line
        → IfOk result (λ found. found ≡ Some line) }
{
    if word == b"row".as_slice() {
        row(alloc, bytes)
    } else if word == b"table".as_slice() {
        table(alloc, bytes)
    } else if word == b"lost".as_slice() {
        lost(alloc, bytes)
    } else if word == b"start".as_slice() {
        Ok(start(bytes))
    } else {
        Ok(plain(word, bytes))
    }
}

/// What a line seems to say. Where it is a line that a report can have, without its line feed, that
/// is what it says.
pub fn guess(alloc: Global, bytes: &[u8]) -> Result<Option<Line>, NoMemory>
    ensures { (line : Line) → IsLine line → FitsLine line → bytes.now ≡ line_word line ++ line_rest line
        → IfOk result (λ found. found ≡ Some line) }
{
    let (word, behind) = first_word(bytes);
    by_word(alloc, word, behind)
}
