//! The lines of a report, each built in a buffer that serves for many of them.

ghost use Rattle.std.specs.Prelude.{◌≡◌, ◌<◌, ◌≤◌, ◌+◌, ◌++◌, ◌∷◌, [], Some, OnOk, codes, drop, length};
ghost use Rattle.std.specs.List.{All, flat_map};
ghost use Rattle.pfs_event.specs.Verdicts.{verdict_name};
ghost use Rattle.pfs_text.specs.QuotedTexts.{quoted};
ghost use Rattle.pfs_journal.specs.Spelling.{field_text, optional_text, numbers_text, entry_text, value_text, row_text, table_line, lost_text};
ghost use Rattle.pfs_journal.specs.LineWords.{FitsField, FitsValue, entry_numbers};

use crate::NoMemory;
use crate::values::LostReport;
use itoa::write_digits;
use pfs_event::{Entry, Verdict};
use pfs_text::{Row, RowValue, quote};

/// The bytes of a space and the longest number.
const FIELD: usize = 21;

/// The most bytes of a word that begins an entry's line.
const WORD: usize = 7;

/// The most bytes of a verdict's name.
const NAME: usize = 11;

/// The bytes of the longest line of an entry, which is a start's.
pub const ENTRY: usize = 124;

/// Appends a text.
fn put_text(line: &mut Vec<u8>, text: &[u8]) -> Result<(), NoMemory>
    ensures { OnOk result (line.new.items ≡ line.old.items ++ text.now) }
{
    line.extend_from_slice(text)?;
    Ok(())
}

/// Makes this text the front of a line.
pub fn begin(line: &mut Vec<u8>, text: &[u8]) -> Result<(), NoMemory>
    ensures { OnOk result (line.new.items ≡ text.now) }
{
    line.clear();
    put_text(line, text)
}

/// Appends a space and a number. Most numbers of a report have one digit.
#[tactic(auto, unfolding(crate::specs::Spelling::field_text))]
fn put_field(line: &mut Vec<u8>, number: u64) -> Result<(), NoMemory>
    ensures { OnOk result (line.new.items ≡ line.old.items ++ field_text number) }
{
    if number < 10 {
        line.push(b' ')?;
        line.push(b'0' + number as u8)?;
        Ok(())
    } else {
        put_long_field(line, number)
    }
}

/// The same of any number: the space and the digits are built first, and appended in one piece.
#[tactic(auto, unfolding(crate::specs::Spelling::field_text))]
fn put_long_field(line: &mut Vec<u8>, number: u64) -> Result<(), NoMemory>
    ensures { OnOk result (line.new.items ≡ line.old.items ++ field_text number) }
{
    let mut field = [b' '; FIELD];
    let start = write_digits(number, &mut field, FIELD);
    line.extend_from_slice(&field[start - 1..])
}

/// Puts a space and a number before what stands in the buffer from a place on, and tells where they begin. Most numbers
/// of a report have one digit.
#[inline(always)]
#[tactic(auto, unfolding(crate::specs::Spelling::field_text))]
fn field_before(buffer: &mut [u8], end: usize, number: u64) -> usize
    requires room { FIELD ≤ end }
    requires within { end ≤ length buffer.old }
    ensures text { drop result buffer.new ≡ field_text number ++ drop end buffer.old }
    ensures low { end ≤ result + FIELD }
    ensures high { result ≤ end }
{
    if number < 10 {
        buffer[end - 1] = b'0' + number as u8;
        buffer[end - 2] = b' ';
        end - 2
    } else {
        long_field_before(buffer, end, number)
    }
}

/// The same of any number.
#[inline(never)]
#[tactic(auto, unfolding(crate::specs::Spelling::field_text))]
fn long_field_before(buffer: &mut [u8], end: usize, number: u64) -> usize
    requires room { FIELD ≤ end }
    requires within { end ≤ length buffer.old }
    ensures text { drop result buffer.new ≡ field_text number ++ drop end buffer.old }
    ensures low { end ≤ result + FIELD }
    ensures high { result ≤ end }
{
    let start = write_digits(number, buffer, end);
    buffer[start - 1] = b' ';
    start - 1
}

/// The same of a number, or `-` where there is none.
#[inline(always)]
fn optional_before(buffer: &mut [u8], end: usize, number: Option<u64>) -> usize
    requires room { FIELD ≤ end }
    requires within { end ≤ length buffer.old }
    ensures text { drop result buffer.new ≡ optional_text number ++ drop end buffer.old }
    ensures fits { FitsField number }
    ensures low { end ≤ result + FIELD }
    ensures high { result ≤ end }
{
    match number {
        Some(number) => field_before(buffer, end, number),
        None => {
            buffer[end - 1] = b'-';
            buffer[end - 2] = b' ';
            end - 2
        }
    }
}

/// Puts a word before what stands in the buffer from a place on, and tells where it begins.
#[inline(always)]
fn word_before(buffer: &mut [u8], end: usize, word: &[u8]) -> usize
    requires room { length word.now ≤ end }
    requires within { end ≤ length buffer.old }
    ensures text { drop result buffer.new ≡ word.now ++ drop end buffer.old }
    ensures start { result + length word.now ≡ end }
{
    let start = end - word.len();
    buffer[start..end].copy_from_slice(word);
    start
}

/// Puts a line's end before what stands in the buffer from a place on, and tells where it stands.
#[inline(always)]
fn end_of_line(buffer: &mut [u8], end: usize) -> usize
    requires room { 0 < end }
    requires within { end ≤ length buffer.old }
    ensures text { drop result buffer.new ≡ codes "\n" ++ drop end buffer.old }
    ensures place { result + 1 ≡ end }
{
    buffer[end - 1] = b'\n';
    end - 1
}

/// Ends a line.
fn end_line(line: &mut Vec<u8>) -> Result<(), NoMemory>
    ensures { OnOk result (line.new.items ≡ line.old.items ++ codes "\n") }
{
    line.push(b'\n')?;
    Ok(())
}

/// A line of a word and a number.
#[tactic(auto, unfolding(crate::specs::Spelling::numbers_text))]
pub fn one_line(line: &mut Vec<u8>, word: &[u8], first: u64) -> Result<(), NoMemory>
    ensures text { OnOk result (line.new.items ≡ numbers_text word.now (Some first ∷ [])) }
    ensures fits { OnOk result (All FitsField (Some first ∷ [])) }
{
    begin(line, word)?;
    put_field(line, first)?;
    end_line(line)
}

/// Puts a line of a word alone before what stands in the buffer from a place on, and tells where it begins.
#[tactic(auto, unfolding(crate::specs::Spelling::numbers_text))]
fn bare_before(buffer: &mut [u8], end: usize, word: &[u8]) -> usize
    requires short { length word.now ≤ WORD }
    requires room { ENTRY ≤ end }
    requires within { end ≤ length buffer.old }
    ensures text { drop result buffer.new ≡ numbers_text word.now [] ++ drop end buffer.old }
    ensures low { end ≤ result + ENTRY }
    ensures high { result ≤ end }
    ensures fits { All FitsField [] }
{
    let end = end_of_line(buffer, end);
    word_before(buffer, end, word)
}

/// The same of a word and a number.
#[tactic(auto, unfolding(crate::specs::Spelling::numbers_text))]
fn one_before(buffer: &mut [u8], end: usize, word: &[u8], first: u64) -> usize
    requires short { length word.now ≤ WORD }
    requires room { ENTRY ≤ end }
    requires within { end ≤ length buffer.old }
    ensures text { drop result buffer.new ≡ numbers_text word.now (Some first ∷ []) ++ drop end buffer.old }
    ensures low { end ≤ result + ENTRY }
    ensures high { result ≤ end }
    ensures fits { All FitsField (Some first ∷ []) }
{
    let end = end_of_line(buffer, end);
    let end = optional_before(buffer, end, Some(first));
    word_before(buffer, end, word)
}

/// The same of a word and two numbers.
#[inline(always)]
#[tactic(auto, unfolding(crate::specs::Spelling::numbers_text))]
fn two_before(buffer: &mut [u8], end: usize, word: &[u8], first: u64, second: u64) -> usize
    requires short { length word.now ≤ WORD }
    requires room { ENTRY ≤ end }
    requires within { end ≤ length buffer.old }
    ensures text { drop result buffer.new
        ≡ numbers_text word.now (Some first ∷ Some second ∷ []) ++ drop end buffer.old }
    ensures low { end ≤ result + ENTRY }
    ensures high { result ≤ end }
    ensures fits { All FitsField (Some first ∷ Some second ∷ []) }
{
    let end = end_of_line(buffer, end);
    let end = optional_before(buffer, end, Some(second));
    let end = optional_before(buffer, end, Some(first));
    word_before(buffer, end, word)
}

/// The same of a word and three numbers.
#[tactic(auto, unfolding(crate::specs::Spelling::numbers_text))]
fn three_before(
    buffer: &mut [u8],
    end: usize,
    word: &[u8],
    first: u64,
    second: u64,
    third: u64,
) -> usize
    requires short { length word.now ≤ WORD }
    requires room { ENTRY ≤ end }
    requires within { end ≤ length buffer.old }
    ensures text { drop result buffer.new
        ≡ numbers_text word.now (Some first ∷ Some second ∷ Some third ∷ []) ++ drop end buffer.old }
    ensures low { end ≤ result + ENTRY }
    ensures high { result ≤ end }
    ensures fits { All FitsField (Some first ∷ Some second ∷ Some third ∷ []) }
{
    let end = end_of_line(buffer, end);
    let end = optional_before(buffer, end, Some(third));
    let end = optional_before(buffer, end, Some(second));
    let end = optional_before(buffer, end, Some(first));
    word_before(buffer, end, word)
}

/// The name of a verdict.
#[inline(always)]
fn verdict_text(verdict: Verdict) -> &'static [u8]
    ensures text { result.now ≡ verdict_name verdict }
    ensures short { length result.now ≤ NAME }
{
    verdict.name().as_bytes()
}

/// Puts what a start's line begins with: its word, number and verdict.
#[inline(always)]
fn start_before(buffer: &mut [u8], end: usize, event: Option<u64>, verdict: Verdict) -> usize
    requires room { 5 + FIELD + 1 + NAME ≤ end }
    requires within { end ≤ length buffer.old }
    ensures text { drop result buffer.new
        ≡ (codes "start" ++ optional_text event ++ codes " " ++ verdict_name verdict) ++ drop end buffer.old }
    ensures fits { FitsField event }
    ensures low { end ≤ result + 5 + FIELD + 1 + NAME }
    ensures high { result ≤ end }
{
    let end = word_before(buffer, end, verdict_text(verdict));
    let end = word_before(buffer, end, b" ");
    let end = optional_before(buffer, end, event);
    word_before(buffer, end, b"start")
}

/// The line of a start.
#[inline(always)]
#[tactic(auto, unfolding(crate::specs::Spelling::numbers_text))]
fn started_before(
    buffer: &mut [u8],
    end: usize,
    event: Option<u64>,
    verdict: Verdict,
    consumers: Option<u64>,
    thread: Option<u64>,
    class: Option<u64>,
    table: Option<u64>,
) -> usize
    requires room { ENTRY ≤ end }
    requires within { end ≤ length buffer.old }
    ensures text { drop result buffer.new
        ≡ numbers_text (codes "start" ++ optional_text event ++ codes " " ++ verdict_name verdict)
        (consumers ∷ thread ∷ class ∷ table ∷ []) ++ drop end buffer.old }
    ensures low { end ≤ result + ENTRY }
    ensures high { result ≤ end }
    ensures fits { All FitsField (event ∷ consumers ∷ thread ∷ class ∷ table ∷ []) }
{
    let end = end_of_line(buffer, end);
    let end = optional_before(buffer, end, table);
    let end = optional_before(buffer, end, class);
    let end = optional_before(buffer, end, thread);
    let end = optional_before(buffer, end, consumers);
    start_before(buffer, end, event, verdict)
}

/// The line of a connect.
#[tactic(auto, unfolding(crate::specs::Spelling::numbers_text))]
fn connect_before(
    buffer: &mut [u8],
    end: usize,
    action: u64,
    thread: Option<u64>,
    account: Option<u64>,
    user: Option<u64>,
    host: Option<u64>,
) -> usize
    requires room { ENTRY ≤ end }
    requires within { end ≤ length buffer.old }
    ensures text { drop result buffer.new
        ≡ numbers_text (codes "connect") (Some action ∷ thread ∷ account ∷ user ∷ host ∷ [])
        ++ drop end buffer.old }
    ensures low { end ≤ result + ENTRY }
    ensures high { result ≤ end }
    ensures fits { All FitsField (Some action ∷ thread ∷ account ∷ user ∷ host ∷ []) }
{
    let end = end_of_line(buffer, end);
    let end = optional_before(buffer, end, host);
    let end = optional_before(buffer, end, user);
    let end = optional_before(buffer, end, account);
    let end = optional_before(buffer, end, thread);
    let end = optional_before(buffer, end, Some(action));
    word_before(buffer, end, b"connect")
}

/// The line of an end.
#[inline(always)]
#[tactic(auto, unfolding(crate::specs::Spelling::numbers_text))]
fn ended_before(
    buffer: &mut [u8],
    end: usize,
    event: Option<u64>,
    last: Option<u64>,
    consumers: Option<u64>,
    thread: Option<u64>,
) -> usize
    requires room { ENTRY ≤ end }
    requires within { end ≤ length buffer.old }
    ensures text { drop result buffer.new
        ≡ numbers_text (codes "end") (event ∷ last ∷ consumers ∷ thread ∷ []) ++ drop end buffer.old }
    ensures low { end ≤ result + ENTRY }
    ensures high { result ≤ end }
    ensures fits { All FitsField (event ∷ last ∷ consumers ∷ thread ∷ []) }
{
    let end = end_of_line(buffer, end);
    let end = optional_before(buffer, end, thread);
    let end = optional_before(buffer, end, consumers);
    let end = optional_before(buffer, end, last);
    let end = optional_before(buffer, end, event);
    word_before(buffer, end, b"end")
}

/// Puts the line of an entry before what stands in the buffer from a place on, and tells where it begins. It is made
/// from its end to its front, so that no number needs its length beforehand.
#[inline(always)]
pub fn entry_before(buffer: &mut [u8], end: usize, entry: &Entry) -> usize
    requires room { ENTRY ≤ end }
    requires within { end ≤ length buffer.old }
    ensures text { drop result buffer.new ≡ entry_text entry.now ++ drop end buffer.old }
    ensures low { end ≤ result + ENTRY }
    ensures high { result ≤ end }
    ensures fits { All FitsField (entry_numbers entry.now) }
{
    match entry {
        Entry::Connect {
            action,
            thread,
            account,
            user,
            host,
        } => connect_before(buffer, end, *action, *thread, *account, *user, *host),
        Entry::Start {
            event,
            verdict,
            consumers,
            thread,
            class,
            table,
        } => started_before(
            buffer, end, *event, *verdict, *consumers, *thread, *class, *table,
        ),
        Entry::End {
            event,
            last,
            consumers,
            thread,
        } => ended_before(buffer, end, *event, *last, *consumers, *thread),
        Entry::Add { row, version } => two_before(buffer, end, b"add", *row, *version),
        Entry::Held { row, first, second } => three_before(
            buffer, end, b"held", *row, *first, *second,
        ),
        Entry::Ring { row, version } => two_before(buffer, end, b"ring", *row, *version),
        Entry::Long {
            row,
            version,
            ticket,
        } => three_before(buffer, end, b"long", *row, *version, *ticket),
        Entry::Busy { row, first, second } => three_before(
            buffer, end, b"busy", *row, *first, *second,
        ),
        Entry::Late {
            row,
            ticket,
            greater,
        } => three_before(buffer, end, b"late", *row, *ticket, *greater),
        Entry::Settle => bare_before(buffer, end, b"settle"),
        Entry::Act { action } => one_before(buffer, end, b"act", *action),
        Entry::Take { row, version } => two_before(buffer, end, b"take", *row, *version),
        Entry::Give {
            row,
            version,
            source,
        } => three_before(buffer, end, b"give", *row, *version, *source),
        Entry::Tag { row, version } => two_before(buffer, end, b"tag", *row, *version),
        Entry::Free { row, version } => two_before(buffer, end, b"free", *row, *version),
        Entry::Set {
            word,
            version,
            flags,
        } => three_before(buffer, end, b"set", *word, *version, *flags),
        Entry::Reply { number } => one_before(buffer, end, b"reply", *number),
        Entry::Error { number } => one_before(buffer, end, b"error", *number),
        Entry::Query => bare_before(buffer, end, b"query"),
        Entry::Seen { row, version } => two_before(buffer, end, b"seen", *row, *version),
        Entry::Vacant { row } => one_before(buffer, end, b"vacant", *row),
        Entry::Saw { word, version } => two_before(buffer, end, b"saw", *word, *version),
        Entry::Rows { number } => one_before(buffer, end, b"rows", *number),
    }
}

/// The line of an entry.
pub fn entry_line(line: &mut Vec<u8>, entry: &Entry) -> Result<(), NoMemory>
    ensures text { OnOk result (line.new.items ≡ entry_text entry.now) }
    ensures fits { OnOk result (All FitsField (entry_numbers entry.now)) }
{
    let mut buffer = [b'\n'; ENTRY];
    let start = entry_before(&mut buffer, ENTRY, entry);
    begin(line, &buffer[start..])
}

/// Appends a space and a quoted text.
fn put_quoted(line: &mut Vec<u8>, text: &[u8]) -> Result<(), NoMemory>
    ensures { OnOk result (line.new.items ≡ line.old.items ++ (codes " " ++ quoted text.now)) }
{
    put_text(line, b" ")?;
    quote(line, text)
}

/// Appends a space and a value.
#[tactic(auto, unfolding(crate::specs::Spelling::value_text))]
fn put_value(line: &mut Vec<u8>, value: &RowValue) -> Result<(), NoMemory>
    ensures text { OnOk result (line.new.items ≡ line.old.items ++ value_text value.now) }
    ensures fits { OnOk result (FitsValue value.now) }
{
    match value {
        RowValue::Null => put_text(line, b" NULL"),
        RowValue::Number(number) => put_field(line, *number),
        RowValue::Text(text) => put_quoted(line, text.as_bytes()),
    }
}

/// Appends such values.
fn put_values(line: &mut Vec<u8>, values: &[RowValue]) -> Result<(), NoMemory>
    ensures text { OnOk result (line.new.items ≡ line.old.items ++ flat_map value_text values.now) }
    ensures fits { OnOk result (All FitsValue values.now) }
{
    for value in values {
        put_value(line, value)?;
    }
    Ok(())
}

/// The line of a row.
#[tactic(auto, unfolding(crate::specs::Spelling::row_text))]
pub fn row_line(line: &mut Vec<u8>, row: &Row) -> Result<(), NoMemory>
    ensures text { OnOk result (line.new.items ≡ row_text row.now) }
    ensures fits { OnOk result (All FitsValue row.now) }
{
    begin(line, b"row")?;
    put_values(line, row.as_slice())?;
    end_line(line)
}

/// The line of a table.
#[tactic(auto, unfolding(crate::specs::Spelling::table_line))]
pub fn table_line(line: &mut Vec<u8>, name: &[u8]) -> Result<(), NoMemory>
    ensures { OnOk result (line.new.items ≡ table_line name.now) }
{
    begin(line, b"table ")?;
    put_text(line, name)?;
    end_line(line)
}

/// What a counter's line begins with.
fn begin_lost(line: &mut Vec<u8>, name: &[u8]) -> Result<(), NoMemory>
    ensures { OnOk result (line.new.items ≡ codes "lost " ++ name.now) }
{
    begin(line, b"lost ")?;
    put_text(line, name)
}

/// The line of a counter.
#[tactic(auto, unfolding(crate::specs::Spelling::lost_text, crate::specs::Spelling::numbers_text))]
pub fn lost_line(line: &mut Vec<u8>, lost: &LostReport) -> Result<(), NoMemory>
    ensures text { OnOk result (line.new.items ≡ lost_text lost.now) }
    ensures fits { OnOk result (FitsField (Some lost.now.number)) }
{
    begin_lost(line, lost.name.as_bytes())?;
    put_field(line, lost.number)?;
    end_line(line)
}
