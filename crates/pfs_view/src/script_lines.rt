//! A line of a script, as it is quoted.

ghost use Rattle.std.specs.Prelude.{◌≡◌, ◌-◌, ◌<◌, ◌++◌, ◌==◌, if◌then◌else◌, OnOk};
ghost use Rattle.std.specs.List.{flat_map};
ghost use Rattle.pfs_view.specs.ScriptLines.{behind_lines as spec_behind_lines, first_line as spec_first_line, line_at as spec_line_at, printed_byte, quoted_line};

use crate::NoMemory;
use pfs_text::put_u64;

/// How many line feeds are left to pass, behind this byte.
fn left_behind(left: u64, byte: u8) -> u64
    requires { 0 < left }
    ensures { result ≡ (if byte == 10 then left - 1 else left) }
{
    if byte == b'\n' { left - 1 } else { left }
}

/// What stands behind so many line feeds.
fn behind_lines(text: &[u8], count: u64) -> &[u8]
    ensures { result.now ≡ spec_behind_lines count text.now }
{
    let mut left = count;
    for place in 0..text.len() {
        if left == 0 {
            return &text[place..];
        }
        left = left_behind(left, text[place]);
    }
    &[]
}

/// What stands before the first line feed.
fn first_line(text: &[u8]) -> &[u8]
    ensures { result.now ≡ spec_first_line text.now }
{
    for place in 0..text.len() {
        if text[place] == b'\n' {
            return &text[..place];
        }
    }
    text
}

/// The line of this number, counted from 1; an empty one where there is none.
pub(crate) fn line_at(text: &[u8], number: u64) -> &[u8]
    ensures { result.now ≡ spec_line_at text.now number }
{
    first_line(behind_lines(text, number.saturating_sub(1)))
}

/// Appends a byte that can be printed as it is, any other by its number.
fn put_printed_byte(out: &mut Vec<u8>, byte: u8) -> Result<(), NoMemory>
    ensures { OnOk result (out.new.items ≡ out.old.items ++ printed_byte byte) }
{
    if 32 <= byte && byte <= 126 {
        out.push(byte)?;
        return Ok(());
    }
    out.extend_from_slice(b"<")?;
    put_u64(out, byte as u64)?;
    out.extend_from_slice(b">")
}

/// Appends a text of which each byte is printed so.
pub(crate) fn put_printed(out: &mut Vec<u8>, text: &[u8]) -> Result<(), NoMemory>
    ensures { OnOk result (out.new.items ≡ out.old.items ++ flat_map printed_byte text.now) }
{
    for byte in text {
        put_printed_byte(out, *byte)?;
    }
    Ok(())
}

/// Appends a line behind four spaces, unless it is empty.
#[tactic(auto, unfolding(crate::specs::ScriptLines::quoted_line))]
pub(crate) fn put_quoted_line(out: &mut Vec<u8>, line: &[u8]) -> Result<(), NoMemory>
    ensures { OnOk result (out.new.items ≡ out.old.items ++ quoted_line line.now) }
{
    if line.is_empty() {
        return Ok(());
    }
    out.extend_from_slice(b"    ")?;
    put_printed(out, line)?;
    out.extend_from_slice(b"\n")
}
