//! What the summary by digest shows.

ghost use Rattle.std.specs.Prelude.{◌≡◌, ◌<◌, ◌+◌, ◌++◌, ◌∷◌, [], IfOk, OnOk, Some, slice_get, string_bytes};
ghost use Rattle.hex.specs.Hex.{encode_lower};
ghost use Rattle.sha2.specs.Sha256.{sha256};
ghost use Rattle.pfs_summaries.specs.declared.numbers.Numbers.TheVariants as numbers;
ghost use Rattle.pfs_stat.specs.Stat.{stat_of_words};
ghost use Rattle.pfs_summaries.specs.RowValues.{values_of};
ghost use Rattle.std.specs.List.{flat_map, range_with_len};
ghost use Rattle.pfs_summaries.specs.FoundContents.{info_at};
ghost use Rattle.pfs_summaries.specs.DigestRows.{digest_heading, null_heading, counted_row, place_row, digest_row, digests_of};

use crate::NoMemory;
use crate::contents::{contents_of, info_at};
use crate::heads::put_value;
use crate::numbers::Numbers;
use pfs_classes::{DigestText, Setting};
use pfs_containers::Content;
use pfs_digest::digest;
use pfs_rows::{DIGEST_NULL, Reading};
use pfs_stat::Stat;
use pfs_text::{Row, RowValue, Rowset, Text};
use std::alloc::Global;

// How many rows there are: that of the texts without a place, which is the first, and those of the places.
const ROWS: usize = 65;

// No digest and no text.
fn null_heading(alloc: Global) -> Result<Vec<RowValue>, NoMemory>
    ensures { IfOk result (λ values. values.items ≡ null_heading) }
{
    let mut values = Vec::new(alloc);
    put_value(&mut values, RowValue::Null)?;
    put_value(&mut values, RowValue::Null)?;
    put_value(&mut values, RowValue::Null)?;
    Ok(values)
}

// The SHA-256 of a digest text, in hexadecimal digits.
fn hash_text(alloc: Global, digest_text: &[u8]) -> Result<Text, NoMemory>
    ensures { IfOk result (λ text. text ≡ encode_lower (sha256 digest_text.now)) }
{
    let hash = digest(digest_text);
    let digits = hex::encode(alloc, hash.as_slice())?;
    Text::from_slice(alloc, digits.as_bytes())
}

// A digest, and its text.
fn digest_heading(alloc: Global, digest: &DigestText) -> Result<Vec<RowValue>, NoMemory>
    ensures { IfOk result (λ values. values.items ≡ digest_heading digest.now) }
{
    let hash = hash_text(alloc, digest.text.as_bytes())?;
    let text = digest.text.clone()?;
    let mut values = Vec::new(alloc);
    put_value(&mut values, RowValue::Null)?;
    put_value(&mut values, RowValue::Text(hash))?;
    put_value(&mut values, RowValue::Text(text))?;
    Ok(values)
}

// Puts a row, where something was counted.
fn put_counted(heading: Vec<RowValue>, words: &Content, rows: &mut Vec<Row>) -> Result<(), NoMemory>
    ensures { OnOk result (rows.new.items ≡ rows.old.items ++ counted_row heading.items (Some words.now)) }
{
    let stat = Stat::of_words(words);
    if stat.count == 0 {
        return Ok(());
    }
    let mut values = heading;
    Numbers::Statements(stat).put(&mut values)?;
    rows.push(Row::new(values))?;
    Ok(())
}

// Puts the row of the texts without a place.
fn put_null(
    alloc: Global,
    contents: &[Option<Content>],
    rows: &mut Vec<Row>,
) -> Result<(), NoMemory>
    ensures { OnOk result (rows.new.items ≡ rows.old.items ++ counted_row null_heading (info_at contents.now 0)) }
{
    match info_at(contents, 0) {
        Some(words) => {
            let heading = null_heading(alloc)?;
            put_counted(heading, &words, rows)
        }
        None => Ok(()),
    }
}

// Puts the row of a digest, where its content was found.
fn put_digest(
    alloc: Global,
    digest: &DigestText,
    content: Option<Content>,
    rows: &mut Vec<Row>,
) -> Result<(), NoMemory>
    ensures { OnOk result (rows.new.items ≡ rows.old.items ++ counted_row (digest_heading digest.now) content) }
{
    match content {
        Some(words) => {
            let heading = digest_heading(alloc, digest)?;
            put_counted(heading, &words, rows)
        }
        None => Ok(()),
    }
}

// Puts the row of a digest place, where it is one.
#[tactic(auto, unfolding(crate::specs::DigestRows::digest_row))]
fn put_place(
    alloc: Global,
    digests: &[DigestText],
    contents: &[Option<Content>],
    place: usize,
    rows: &mut Vec<Row>,
) -> Result<(), NoMemory>
    requires { place < 64 }
    ensures { OnOk result (rows.new.items ≡ rows.old.items ++ digest_row digests.now contents.now place) }
{
    match digests.get(place) {
        Some(digest) => put_digest(alloc, digest, info_at(contents, 1 + place), rows),
        None => Ok(()),
    }
}

// Puts the rows of all places.
fn put_places(
    alloc: Global,
    digests: &[DigestText],
    contents: &[Option<Content>],
    rows: &mut Vec<Row>,
) -> Result<(), NoMemory>
    ensures { OnOk result (rows.new.items ≡ rows.old.items
        ++ flat_map (digest_row digests.now contents.now) (range_with_len 0 64)) }
{
    for place in 0..64 {
        match put_place(alloc, digests, contents, place, rows) {
            Ok(()) => {}
            Err(fault) => return Err(fault),
        }
    }
    Ok(())
}

/// The rows of the summary by digest by these readings: first that of the texts without a place,
/// whose schema, digest and text are NULL, and then those of the digest places that the setting
/// has, with their SHA-256 in 64 lower-case hexadecimal digits. A row stands where its last reading
/// found its content and its count isn't 0.
pub fn digest_rows(
    alloc: Global,
    setting: &Setting,
    readings: &[Reading],
) -> Result<Rowset, NoMemory>
    ensures { IfOk result (λ rows. rows ≡ digests_of setting.now readings.now) }
{
    let contents = contents_of(alloc, DIGEST_NULL, ROWS, readings)?;
    let mut rows = Vec::new(alloc);
    put_null(alloc, &contents, &mut rows)?;
    put_places(alloc, setting.digests.as_slice(), &contents, &mut rows)?;
    Ok(Rowset::new(rows))
}
