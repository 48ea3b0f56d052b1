//! The texts that a block of a script asks, each repeat written out.

ghost use Rattle.std.specs.Prelude.{◌≡◌, ◌++◌, ◌∷◌, List, ℕ, OnOk, IfOk, take, drop};
ghost use Rattle.pfs_script.specs.declared.blocks.BlockLine.{BlockLine};
ghost use Rattle.pfs_script.specs.Marks.{copies, is_done, repeats_of};
ghost use Rattle.pfs_view.specs.AskedTexts.{AddedTexts, IsWritten, texts_of as spec_texts_of, bytes_of};

use crate::NoMemory;
use pfs_script::BlockLine;
use std::alloc::Global;

/// A repeat that isn't done: how often its texts are asked, and where they begin among those that are written out.
#[derive(Clone, Copy, Debug, PartialEq, Eq)]
pub(crate) struct Repeat {
    pub times: u64,
    pub start: usize,
}

/// How often the lines run that begin behind this one, where it begins a repeat.
fn times_of(said: &BlockLine) -> Option<u64>
    ensures { result ≡ repeats_of said.now }
{
    match said {
        BlockLine::Repeat(times) => Some(*times),
        _ => None,
    }
}

fn is_done(said: &BlockLine) -> bool
    ensures { result ≡ is_done said.now }
{
    matches!(said, BlockLine::Done)
}

// The text of a line of SQL; nothing of any other.
fn put_text<'a>(texts: &mut Vec<&'a [u8]>, said: &'a BlockLine) -> Result<(), NoMemory>
    ensures { OnOk result (AddedTexts said.now texts.old.items texts.new.items) }
{
    match said {
        BlockLine::Sql(text) => {
            texts.push(text.as_bytes())?;
            Ok(())
        }
        _ => Ok(()),
    }
}

// The texts from a place on, so many times in place of once.
fn put_copies(
    alloc: Global,
    texts: &mut Vec<&[u8]>,
    start: usize,
    times: u64,
) -> Result<(), NoMemory>
    ensures { OnOk result (texts.new.items
        ≡ take start texts.old.items ++ copies times (drop start texts.old.items)) }
{
    let all = texts.as_slice();
    // Empty rounds change nothing, and there may be up to 2^64 - 1 of them.
    if start >= all.len() {
        return Ok(());
    }
    let body = Vec::from_slice(alloc, &all[start..])?;
    texts.truncate(start);
    let again = body.as_slice();
    for round in 0..times {
        let _ = round;
        texts.extend_from_slice(again)?;
    }
    Ok(())
}

// A line outside of repeats.
fn put_outside<'a>(
    texts: &mut Vec<&'a [u8]>,
    said: &'a BlockLine,
) -> Result<Option<Repeat>, NoMemory>
    ensures { (whole : List (List ℕ)) → (rest : List BlockLine)
        → IsWritten whole None texts.old.items (said.now ∷ rest)
        → IfOk result (λ repeat. IsWritten whole repeat texts.new.items rest) }
{
    match times_of(said) {
        Some(times) => Ok(Some(Repeat {
            times,
            start: texts.as_slice().len(),
        })),
        None => {
            put_text(texts, said)?;
            Ok(None)
        }
    }
}

// A line inside a repeat.
fn put_inside<'a>(
    alloc: Global,
    texts: &mut Vec<&'a [u8]>,
    repeat: Repeat,
    said: &'a BlockLine,
) -> Result<Option<Repeat>, NoMemory>
    ensures { (whole : List (List ℕ)) → (rest : List BlockLine)
        → IsWritten whole (Some repeat) texts.old.items (said.now ∷ rest)
        → IfOk result (λ repeat. IsWritten whole repeat texts.new.items rest) }
{
    if is_done(said) {
        put_copies(alloc, texts, repeat.start, repeat.times)?;
        return Ok(None);
    }
    put_text(texts, said)?;
    Ok(Some(repeat))
}

fn put_next<'a>(
    alloc: Global,
    texts: &mut Vec<&'a [u8]>,
    repeat: Option<Repeat>,
    said: &'a BlockLine,
) -> Result<Option<Repeat>, NoMemory>
    ensures { (whole : List (List ℕ)) → (rest : List BlockLine)
        → IsWritten whole repeat texts.old.items (said.now ∷ rest)
        → IfOk result (λ repeat. IsWritten whole repeat texts.new.items rest) }
{
    match repeat {
        None => put_outside(texts, said),
        Some(repeat) => put_inside(alloc, texts, repeat, said),
    }
}

/// The texts of a block's lines of SQL, in order, each repeat written out.
pub(crate) fn texts_of<'a>(alloc: Global, said: &'a [BlockLine]) -> Result<Vec<&'a [u8]>, NoMemory>
    ensures { IfOk result (λ texts. bytes_of texts.items ≡ spec_texts_of said.now) }
{
    let mut texts = Vec::new(alloc);
    let mut repeat = None;
    for line in said {
        repeat = put_next(alloc, &mut texts, repeat, line)?;
    }
    Ok(texts)
}
