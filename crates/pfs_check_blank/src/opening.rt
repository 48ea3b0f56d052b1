//! The store at first.

ghost use Rattle.std.specs.Prelude.{◌≡◌, IfOk, length, map};
ghost use Rattle.pfs_levels.specs.PlainStore.{word};
ghost use Rattle.pfs_check_blank.specs.ReadyStores.{IsReady};

use crate::NoMemory;
use crate::blank::Blank;
use pfs_board::Content;
use pfs_levels::Word;
use pfs_rows::ROWS;
use std::alloc::Global;

/// What a row has in which nothing was put.
const NOTHING: Content = [0; 16];

impl Blank {
    /// A store whose words have these flags and were never set, with no row in hand.
    pub fn open(alloc: Global, flags: &[u16]) -> Result<Blank, NoMemory>
        requires { length flags.now ≡ 160 }
        ensures { IfOk result (λ blank. IsReady (map (word 0) flags.now) blank) }
    {
        let words = opening_words(alloc, flags)?;
        let taken = vec![in alloc; false; ROWS as usize]?;
        let contents = vec![in alloc; NOTHING; ROWS as usize]?;
        Ok(Blank {
            words,
            taken,
            contents,
        })
    }
}

fn opening_words(alloc: Global, flags: &[u16]) -> Result<Vec<Word>, NoMemory>
    ensures { IfOk result (λ words. words.items ≡ map (word 0) flags.now) }
{
    let mut words = Vec::with_capacity(alloc, flags.len())?;
    for flag in flags {
        words.push(Word {
            version: 0,
            flags: *flag,
        })?;
    }
    Ok(words)
}
