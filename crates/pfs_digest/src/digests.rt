//! Digest texts and their digests.
#![tactic(auto)]

ghost use Rattle.std.specs.Prelude.{◌≡◌, [], reverse};
ghost use Rattle.sha2.specs.Sha256.{sha256};
ghost use Rattle.pfs_lexer.specs.TextItems.{items_of};
ghost use Rattle.pfs_digest.specs.Digest as spec;
ghost use Rattle.pfs_digest.specs.Reduction as steps;
ghost use Rattle.pfs_digest.specs.Stack.{finished};

use crate::NoMemory;
use crate::pieces::{Piece, piece_of};
use crate::printing::spelled;
use crate::stack::push;
use pfs_lexer::{LexFault, Lexer};
use pfs_text::Text;
use sha2::{Digest, Sha256};
use std::alloc::Global;
use thiserror::Error;

/// Why a statement has no digest text.
#[derive(Clone, Copy, Debug, PartialEq, Eq, Error)]
pub enum DigestFault {
    /// The statement's text has this fault.
    #[error("{0}")]
    Lex(LexFault),
    /// Memory ran out.
    #[error("out of memory")]
    NoMemory,
}

impl From<NoMemory> for DigestFault {
    ghost use Rattle.std.specs.Prelude.{◌≡◌};
    ghost use Rattle.pfs_digest.specs.declared.digests.DigestFault.TheVariants.{NoMemory as ran_out};

    ghost from_gives = { λ _ fault. fault ≡ ran_out };

    fn from(_: NoMemory) -> DigestFault {
        DigestFault::NoMemory
    }
}

/// The digest text of a statement: its tokens with one space between each two, keywords in upper case, other words
/// and quoted names in backquotes. A value is shown as `?`, and so is each `?`; values with `,` between as
/// `?, ...`; a value and several in brackets as `(?)` and `(...)`, and these with `,` between as
/// `(?) /* , ... */` and `(...) /* , ... */`. A `;` at the end goes.
///
/// The lexer's fault is given exactly where the text has one.
pub fn digest_text(alloc: Global, text: &str) -> Result<Text, DigestFault>
    ensures { spec.Gives (λ shown. shown) result (spec.digest_text_of text.now) }
{
    let mut stack = reduced(alloc, text)?;
    drop_semicolons(&mut stack);
    let bytes = spelled(alloc, text.as_bytes(), stack.as_slice())?;
    Ok(Text::new(bytes))
}

/// The SHA-256 of a digest text.
pub fn digest(digest_text: &[u8]) -> [u8; 32]
    ensures { result ≡ sha256 digest_text.now }
{
    Sha256::digest(digest_text)
}

// The pieces of a statement, in one pass over its tokens. A `;` at the end is still there.
fn reduced(alloc: Global, text: &str) -> Result<Vec<Piece>, DigestFault>
    ensures { spec.Gives (λ stack. reverse stack.items) result (finished text.now [] (items_of text.now)) }
{
    let mut lexer = Lexer::new(text);
    let mut stack = Vec::new(alloc);
    'tokens: while let Some(item) = lexer.next() {
        match item {
            Ok(token) => push(&mut stack, piece_of(text.as_bytes(), token))?,
            Err(fault) => return Err(DigestFault::Lex(fault)),
        }
    }
    Ok(stack)
}

// Drops each `;` at the end.
fn drop_semicolons(stack: &mut Vec<Piece>)
    ensures { stack.new.items ≡ steps.without_last stack.old.items }
{
    'semicolons: while let Some(Piece::Semicolon) = stack.last() {
        stack.pop();
    }
}
