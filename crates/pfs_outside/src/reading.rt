//! Reading a source to its end.

ghost use Rattle.std.specs.Prelude.{ℕ, ◌≡◌, ◌<◌, ◌≤◌, ◌^◌, length, IfOk};
ghost use Rattle.pfs_outside.specs.WholeStreams.{Reads};

use crate::NoMemory;
use crate::source::{Got, Source};
use std::alloc::Global;
use thiserror::Error;

// How many bytes are asked for at a time, at most.
const PIECE: usize = 65_536;

/// Why the bytes of a source were not read to its end.
#[derive(Clone, Copy, Debug, PartialEq, Eq, Error)]
pub enum ReadStop {
    /// More bytes came than may be.
    #[error("too many bytes came")]
    TooLong,
    /// A read failed.
    #[error("a read failed")]
    Failed,
    /// Memory ran out.
    #[error("out of memory")]
    NoMemory,
}

/// Reads a source in pieces of 65,536 bytes at most until its end, or until more than `most` bytes were taken. The
/// first failed read ends the reading. At each refusal what was taken is a front of what was left, and the rest is left:
/// more than `most` bytes by one piece at most, those before the failed read, or as many as there was memory for.
pub fn read_all<S: Source>(alloc: Global, source: &mut S, most: usize) -> Result<Vec<u8>, ReadStop>
    requires { most < 2 ^ 62 }
    ensures { Reads S.left S.faults source.old source.new most result }
{
    let mut piece = zeros(alloc, PIECE).map_err(|_| ReadStop::NoMemory)?;
    read_by(alloc, source, most, &mut piece)
}

// A buffer of so many bytes.
fn zeros(alloc: Global, len: usize) -> Result<Vec<u8>, NoMemory>
    ensures { IfOk result (λ buffer. length buffer.items ≡ len) }
{
    Vec::from_elem(alloc, 0, len)
}

// Reads by a buffer that is there.
fn read_by<S: Source>(
    alloc: Global,
    source: &mut S,
    most: usize,
    piece: &mut [u8],
) -> Result<Vec<u8>, ReadStop>
    requires size { length piece.old ≡ PIECE }
    requires bound { most < 2 ^ 62 }
    ensures { Reads S.left S.faults source.old source.new most result }
{
    let mut bytes = Vec::new(alloc);
    while bytes.len() <= most {
        match source.read(piece) {
            Got::Bytes(n) => match bytes.extend_from_slice(&piece[..n]) {
                Ok(()) => {}
                Err(_) => return Err(ReadStop::NoMemory),
            },
            Got::End => return Ok(bytes),
            Got::Failed => return Err(ReadStop::Failed),
        }
    }
    Err(ReadStop::TooLong)
}
