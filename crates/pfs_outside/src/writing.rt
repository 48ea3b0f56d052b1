//! Offering a whole text to a sink.

ghost use Rattle.std.specs.Prelude.{◌≢◌, Err, length};
ghost use Rattle.pfs_outside.specs.WholeStreams.{Puts};

use crate::sink::{Sink, Wrote};
use thiserror::Error;

/// Why a text was not written whole.
#[derive(Clone, Copy, Debug, PartialEq, Eq, Error)]
pub enum WriteStop {
    /// The sink failed.
    #[error("a write failed")]
    Failed,
    /// Memory ran out.
    #[error("out of memory")]
    NoMemory,
}

/// Offers a text to a sink, and the rest of a part that was taken again, until all is taken. It takes
/// no memory.
#[inline(always)]
pub fn write_all<K: Sink>(sink: &mut K, text: &[u8]) -> Result<(), WriteStop>
    ensures puts { Puts (K.written sink.old) (K.written sink.new) (K.faults sink.old) (K.faults sink.new) text.now
        result }
    ensures takes_no_memory { result ≢ Err WriteStop.NoMemory }
{
    let mut at = 0;
    while at < text.len() {
        match sink.write(&text[at..]) {
            Wrote::Bytes(n) => at += n,
            Wrote::Failed => return Err(WriteStop::Failed),
        }
    }
    Ok(())
}
