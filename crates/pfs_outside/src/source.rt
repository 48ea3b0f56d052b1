//! Where bytes come from.

ghost use Rattle.std.specs.Prelude.{ℕ, List, Option, ◌<◌, length};
ghost use Rattle.pfs_outside.specs.DeviceCalls.{Moved, RoseAtFault};

/// What one call of `Source::read` answers.
#[derive(Clone, Copy, Debug, PartialEq, Eq)]
pub enum Got {
    /// So many bytes were moved to the front of the buffer, at least one.
    Bytes(usize),
    /// Nothing is left.
    End,
    /// The source failed; what it has left is as before.
    Failed,
}

/// A source of bytes. `left` is what is still to come, where the source tells it. `faults` counts its
/// failures: it never falls, and at a failure it rises or stands at 2^64 - 1.
pub trait Source {
    ghost left: { Self → Option (List ℕ) };

    ghost faults: { Self → ℕ };

    /// Moves some of what is left to the front of the buffer.
    fn read(&mut self, buffer: &mut [u8]) -> Got
        requires { 0 < length buffer.old }
        ensures moved { Moved (left self.old) (left self.new) (length buffer.old) buffer.new result }
        ensures cause { RoseAtFault (faults self.old) (faults self.new) result };
}
