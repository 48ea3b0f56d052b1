//! Where text goes.

ghost use Rattle.std.specs.Prelude.{ℕ, List, Option, ◌<◌, length};
ghost use Rattle.pfs_outside.specs.DeviceCalls.{Taken, RoseAtRefusal};

/// What one call of `Sink::write` answers.
#[derive(Clone, Copy, Debug, PartialEq, Eq)]
pub enum Wrote {
    /// So many bytes from the front of the buffer were taken, at least one.
    Bytes(usize),
    /// The sink failed; what it has is as before. Taking nothing is a failure.
    Failed,
}

/// A sink of bytes. `written` is what it has taken, where it tells it. `faults` counts its failures:
/// it never falls, and at a failure it rises or stands at 2^64 - 1.
pub trait Sink {
    ghost written: { Self → Option (List ℕ) };

    ghost faults: { Self → ℕ };

    /// Appends some bytes from the front of the buffer.
    fn write(&mut self, buffer: &[u8]) -> Wrote
        requires { 0 < length buffer.now }
        ensures taken { Taken (written self.old) (written self.new) buffer.now result }
        ensures cause { RoseAtRefusal (faults self.old) (faults self.new) result };
}
