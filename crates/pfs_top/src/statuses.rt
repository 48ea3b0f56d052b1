//! How a call ended.

ghost use Rattle.std.specs.Prelude.{◌≡◌};
ghost use Rattle.pfs_top.specs.Commands.{status_number, status_after};

use pfs_outside::WriteStop;
use pfs_script::Reason;

/// How a call ended. Its number is the program's exit status.
#[derive(Clone, Copy, Debug, PartialEq, Eq)]
pub enum Status {
    /// The work is done, and its text was written.
    Done,
    /// The words are no command.
    Usage,
    /// The input is no script: its first faulty line, counted from 1, and the reason; line 0 where
    /// there are too many bytes.
    BadScript { line: u64, reason: Reason },
    /// A read failed. Nothing was written.
    ReadFault,
    /// A write failed. A front of the text due was written.
    WriteFault,
    /// Memory ran out. A front of the text due was written, maybe none of it.
    NoMemory,
}

impl Status {
    /// The exit status.
    pub fn number(self) -> u8
        ensures { result ≡ status_number self }
    {
        match self {
            Status::Done => 0,
            Status::Usage => 1,
            Status::BadScript { .. } => 2,
            Status::ReadFault => 3,
            Status::WriteFault => 4,
            Status::NoMemory => 5,
        }
    }
}

/// The status where a text of this status was offered.
pub fn status_after(outcome: Result<(), WriteStop>, status: Status) -> Status
    ensures { result ≡ status_after outcome status }
{
    match outcome {
        Ok(()) => status,
        Err(WriteStop::Failed) => Status::WriteFault,
        Err(WriteStop::NoMemory) => Status::NoMemory,
    }
}
