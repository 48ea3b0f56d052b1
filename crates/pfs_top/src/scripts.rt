//! Reading a script, and naming its fault.

ghost use Rattle.std.specs.Prelude.{◌≡◌, IfErr, IfOk, OnOk};
ghost use Rattle.pfs_outside.specs.DeviceCalls.{Rose};
ghost use Rattle.pfs_script.specs.Scripts.{IsScript};
ghost use Rattle.pfs_top.specs.Commands.{Ends, HasBadInput, HasBadText, HasFault, HasScript, ReadBy, ReadWhole, Tells, fault_text, reason_number};

use crate::NoMemory;
use crate::statuses::{Status, status_after};
use crate::texts::put_text;
use pfs_outside::{ReadStop, Sink, Source, read_all, write_all};
use pfs_script::{Reason, Script, ScriptFault};
use pfs_text::put_u64;
use std::alloc::Global;

/// How many bytes a script may have.
const MOST_BYTES: usize = 1_048_576;

/// The reason's number, as it is printed.
fn reason_number(reason: Reason) -> u64
    ensures { result ≡ reason_number reason }
{
    reason as u64
}

/// The line that names a faulty line and its reason.
#[tactic(auto, unfolding(crate::specs::Commands::fault_text))]
fn fault_line(alloc: Global, line: u64, reason: Reason) -> Result<Vec<u8>, NoMemory>
    ensures { IfOk result (λ text. text.items ≡ fault_text line reason) }
{
    let mut text = Vec::new(alloc);
    put_text(&mut text, b"bad script: line ")?;
    put_u64(&mut text, line)?;
    put_text(&mut text, b" reason ")?;
    put_u64(&mut text, reason_number(reason))?;
    put_text(&mut text, b"\n")?;
    Ok(text)
}

/// Names a faulty line and its reason.
fn complain<K: Sink>(alloc: Global, sink: &mut K, line: u64, reason: Reason) -> Status
    ensures { Tells (HasFault line reason) (K.written sink.old) (K.written sink.new)
        (Rose (K.faults sink.old) (K.faults sink.new)) result }
{
    match fault_line(alloc, line, reason) {
        Ok(text) => status_after(write_all(sink, &text), Status::BadScript { line, reason }),
        Err(_) => Status::NoMemory,
    }
}

/// The script that these bytes are. Where they are none its fault is named, and what was told of it is the answer.
fn script_in<K: Sink>(alloc: Global, sink: &mut K, bytes: &[u8]) -> Result<Script, Status>
    ensures script { IfOk result (λ script. IsScript bytes.now script.setting script.phases) }
    ensures still { OnOk result (sink.new ≡ sink.old) }
    ensures told { IfErr result (λ status. Tells (HasBadText bytes.now) (K.written sink.old) (K.written sink.new)
        (Rose (K.faults sink.old) (K.faults sink.new)) status) }
{
    match Script::read(alloc, bytes) {
        Ok(script) => Ok(script),
        Err(ScriptFault::Bad { line, reason }) => Err(complain(alloc, sink, line, reason)),
        Err(ScriptFault::NoMemory) => Err(Status::NoMemory),
    }
}

/// The script that the source has, within 1,048,576 bytes. Where it has none that is named, and what was told of it is
/// the answer: BadScript by its first faulty line, or by line 0 where there are more bytes; ReadFault where a read
/// failed; NoMemory.
pub fn read_script<S: Source, K: Sink>(
    alloc: Global,
    source: &mut S,
    sink: &mut K,
) -> Result<Script, Status>
    ensures script { IfOk result (λ script. HasScript (S.left source.old) script.setting script.phases) }
    ensures whole { OnOk result (ReadWhole S.left S.faults source.old source.new) }
    ensures still { OnOk result (sink.new ≡ sink.old) }
    ensures told { IfErr result (λ status. Ends (Unit {0}) (HasBadInput (S.left source.old)) (K.written sink.old)
        (K.written sink.new) (Rose (S.faults source.old) (S.faults source.new))
        (Rose (K.faults sink.old) (K.faults sink.new)) status) }
    ensures reads { IfErr result (λ status. ReadBy S.left S.faults source.old source.new status) }
{
    match read_all(alloc, source, MOST_BYTES) {
        Ok(bytes) => script_in(alloc, sink, &bytes),
        Err(ReadStop::TooLong) => Err(complain(alloc, sink, 0, Reason::TooLong)),
        Err(ReadStop::Failed) => Err(Status::ReadFault),
        Err(ReadStop::NoMemory) => Err(Status::NoMemory),
    }
}
