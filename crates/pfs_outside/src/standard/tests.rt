//! Readers and writers that tell what they have, that are interrupted, and that fail.
use super::*;
use crate::{ReadStop, read_all, write_all};
use std::io;
use std::test::Fail;

// A device whose calls before `good` are interrupted and whose calls from `bad` on fail, counted from 0. A read gives
// one `A`, and what is written goes to `text`.
#[derive(Drop)]
struct Device {
    calls: u64,
    good: u64,
    bad: u64,
    text: Vec<u8>,
}

impl Device {
    fn new(alloc: Global, good: u64, bad: u64) -> Device {
        Device {
            calls: 0,
            good,
            bad,
            text: Vec::new(alloc),
        }
    }

    fn call(&mut self) -> io::Result<()> {
        let call = self.calls;
        self.calls = call.saturating_add(1);
        if call < self.good {
            Err(io::Error::from(ErrorKind::Interrupted))
        } else if self.bad <= call {
            Err(io::Error::from(ErrorKind::BrokenPipe))
        } else {
            Ok(())
        }
    }
}

impl Read for Device {
    fn read(&mut self, buffer: &mut [u8]) -> io::Result<usize> {
        self.call()?;
        if buffer.is_empty() {
            return Ok(0);
        }
        buffer[0] = b'A';
        Ok(1)
    }
}

impl Write for Device {
    fn write(&mut self, buffer: &[u8]) -> io::Result<usize> {
        self.call()?;
        self.text.extend_from_slice(buffer)?;
        Ok(buffer.len())
    }

    fn flush(&mut self) -> io::Result<()> {
        Ok(())
    }
}

#[test]
fn bytes_of_a_reader_arrive(rt: HostRuntime) -> Result<(), Fail> {
    let mut source = StdSource::new(b"abcde".as_slice());
    let Ok(bytes) = read_all(rt.alloc(), &mut source, 5) else {
        return Err(Fail::from("five bytes are read"));
    };
    assert_eq!(rt; bytes.as_slice(), b"abcde".as_slice());
    assert_eq!(rt; source.faults, 0);
    Ok(())
}

#[test]
fn a_reader_is_asked_again_after_an_interruption_and_not_after_a_failure(
    rt: HostRuntime,
) -> Result<(), Fail> {
    let mut source = StdSource::new(Device::new(rt.alloc(), 3, 4));
    let mut buffer = [0u8; 4];
    assert_eq!(rt; source.read(&mut buffer), Got::Bytes(1));
    assert_eq!(rt; buffer[0], b'A');
    assert_eq!(rt; source.faults, 0);
    assert_eq!(rt;
        read_all(rt.alloc(), &mut source, 9).err(),
        Some(ReadStop::Failed)
    );
    assert_eq!(rt; source.faults, 1);
    assert_eq!(rt; source.reader.calls, 5);
    let mut source = StdSource::new(Device::new(rt.alloc(), u64::MAX, 0));
    assert_eq!(rt; source.read(&mut buffer), Got::Failed);
    assert_eq!(rt; source.faults, 1);
    assert_eq!(rt; source.reader.calls, u64::from(MOST_TRIES));
    Ok(())
}

#[test]
fn texts_reach_a_writer_whole_and_together(rt: HostRuntime) -> Result<(), Fail> {
    let mut device = Device::new(rt.alloc(), 3, 4);
    {
        let mut sink = StdSink::new(rt.alloc(), &mut device)?;
        for _ in 0..1000 {
            assert_eq!(rt; write_all(&mut sink, b"line\n"), Ok(()));
        }
        assert_eq!(rt; sink.flush(), Ok(()));
        assert_eq!(rt; sink.faults, 0);
    }
    assert_eq!(rt; device.calls, 4);
    let text = "line\n".repeat(rt.alloc(), 1000)?;
    assert_eq!(rt; device.text.as_slice(), text.as_str().as_bytes());
    Ok(())
}

#[test]
fn a_writer_that_fails_is_noticed_in_mid_text_and_at_the_end(rt: HostRuntime) -> Result<(), Fail> {
    let text = "line\n".repeat(rt.alloc(), 40_000)?;
    let mut sink = StdSink::new(rt.alloc(), Device::new(rt.alloc(), 0, 1))?;
    let told = write_all(&mut sink, text.as_str().as_bytes());
    assert_eq!(rt; told, Err(WriteStop::Failed));
    assert_eq!(rt; sink.faults, 1);
    let mut sink = StdSink::new(rt.alloc(), Device::new(rt.alloc(), 0, 0))?;
    assert_eq!(rt; write_all(&mut sink, b"line\n"), Ok(()));
    assert_eq!(rt; sink.flush(), Err(WriteStop::Failed));
    assert_eq!(rt; sink.faults, 1);
    Ok(())
}
