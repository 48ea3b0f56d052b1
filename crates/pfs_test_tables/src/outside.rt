use crate::asserts::same;
use pfs_outside::*;
use std::test::Fail;

#[test]
fn a_source_gives_its_bytes_and_fails_where_it_is_told(rt: HostRuntime) -> Result<(), Fail> {
    let mut source = MemorySource::new(rt.alloc(), b"abcde", &[2])?;
    let mut buffer = [0u8; 4];
    for (told, held) in [
        (Got::Bytes(4), *b"abcd"),
        (Got::Failed, *b"abcd"),
        (Got::Bytes(1), *b"ebcd"),
        (Got::End, *b"ebcd"),
    ] {
        let got = source.read(&mut buffer);
        same(&rt, "read", (got, buffer), (told, held));
    }
    Ok(())
}

#[test]
fn a_sink_takes_what_fits_and_fails_where_it_is_told(rt: HostRuntime) -> Result<(), Fail> {
    let mut sink = MemorySink::new(rt.alloc(), 4, &[1])?;
    for (bytes, told) in [
        (b"ab".as_slice(), Wrote::Failed),
        (b"abc".as_slice(), Wrote::Bytes(3)),
        (b"de".as_slice(), Wrote::Bytes(1)),
        (b"e".as_slice(), Wrote::Failed),
    ] {
        same(&rt, "written", sink.write(bytes), told);
    }
    same(&rt, "bytes", sink.bytes(), b"abcd".as_slice());
    Ok(())
}

#[test]
fn short_devices_move_few_bytes_a_call(rt: HostRuntime) -> Result<(), Fail> {
    let mut source = ShortSource::new(rt.alloc(), b"abcde", 2, &[2])?;
    let mut buffer = [0u8; 4];
    for (told, held) in [
        (Got::Bytes(2), *b"ab\0\0"),
        (Got::Failed, *b"ab\0\0"),
        (Got::Bytes(2), *b"cd\0\0"),
        (Got::Bytes(1), *b"ed\0\0"),
        (Got::End, *b"ed\0\0"),
    ] {
        let got = source.read(&mut buffer);
        same(&rt, "read", (got, buffer), (told, held));
    }
    let mut sink = ShortSink::new(rt.alloc(), 4, 3, &[2])?;
    for (bytes, told) in [
        (b"abcd".as_slice(), Wrote::Bytes(3)),
        (b"de".as_slice(), Wrote::Failed),
        (b"de".as_slice(), Wrote::Bytes(1)),
        (b"e".as_slice(), Wrote::Failed),
    ] {
        same(&rt, "written", sink.write(bytes), told);
    }
    same(&rt, "bytes", sink.bytes(), b"abcd".as_slice());
    Ok(())
}

#[test]
fn whole_streams_are_read_and_written(rt: HostRuntime) -> Result<(), Fail> {
    let alloc = rt.alloc();
    let mut source = MemorySource::new(alloc, b"abcde", &[])?;
    let bytes = read_all(alloc, &mut source, 5);
    let Ok(bytes) = bytes else {
        return Err(Fail::from("five bytes are read"));
    };
    same(&rt, "read", bytes.as_slice(), b"abcde".as_slice());
    let mut source = MemorySource::new(alloc, b"abcde", &[])?;
    let stop = read_all(alloc, &mut source, 4).err();
    same(&rt, "too long", stop, Some(ReadStop::TooLong));
    let mut sink = MemorySink::new(alloc, 4, &[])?;
    let written = write_all(&mut sink, &bytes);
    same(&rt, "written", written, Err(WriteStop::Failed));
    same(&rt, "bytes", sink.bytes(), b"abcd".as_slice());
    Ok(())
}
