// Streams that fail in the middle, and what is read and written before and after.
use crate::{
    Failed, MemorySink, MemorySource, NullSink, ReadSource, Sink, Source, SteadySource, WriteSink,
};
use std::io::{Error, ErrorKind, Read, Write};
use std::test::Fail;

// So many reads into pieces of four bytes: adds what they give to the bytes, and counts those that fail.
fn read_on<S: Source>(source: &mut S, reads: u8, bytes: &mut Vec<u8>) -> Result<u8, Fail> {
    let mut failed = 0u8;
    for _ in 0..reads {
        let mut piece = [0u8; 4];
        match source.read(&mut piece) {
            Ok(count) => bytes.extend_from_slice(&piece[..count])?,
            Err(Failed) => failed = failed.saturating_add(1),
        }
    }
    Ok(failed)
}

#[test]
fn memory_source_in_small_pieces(rt: HostRuntime) -> Result<(), Fail> {
    let text = Vec::from_array(rt.alloc(), *b"0123456789")?;
    let fails = Vec::from_array(rt.alloc(), [2u64])?;
    let mut source = MemorySource::new(text, fails, 3);
    let mut bytes = Vec::new(rt.alloc());
    assert_eq!(rt; read_on(&mut source, 1, &mut bytes)?, 0);
    assert_eq!(rt; bytes.as_slice(), b"012".as_slice());
    assert_eq!(rt;
        read_on(&mut source, 1, &mut bytes)?,
        1,
        "the second read fails"
    );
    assert_eq!(rt; read_on(&mut source, 4, &mut bytes)?, 0);
    assert_eq!(rt; bytes.as_slice(), b"0123456789".as_slice());
    Ok(())
}

#[test]
fn steady_source(rt: HostRuntime) -> Result<(), Fail> {
    let text = Vec::from_array(rt.alloc(), *b"0123456789")?;
    let mut source = SteadySource::new(text);
    let mut bytes = Vec::new(rt.alloc());
    assert_eq!(rt; read_on(&mut source, 2, &mut bytes)?, 0);
    assert_eq!(rt; bytes.as_slice(), b"01234567".as_slice());
    assert_eq!(rt; read_on(&mut source, 2, &mut bytes)?, 0);
    assert_eq!(rt; bytes.as_slice(), b"0123456789".as_slice());
    Ok(())
}

#[test]
fn memory_sink_that_fails(rt: HostRuntime) -> Result<(), Fail> {
    let fails = Vec::from_array(rt.alloc(), [2u64])?;
    let mut sink = MemorySink::new(rt.alloc(), 7, fails)?;
    assert_eq!(rt; sink.write(b"abc"), Ok(()));
    assert_eq!(rt; sink.write(b"d"), Err(Failed), "the second write fails");
    assert_eq!(rt; sink.write(b"efghi"), Err(Failed), "room for four bytes");
    assert_eq!(rt; sink.write(b"jklm"), Ok(()));
    assert_eq!(rt; sink.write(b""), Ok(()));
    assert_eq!(rt; sink.bytes(), b"abcjklm".as_slice());
    assert_eq!(rt; NullSink::new().write(b"abc"), Ok(()));
    Ok(())
}

// A reader that is interrupted, gives two bytes, breaks once, and gives one more.
#[derive(Drop)]
struct Flaky {
    calls: u8,
}

impl Read for Flaky {
    fn read(&mut self, buf: &mut [u8]) -> std::io::Result<usize> {
        self.calls = self.calls.saturating_add(1);
        let gives: &[u8] = match self.calls {
            1 => return Err(Error::from(ErrorKind::Interrupted)),
            2 => b"xy",
            3 => return Err(Error::from(ErrorKind::BrokenPipe)),
            4 => b"z",
            _ => b"",
        };
        let count = gives.len().min(buf.len());
        buf[..count].copy_from_slice(&gives[..count]);
        Ok(count)
    }
}

#[test]
fn reader_that_breaks(rt: HostRuntime) -> Result<(), Fail> {
    let mut source = ReadSource::new(Flaky { calls: 0 });
    let mut bytes = Vec::new(rt.alloc());
    assert_eq!(rt;
        read_on(&mut source, 1, &mut bytes)?,
        0,
        "tried again after the signal"
    );
    assert_eq!(rt; bytes.as_slice(), b"xy".as_slice());
    assert_eq!(rt; read_on(&mut source, 1, &mut bytes)?, 1);
    assert_eq!(rt; read_on(&mut source, 2, &mut bytes)?, 0);
    assert_eq!(rt; bytes.as_slice(), b"xyz".as_slice());
    Ok(())
}

// A writer that takes at most three bytes a call, is interrupted at its second, and has room for eight.
#[derive(Drop)]
struct Choppy {
    taken: Vec<u8>,
    calls: u8,
}

impl Write for Choppy {
    fn write(&mut self, buf: &[u8]) -> std::io::Result<usize> {
        self.calls = self.calls.saturating_add(1);
        if self.calls == 2 {
            return Err(Error::from(ErrorKind::Interrupted));
        }
        let room = 8usize.saturating_sub(self.taken.len());
        let count = buf.len().min(room).min(3);
        self.taken.extend_from_slice(&buf[..count])?;
        Ok(count)
    }

    fn flush(&mut self) -> std::io::Result<()> {
        Ok(())
    }
}

#[test]
fn writer_in_small_pieces(rt: HostRuntime) {
    let mut writer = Choppy {
        taken: Vec::new(rt.alloc()),
        calls: 0,
    };
    let mut sink = WriteSink::new(&mut writer);
    assert_eq!(rt; sink.write(b"01234"), Ok(()), "in two writes");
    assert_eq!(rt;
        sink.write(b"56789"),
        Err(Failed),
        "the last write takes nothing"
    );
    assert_eq!(rt; sink.write(b""), Ok(()));
    assert_eq!(rt; writer.taken.as_slice(), b"01234567".as_slice());
}
