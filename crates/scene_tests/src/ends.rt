//! Sources and sinks over std's readers and writers, with devices that fail.

use play_io::{
    Failed, FileSink, FileSource, HonestSink, HonestSource, MemSink, MemSource, Sink, SinkFault,
    Source,
};
use std::alloc::AllocError;
use std::io;
use std::io::{Read, Write};
use std::test::Fail;

// A device that fails the first time, and works from then on.
#[derive(Drop)]
struct Shaky {
    failed: bool,
}

impl Read for Shaky {
    fn read(&mut self, _buf: &mut [u8]) -> io::Result<usize> {
        if self.failed {
            return Ok(0);
        }
        self.failed = true;
        Err(io::Error::from(AllocError))
    }
}

impl Write for Shaky {
    fn write(&mut self, buf: &[u8]) -> io::Result<usize> {
        if self.failed {
            return Ok(buf.len());
        }
        self.failed = true;
        Err(io::Error::from(AllocError))
    }

    fn flush(&mut self) -> io::Result<()> {
        if self.failed {
            return Ok(());
        }
        self.failed = true;
        Err(io::Error::from(AllocError))
    }
}

// A writer that takes nothing.
#[derive(Drop)]
struct Stuck;

impl Write for Stuck {
    fn write(&mut self, _buf: &[u8]) -> io::Result<usize> {
        Ok(0)
    }

    fn flush(&mut self) -> io::Result<()> {
        Ok(())
    }
}

#[test]
fn an_honest_source_hands_out_at_most_so_many_bytes(rt: HostRuntime) -> Result<(), Fail> {
    let mut source = HonestSource::new(rt.alloc(), b"abc", 2)?;
    let mut into = [0u8; 4];
    let mut none = [0u8; 0];
    assert_eq!(rt; source.read(&mut none), Ok(0));
    assert_eq!(rt; source.read(&mut into), Ok(2));
    assert_eq!(rt; into, [b'a', b'b', 0, 0]);
    assert_eq!(rt; source.read(&mut into), Ok(1));
    assert_eq!(rt; into, [b'c', b'b', 0, 0]);
    assert_eq!(rt; source.read(&mut into), Ok(0));
    Ok(())
}

#[test]
fn an_honest_sink_takes_at_most_so_many_bytes(rt: HostRuntime) -> Result<(), Fail> {
    let mut sink = HonestSink::new(rt.alloc(), 2);
    assert_eq!(rt; sink.write(b"abc"), Ok(2));
    assert_eq!(rt; sink.write(b"c"), Ok(1));
    assert_eq!(rt; sink.flush(), Ok(()));
    assert_eq!(rt; sink.bytes(), b"abc".as_slice());
    Ok(())
}

#[test]
fn files_pass_on_bytes_and_faults(rt: HostRuntime) -> Result<(), Fail> {
    let mut into = [0u8; 2];
    let mut source = FileSource::new(b"abc".as_slice());
    assert_eq!(rt; source.read(&mut into), Ok(2));
    assert_eq!(rt; into, *b"ab");
    assert_eq!(rt; source.read(&mut into), Ok(1));
    assert_eq!(rt; source.read(&mut into), Ok(0));
    let mut shaky = FileSource::new(Shaky { failed: false });
    assert_eq!(rt; shaky.read(&mut into), Err(Failed));
    assert_eq!(rt; shaky.read(&mut into), Ok(0));

    let mut sink = FileSink::new(Vec::new(rt.alloc()));
    assert_eq!(rt; sink.write(b"abc"), Ok(3));
    assert_eq!(rt; sink.write(b""), Ok(0));
    assert_eq!(rt; sink.flush(), Ok(()));
    let mut shaky = FileSink::new(Shaky { failed: false });
    assert_eq!(rt; shaky.write(b"abc"), Err(SinkFault::Failed));
    assert_eq!(rt; shaky.write(b"abc"), Ok(3));
    assert_eq!(rt;
        FileSink::new(Shaky { failed: false }).flush(),
        Err(SinkFault::Failed)
    );
    assert_eq!(rt; FileSink::new(Stuck).write(b"abc"), Err(SinkFault::Failed));
    Ok(())
}

#[test]
fn a_failing_read_takes_nothing(rt: HostRuntime) -> Result<(), Fail> {
    let mut source = MemSource::new(rt.alloc(), b"abc", 2, &[0])?;
    let mut into = [0u8; 4];
    assert_eq!(rt; source.read(&mut into), Err(Failed));
    assert_eq!(rt; source.read(&mut into), Ok(2));
    assert_eq!(rt; into, [b'a', b'b', 0, 0]);
    assert_eq!(rt; source.read(&mut into), Ok(1));
    assert_eq!(rt; into, [b'c', b'b', 0, 0]);
    assert_eq!(rt; source.read(&mut into), Ok(0));
    Ok(())
}

#[test]
fn writes_and_flushes_are_counted_together(rt: HostRuntime) -> Result<(), Fail> {
    let mut sink = MemSink::new(rt.alloc(), 2, &[0, 3])?;
    assert_eq!(rt; sink.write(b"abc"), Err(SinkFault::Failed));
    assert_eq!(rt; sink.bytes(), b"".as_slice());
    assert_eq!(rt; sink.write(b"abc"), Ok(2));
    assert_eq!(rt; sink.flush(), Ok(()));
    assert_eq!(rt; sink.write(b"c"), Err(SinkFault::Failed));
    assert_eq!(rt; sink.write(b"c"), Ok(1));
    assert_eq!(rt; sink.bytes(), b"abc".as_slice());
    Ok(())
}
