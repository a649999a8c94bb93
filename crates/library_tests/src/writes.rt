//! A stream whose writes fail.

use glass_edges::{Sink, StreamSink, put_all};
use std::alloc::Global;
use std::io::{self, ErrorKind, Write};
use std::test::Fail;

/// A writer that takes two bytes at a time. Its third write fails: with an error of a kind, or by taking nothing.
#[derive(Drop)]
struct FaultyWriter {
    taken: Vec<u8>,
    fault: Option<ErrorKind>,
    writes: u64,
}

impl FaultyWriter {
    fn new(alloc: Global, fault: Option<ErrorKind>) -> FaultyWriter {
        FaultyWriter {
            taken: Vec::new(alloc),
            fault,
            writes: 0,
        }
    }
}

impl Write for FaultyWriter {
    fn write(&mut self, buf: &[u8]) -> io::Result<usize> {
        self.writes = self.writes.saturating_add(1);
        if self.writes != 3 {
            return self.taken.write(&buf[..buf.len().min(2)]);
        }
        match self.fault {
            Some(kind) => Err(io::Error::from(kind)),
            None => Ok(0),
        }
    }

    fn flush(&mut self) -> io::Result<()> {
        Ok(())
    }
}

// Fails where a write that failed was tried again.
fn stops_at_a_fault(alloc: Global, fault: Option<ErrorKind>) -> Result<(), Fail> {
    let mut stream = FaultyWriter::new(alloc, fault);
    let put = put_all(&mut StreamSink::of(&mut stream), b"0123456");
    if put.is_ok() || stream.writes != 3 || stream.taken.as_slice() != b"0123".as_slice() {
        return Err("a write after the one that failed".into());
    }
    Ok(())
}

#[test]
fn a_failed_write_is_not_tried_again(rt: HostRuntime) -> Result<(), Fail> {
    stops_at_a_fault(rt.alloc(), None)?;
    stops_at_a_fault(rt.alloc(), Some(ErrorKind::Interrupted))?;
    stops_at_a_fault(rt.alloc(), Some(ErrorKind::StorageFull))
}
