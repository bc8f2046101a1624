//! Writers as sinks.
use super::*;
use std::io::Write;

/// A writer that takes a byte a call, writes its calls down, a flush as `F`, and whose flush may fail.
#[derive(Drop)]
struct Slow<'a> {
    calls: &'a mut Vec<u8>,
    flushes: bool,
}

impl Write for Slow<'_> {
    fn write(&mut self, buf: &[u8]) -> io::Result<usize> {
        match buf.first() {
            Some(byte) => {
                self.calls.push(*byte)?;
                Ok(1)
            }
            None => Ok(0),
        }
    }

    fn flush(&mut self) -> io::Result<()> {
        self.calls.push(b'F')?;
        if self.flushes {
            Ok(())
        } else {
            Err(io::Error::new(io::ErrorKind::Other, "no room is left"))
        }
    }
}

/// Writes a piece of two bytes to a slow writer, and tells whether this fault came of it, or none.
fn writes_slowly(alloc: Global, calls: &mut Vec<u8>, flushes: bool, fault: &str) -> bool {
    let mut sink = StdSink::new(Slow { calls, flushes });
    let taken = sink.write(b"ab").is_ok();
    taken == flushes && is_text(alloc, sink.last_fault(), fault)
}

#[test]
fn a_piece_is_written_whole_and_flushed(rt: HostRuntime) {
    for (flushes, fault) in [(true, ""), (false, "standard output: no room is left")] {
        let mut calls = Vec::new(rt.alloc());
        assert!(rt; writes_slowly(rt.alloc(), &mut calls, flushes, fault));
        assert!(rt; calls.as_slice() == b"abF".as_slice());
    }
}
