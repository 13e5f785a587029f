//! A writer that fails: a sink reports a flush that fails.

use asm_io::{Sink, WriteSink};
use std::io;
use std::io::{ErrorKind, Write};
use std::test::Fail;

/// A writer whose writes take all and whose flushes fail.
#[derive(Drop)]
struct Stuck;

impl Write for Stuck {
    fn write(&mut self, buf: &[u8]) -> io::Result<usize> {
        Ok(buf.len())
    }

    fn flush(&mut self) -> io::Result<()> {
        Err(io::Error::from(ErrorKind::Other))
    }
}

#[test]
fn a_flush_that_fails_is_reported(rt: HostRuntime) -> Result<(), Fail> {
    let mut sink = WriteSink::new(Stuck);
    assert!(rt; sink.write(b"ab") == Ok(2));
    assert!(rt; sink.flush().is_err());
    assert!(rt; sink.flush().is_err());
    Ok(())
}
