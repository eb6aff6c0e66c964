//! Outputs that fail.

use std::alloc::Global;
use std::io;
use std::io::{ErrorKind, Write};

/// A writer that takes a byte at each call, and fails with an error of this kind at one call, which may be a flush.
#[derive(Drop)]
pub(crate) struct FailsAt {
    kind: ErrorKind,
    call: usize,
    calls: usize,
    pub(crate) bytes: Vec<u8>,
}

impl FailsAt {
    /// A writer that fails with an error of this kind at this one of its calls, counted from 1.
    pub(crate) fn new(alloc: Global, kind: ErrorKind, call: usize) -> FailsAt {
        FailsAt {
            kind,
            call,
            calls: 0,
            bytes: Vec::new(alloc),
        }
    }

    /// Counts a call, and fails at the one that has to.
    fn step(&mut self) -> io::Result<()> {
        self.calls = self.calls.saturating_add(1);
        if self.calls == self.call {
            return Err(io::Error::from(self.kind));
        }
        Ok(())
    }
}

impl Write for FailsAt {
    fn write(&mut self, bytes: &[u8]) -> io::Result<usize> {
        self.step()?;
        match bytes.first() {
            Some(byte) => {
                self.bytes.push(*byte)?;
                Ok(1)
            }
            None => Ok(0),
        }
    }

    fn flush(&mut self) -> io::Result<()> {
        self.step()
    }
}
