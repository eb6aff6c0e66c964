//! The reader.

use std::io;
use std::io::{ErrorKind, Read};

/// A reader of some bytes that fails at one call.
///
/// Each call before it and after it reads as a slice does, but never more than `most` bytes.
#[derive(Drop)]
pub struct FailingReader<'a> {
    /// The bytes that are not read yet.
    pub rest: &'a [u8],
    /// How many bytes a call reads at most.
    pub most: usize,
    /// How many calls come before the one that fails.
    pub calls: usize,
    /// The kind of the error with which it fails.
    pub kind: ErrorKind,
}

impl Read for FailingReader<'_> {
    fn read(&mut self, buf: &mut [u8]) -> io::Result<usize> {
        if self.calls == 0 {
            self.calls = usize::MAX;
            return Err(io::Error::from(self.kind));
        }
        self.calls -= 1;
        let most = buf.len().min(self.most);
        (&mut self.rest).read(&mut buf[..most])
    }
}
