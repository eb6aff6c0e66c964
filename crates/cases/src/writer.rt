//! The writer.

ghost use Rattle.std.specs.Prelude.{Some};

use std::io;
use std::io::{ErrorKind, Write};

/// A writer that keeps what it takes, and fails at one call with [`ErrorKind::StorageFull`].
///
/// Each call before it and after it takes at most `most` bytes. A call that fails takes none.
#[derive(Drop)]
pub struct FailingWriter {
    /// The bytes that it took.
    pub held: Vec<u8>,
    /// How many bytes a call takes at most.
    pub most: usize,
    /// How many calls come before the one that fails.
    pub calls: usize,
}

impl Write for FailingWriter {
    ghost contents = { λ writer. Some writer.held.items };

    fn write(&mut self, buf: &[u8]) -> io::Result<usize> {
        if self.calls == 0 {
            self.calls = usize::MAX;
            return Err(io::Error::from(ErrorKind::StorageFull));
        }
        self.calls -= 1;
        let most = buf.len().min(self.most);
        self.held.extend_from_slice(&buf[..most])?;
        Ok(most)
    }

    fn flush(&mut self) -> io::Result<()> {
        Ok(())
    }
}
