//! Text of limited length.

ghost use Rattle.std.specs.Prelude.{Some};

use std::io;
use std::io::{ErrorKind, Write};

/// A writer that holds what it takes. A write for which it has no capacity fails with [`ErrorKind::StorageFull`], so it
/// never allocates.
#[derive(Drop)]
pub(crate) struct Text {
    /// The bytes that it took.
    pub(crate) held: Vec<u8>,
}

impl Write for Text {
    ghost contents = { λ text. Some text.held.items };

    fn write(&mut self, buf: &[u8]) -> io::Result<usize> {
        if self.held.capacity() - self.held.len() < buf.len() {
            return Err(io::Error::from(ErrorKind::StorageFull));
        }
        self.held.extend_from_slice(buf)?;
        Ok(buf.len())
    }

    fn flush(&mut self) -> io::Result<()> {
        Ok(())
    }
}
