//! A part of a text.

ghost use Rattle.output.specs.steps.Parts.{Takes};

use arrayvec::ArrayVec;
use std::cmp::min;
use std::fmt;

/// A part of a text: what follows its first bytes, as far as there is capacity.
#[derive(Drop)]
pub(crate) struct Part<const ROOM: usize> {
    /// How many more bytes of the text are passed over.
    pub(crate) passing: usize,
    /// The part.
    pub(crate) bytes: ArrayVec<u8, ROOM>,
}

impl<const ROOM: usize> Part<ROOM> {
    /// Passes over bytes and takes those after them, as far as there is capacity.
    #[inline(never)]
    fn take_some(&mut self, bytes: &[u8])
        ensures { Takes ROOM self.old.passing self.old.bytes.items bytes.now
            self.new.passing self.new.bytes.items }
    {
        let passed = min(self.passing, bytes.len());
        let taken = min(self.bytes.remaining_capacity(), bytes.len() - passed);
        self.passing -= passed;
        let part = &bytes[passed..passed + taken];
        match self.bytes.try_extend_from_slice(part) {
            Ok(()) => {}
            Err(_) => unreachable!(),
        }
    }
}

/// Bytes for which there is no capacity are dropped, so no write fails.
impl<const ROOM: usize> fmt::Write for Part<ROOM> {
    ghost write_str_gives = { λ old bytes new.
        Takes ROOM old.passing old.bytes.items bytes new.passing new.bytes.items };

    fn write_str(&mut self, text: &str) -> fmt::Result {
        let bytes = text.as_bytes();
        if self.passing > 0 || self.bytes.try_extend_from_slice(bytes).is_err() {
            self.take_some(bytes);
        }
        Ok(())
    }
}
