//! Where the bytes of a log come from.

ghost use Rattle.std.specs.Prelude.{◌≡◌, ◌≤◌, ℕ, List, [], Option, None, IfOk, length};
ghost use Rattle.std.specs.Io.KnownBytes.{ReadConsumes};
ghost use Rattle.retire.specs.Log.{IsReadOrMemory};
ghost use Rattle.retire.specs.ReaderSource.{given_by, left_by};
ghost use Rattle.retire.specs.Source.{GivesMore};

use crate::fault::LogFault;
use crate::given::Given;
use std::io::Read;

/// Why a source gave no bytes.
#[derive(Clone, Copy)]
pub enum SourceFault {
    /// What the bytes come from failed.
    Read,
    /// Allocation failed.
    Memory,
}

/// The fault of a log whose source failed.
pub(crate) fn fault_of(fault: SourceFault) -> LogFault
    ensures { IsReadOrMemory result }
{
    match fault {
        SourceFault::Read => LogFault::Read,
        SourceFault::Memory => LogFault::Memory,
    }
}

/// Gives the bytes of a log, some at a time.
pub trait Source {
    /// The bytes that the calls gave so far, one after the other.
    ghost given: { Self → List ℕ };

    /// The bytes that are left, where they are known.
    ghost left: { Self → Option (List ℕ) } = { λ _. None };

    /// Reads the next bytes into the front of a buffer, and returns how many they are; 0 means that there are none
    /// left, or that the buffer is empty.
    fn read(&mut self, buffer: &mut [u8]) -> Result<usize, SourceFault>
        ensures bound { IfOk result (λ count. count ≤ length buffer.new) }
        ensures given { GivesMore (given self.old) (given self.new) result buffer.new }
        ensures left { ReadConsumes (left self.old) (left self.new) result buffer.new };
}

/// Any reader as a source.
#[derive(Drop)]
pub struct ReaderSource<R> {
    reader: R,
    given: Given,
}

impl<R: Read> ReaderSource<R> {
    /// A reader as a source that gave no bytes yet.
    pub fn new(reader: R) -> ReaderSource<R>
        ensures given { given_by result ≡ [] }
        ensures left { left_by R.remaining result ≡ R.remaining reader }
    {
        ReaderSource {
            reader,
            given: Given::new(),
        }
    }
}

impl<R: Read> Source for ReaderSource<R> {
    ghost given = { given_by };

    ghost left = { left_by R.remaining };

    fn read(&mut self, buffer: &mut [u8]) -> Result<usize, SourceFault> {
        match self.reader.read(buffer) {
            Ok(count) => {
                self.given.put(&buffer[..count]);
                Ok(count)
            }
            Err(_) => Err(SourceFault::Read),
        }
    }
}
