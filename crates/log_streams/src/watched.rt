//! A file that a log is read from, and what it gave.

ghost use Rattle.std.specs.Prelude.{⊤, ◌≡◌, None, true};
ghost use Rattle.log_streams.specs.Gave.{First, Gave, IsGiven, Whole};

use crate::file_at::FileAt;
use crate::{FileFault, FileReader, Files};
use retire::{Source, SourceFault};
use std::marker::{Brand, PhantomData};

/// Stands for a file in a type. So what is read from a source of the type is what that file gave, whoever reads it.
pub(crate) trait Origin {
    /// What the file may give.
    ghost Gives: { Gave → Type 0 };
}

impl Origin for Brand {
    ghost Gives = { λ _. ⊤ };
}

/// A file as the source of a log. It notes whether the file has ended, and whether it failed, and tells the files how far
/// it is read.
#[derive(Drop)]
pub(crate) struct Watched<'w, O: Origin, F: Files> {
    at: FileAt<'w, F>,
    reader: F::Reader,
    ended: bool,
    failed: bool,
    origin: PhantomData<O>,
    ghost sound: { failed ≡ true → F.Reader.left reader ≡ None },
    ghost leads: { (gave : Gave) → F.Reader.MayGive reader gave → IsGiven O.Gives gave },
    ghost first: { IsGiven O.Gives (First (F.Reader.given reader)) },
    ghost whole: { ended ≡ true → IsGiven O.Gives (Whole (F.Reader.given reader)) },
}

impl<'w, O: Origin, F: Files> Watched<'w, O, F> {
    /// A file that was opened, as a source.
    pub(crate) fn new(at: FileAt<'w, F>, reader: F::Reader) -> Watched<'w, O, F>
        requires leads { (gave : Gave) → F.Reader.MayGive reader gave → IsGiven O.Gives gave }
        requires first { IsGiven O.Gives (First (F.Reader.given reader)) }
        ensures given { ⟦<Watched<'w, O, F> as Source>⟧.given result ≡ F.Reader.given reader }
        ensures left { ⟦<Watched<'w, O, F> as Source>⟧.left result ≡ F.Reader.left reader }
    {
        Watched {
            at,
            reader,
            ended: false,
            failed: false,
            origin: PhantomData,
        }
    }

    /// Whether the last call found the file at its end.
    pub(crate) fn has_ended(&self) -> bool
        ensures first { IsGiven O.Gives (First (⟦<Watched<'w, O, F> as Source>⟧.given self.now)) }
        ensures whole { result ≡ true → IsGiven O.Gives (Whole (⟦<Watched<'w, O, F> as Source>⟧.given self.now)) }
    {
        self.ended
    }

    /// Whether the file failed. A file whose bytes are known does not fail.
    pub(crate) fn has_failed(&self) -> bool
        ensures { result ≡ true → ⟦<Watched<'w, O, F> as Source>⟧.left self.now ≡ None }
    {
        self.failed
    }
}

impl<O: Origin, F: Files> Source for Watched<'_, O, F> {
    ghost given = { λ file. F.Reader.given file.reader };

    ghost left = { λ file. F.Reader.left file.reader };

    fn read(&mut self, buffer: &mut [u8]) -> Result<usize, SourceFault> {
        match self.reader.read(buffer) {
            Ok(count) => {
                self.ended = count == 0 && !buffer.is_empty();
                self.at.files.note_read(self.at.path, count);
                Ok(count)
            }
            Err(FileFault::Memory) => Err(SourceFault::Memory),
            Err(FileFault::CannotRead) => {
                self.failed = true;
                Err(SourceFault::Read)
            }
        }
    }
}
