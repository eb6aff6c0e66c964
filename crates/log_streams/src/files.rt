//! Where files come from.

ghost use Rattle.std.specs.Prelude.{⊤, ◌≡◌, ◌⊎◌, List, ℕ, IfErr, IfOk};
ghost use Rattle.log_streams.specs.Gave.{Gave, GivesFrom};
ghost use Rattle.log_streams.specs.Known.{IsOpened, Known, MayBegin, MayLack, Unknown};

use crate::fault::FileFault;
use crate::reader::FileReader;

/// A place that files are read from.
pub trait Files {
    /// What is known of the file at each path. Of files in memory the bytes are known, of the machine's files nothing.
    ghost content: { Self → List ℕ → Known } = { λ _ _. Unknown };

    /// What the calls that read the file at each path may give. Code that knows no more of the type than this trait learns
    /// from those calls alone that something may be given, so that it cannot make up what a file gave, also where nothing
    /// is known of the file.
    ghost Gives: { Self → List ℕ → Gave → Type 0 } = { λ _ _ _. ⊤ };

    /// A file that is open.
    type Reader: FileReader + Drop;

    /// The bytes of the file at this path: all that it has, or the first ones if it has more than `most`. No more than
    /// those are read.
    fn read(&mut self, path: &str, most: Option<usize>) -> Result<Vec<u8>, FileFault>
        ensures held { IfOk result (λ bytes. MayBegin most (content self.old path.now) bytes.items) }
        ensures lacked { IfErr result (λ why. (why ≡ FileFault.Memory) ⊎ MayLack (content self.old path.now)) }
        ensures kept { content self.new ≡ content self.old };

    /// Opens the file at this path. No byte of it is read yet.
    fn open_file(&self, path: &str) -> Result<Self::Reader, FileFault>
        ensures opened { IfOk result (λ reader. IsOpened (content self.now path.now)
            (Self.Reader.given reader) (Self.Reader.left reader)) }
        ensures gives { IfOk result (λ reader. GivesFrom (Self.Reader.MayGive reader) (Gives self.now path.now)) }
        ensures lacked { IfErr result (λ why. (why ≡ FileFault.Memory) ⊎ MayLack (content self.now path.now)) };

    /// Whether the file at this path is a regular file, which can be opened at any time, as often as one likes and
    /// beside others. A pipe, a device, or a path where there is no file is none.
    fn is_regular(&self, path: &str) -> bool {
        let _ = path;
        true
    }

    /// Begins to show how much of the files at these paths is read, where the files can show that. Files that cannot do
    /// nothing.
    fn begin_progress(&self, paths: &[&str]) {
        let _ = paths;
    }

    /// Is told that a call on the open file at this path gave so many bytes; 0 says that the file has ended. Files that
    /// show nothing do nothing.
    fn note_read(&self, path: &str, count: usize) {
        let _ = path;
        let _ = count;
    }

    /// Begins to show how many of so many messages are worked through, where the files can show that. Files that cannot
    /// do nothing.
    fn begin_messages(&self, total: u64) {
        let _ = total;
    }

    /// Is told that so many messages more are worked through, by one thread at a time. Files that show nothing do
    /// nothing.
    fn note_messages(&self, count: u64) {
        let _ = count;
    }

    /// Ends what [`Files::begin_progress`] or [`Files::begin_messages`] began, and takes away what was shown. Nothing
    /// reads the files or notes messages meanwhile. Files that show nothing do nothing.
    fn end_progress(&self) {}
}
