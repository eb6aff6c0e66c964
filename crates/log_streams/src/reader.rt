//! A file that is open.

ghost use Rattle.std.specs.Prelude.{⊤, ◌≡◌, ◌⊎◌, ◌≤◌, ℕ, List, Option, None, IfErr, IfOk, length};
ghost use Rattle.std.specs.Io.KnownBytes.{ReadConsumes};
ghost use Rattle.log_streams.specs.Gave.{AreGiven, Gave};
ghost use Rattle.retire.specs.Source.{GivesMore};

use crate::fault::FileFault;

/// A file that is open, and gives its bytes from first to last, some at a time.
pub trait FileReader {
    /// The bytes that the calls gave so far, one after the other.
    ghost given: { Self → List ℕ };

    /// The bytes that are left, where they are known.
    ghost left: { Self → Option (List ℕ) } = { λ _. None };

    /// What the calls may give, taken together. Code that knows no more of the type than this trait learns from `read`
    /// alone that something may be given.
    ghost MayGive: { Self → Gave → Type 0 } = { λ _ _. ⊤ };

    /// Reads the next bytes into the front of a buffer, and returns how many they are; 0 means that the file has ended,
    /// or that the buffer has no room.
    fn read(&mut self, buffer: &mut [u8]) -> Result<usize, FileFault>
        ensures bound { IfOk result (λ count. count ≤ length buffer.new) }
        ensures given { GivesMore (given self.old) (given self.new) result buffer.new }
        ensures left { ReadConsumes (left self.old) (left self.new) result buffer.new }
        ensures lacked { IfErr result (λ why. (why ≡ FileFault.Memory) ⊎ (left self.old ≡ None)) }
        ensures unknown { left self.old ≡ None → left self.new ≡ None }
        ensures gave { IfOk result (AreGiven (MayGive self.new) (given self.new) (length buffer.new)) }
        ensures narrows { (gave : Gave) → MayGive self.new gave → MayGive self.old gave };
}
