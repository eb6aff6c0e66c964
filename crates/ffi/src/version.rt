//! The version of the library.

ghost use Rattle.ffi.specs.Handed.{IsHandedOut};
ghost use Rattle.ffi.specs.VersionText.{version_text};

use crate::handing::hand_out;

/// The version of the library, which is that of the program.
const VERSION: [u8; 5] = *b"1.0.0";

/// Writes the version of the library as text, as 5 letters and with no 0 after them. The header that belongs to it has
/// the same text.
///
/// The status is [`DONE`](crate::status::DONE), or [`TOO_SMALL`](crate::status::TOO_SMALL) where the buffer is too
/// small; then nothing is written to it. No memory is taken.
pub fn tracebench_version(buffer: &mut [u8], wanted: &mut u64) -> u32
    ensures { IsHandedOut version_text result wanted.new buffer.old buffer.new }
{
    hand_out(&VERSION, buffer, wanted)
}
