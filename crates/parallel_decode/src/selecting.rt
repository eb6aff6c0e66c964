//! Which messages are looked at, and of which harts.

ghost use Rattle.std.specs.Prelude.{◌≡◌};
ghost use Rattle.message.specs.Range.{selects};

use message::HartRange;
use rvclass::ProgramOver;

/// What is decoded: the messages that bytes have of the harts in a range, in this program.
#[derive(Clone, Copy)]
pub struct Selection<'p, 'b> {
    /// The program that the harts ran.
    pub program: &'p ProgramOver<'p>,
    /// How many harts there are: those below this count. A capture with a header has as many as the header says.
    pub harts: u16,
    /// The harts that are looked at. Messages of all others are passed over, unjudged.
    pub range: HartRange,
    /// The bytes of a capture, or those of its messages.
    pub bytes: &'b [u8],
}

/// Whether the hart with this number, a place in a list of harts, is one of the harts in a range.
pub fn selects_hart(range: HartRange, hart: usize) -> bool
    ensures { result ≡ selects range hart }
{
    usize::from(range.first) <= hart && hart <= usize::from(range.last)
}
