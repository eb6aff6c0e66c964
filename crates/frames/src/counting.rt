//! How many harts a capture has that may be damaged.

ghost use Rattle.std.specs.Prelude.{◌≡◌, None};
ghost use Rattle.frames.specs.Harts.{harts_counted, harts_in};
ghost use Rattle.frames.specs.Start.{spans_of};

use crate::Span;
use crate::start::spans_of;
use message::Header;

/// How many harts a capture has: as many as its header counts; without a header as many as are asked for; and where none
/// are, from hart 0 to the highest hart of a frame that is taken, hart 0 at least. No memory is taken.
pub fn harts_counted(asked: Option<u16>, header: Option<Header>, capture: &[u8]) -> u16
    ensures { result ≡ harts_counted asked header capture.now }
{
    match header {
        Some(header) => header.harts,
        None => match asked {
            Some(harts) => harts,
            None => harts_found(capture),
        },
    }
}

/// How many harts there are up to the highest one of a frame, where there is no header.
fn harts_found(capture: &[u8]) -> u16
    ensures { result ≡ harts_in (spans_of None capture.now) }
{
    let mut harts = 1;
    for span in spans_of(capture, None) {
        if let Span::Frame { message, .. } = span {
            harts = harts.max(message.hart + 1);
        }
    }
    harts
}
