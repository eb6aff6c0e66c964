//! How a capture begins that may be damaged.

ghost use Rattle.std.specs.Prelude.{◌≡◌};
ghost use Rattle.frames.specs.Start.{IsStart, first_place, known_harts, spans_of};

use crate::Spans;
use message::{HEADER_SIZE, Header, MOST_HARTS, MessageFault, Messages};

/// How a capture begins. Where it begins with no valid header, its messages may still be looked for from its first byte
/// on.
#[derive(Clone, Copy)]
pub struct CaptureStart {
    /// The header, where a valid one begins the capture.
    pub header: Option<Header>,
    /// Why there is none, where the capture begins as one of version 2 does: its header is cut short
    /// ([`MessageFault::Short`]) or bad ([`MessageFault::BadHeader`]).
    pub fault: Option<MessageFault>,
}

/// How a capture begins. No memory is taken.
pub fn start_of(capture: &[u8]) -> CaptureStart
    ensures { IsStart capture.now result.header result.fault }
{
    let mut messages = Messages::new(capture);
    match messages.header() {
        Ok(header) => CaptureStart {
            header,
            fault: None,
        },
        Err(fault) => CaptureStart {
            header: None,
            fault: Some(fault),
        },
    }
}

/// The frames of a capture that are taken, and the longest runs of bytes between them. With a header they are looked for
/// after it, and the harts below its count are known; without one from the first byte on, and the harts below
/// [`MOST_HARTS`] are. No memory is taken.
pub fn spans_of(capture: &[u8], header: Option<Header>) -> Spans<'_>
    ensures { result ≡ spans_of header capture.now }
{
    Spans::new(capture, first_place(header), known_harts(header))
}

/// The harts below this are known: those below a header's count, and without a header those below [`MOST_HARTS`]. No
/// memory is taken.
pub fn known_harts(header: Option<Header>) -> u16
    ensures { result ≡ known_harts header }
{
    match header {
        Some(header) => header.harts,
        None => MOST_HARTS,
    }
}

/// The offset from which on messages are looked for: after the header, or that of the first byte. No memory is taken.
pub fn first_place(header: Option<Header>) -> usize
    ensures { result ≡ first_place header }
{
    match header {
        Some(_) => HEADER_SIZE,
        None => 0,
    }
}
