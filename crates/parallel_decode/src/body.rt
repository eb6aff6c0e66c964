//! Which messages a capture has, by its header.

ghost use Rattle.std.specs.Prelude.{ℕ, ◌≡◌, Bool, List, Option};
ghost use Rattle.message.specs.declared.range.HartRange.{HartRange as AnyRange};
ghost use Rattle.retire.specs.declared.event.Event.{Event as AnyEvent};
ghost use Rattle.rvclass.specs.Words.{Words};
ghost use Rattle.captures.specs.Decoded.{AreHartsDecoded, IsDecodedOf};
ghost use Rattle.captures.specs.declared.outcome.CaptureFault.{CaptureFault as AnyFault};
ghost use Rattle.parallel_decode.specs.Body.{end_of};

use captures::CaptureFault;
use message::{HEADER_SIZE, MessageFault, Messages};
use payload::Mode;

/// The messages of a capture, and what its header says of them.
#[derive(Drop)]
pub(crate) struct Body<'b> {
    /// How many harts there are.
    pub(crate) harts: u16,
    /// The mode that the header announces, if there is a header.
    pub(crate) announced: Option<Mode>,
    /// The messages' bytes. There are none where the header is cut short or bad.
    pub(crate) bytes: &'b [u8],
    /// Whether the header is cut short or bad.
    pub(crate) fault: Option<MessageFault>,
}

/// The messages of a capture, which has the harts below the count in its header, if it is of version 2, and else those
/// below `harts`.
///
/// What the messages decode to is what the capture does, with [`Body::fault_or`] for the fault.
pub(crate) fn body_of(harts: u16, bytes: &[u8]) -> Body<'_>
    ensures { (range : AnyRange) (words : Words) (lists : List (List AnyEvent)) (closed : List Bool)
        (stop : Option (ℕ × AnyFault))
        → AreHartsDecoded range words result.harts result.announced result.bytes.now lists closed stop
        → IsDecodedOf range words harts bytes.now lists closed (end_of result.fault stop) }
{
    let mut messages = Messages::new(bytes);
    match messages.header() {
        Ok(Some(header)) => Body {
            harts: header.harts,
            announced: Some(header.mode),
            bytes: &bytes[HEADER_SIZE..],
            fault: None,
        },
        Ok(None) => Body {
            harts,
            announced: None,
            bytes,
            fault: None,
        },
        Err(fault) => Body {
            harts,
            announced: None,
            bytes: &bytes[..0],
            fault: Some(fault),
        },
    }
}

impl Body<'_> {
    /// The fault of the capture, where this is the fault of its messages: a header that is cut short or bad comes first.
    pub(crate) fn fault_or(&self, fault: Option<(u64, CaptureFault)>) -> Option<(u64, CaptureFault)>
        ensures { result ≡ end_of self.now.fault fault }
    {
        match self.fault {
            Some(why) => Some((0, CaptureFault::Message(why))),
            None => fault,
        }
    }
}
