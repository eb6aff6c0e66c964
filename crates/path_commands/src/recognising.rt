//! The payloads of SENT, to be looked up.

ghost use Rattle.std.specs.Prelude.{◌≡◌, All, IfOk, List};
ghost use Rattle.message.specs.Capture.{capture};
ghost use Rattle.message.specs.Cut.{IsMessage};
ghost use Rattle.message.specs.declared.message.Message.{Message as AnyMessage};
ghost use Rattle.auditing.specs.PayloadSights.{KeepsPayloads};

use auditing::KnownPayloads;
use message::Messages;
use payload::By;
use std::alloc::{AllocError, Global};

/// The payloads of the messages of SENT, which have these bytes, as they are compared by these. `framed` says whether
/// RECEIVED is messages to its end.
pub(crate) fn known_payloads(
    alloc: Global,
    sent: &[u8],
    by: By,
    framed: bool,
) -> Result<KnownPayloads, AllocError>
    ensures { (messages : List AnyMessage) → All IsMessage messages → sent.now ≡ capture messages
        → IfOk result (KeepsPayloads framed by messages) }
{
    let mut known = KnownPayloads::new(alloc, by, framed);
    let mut left = Messages::new(sent);
    while let Ok(Some(message)) = left.next() {
        known.add(&message)?;
    }
    Ok(known)
}
