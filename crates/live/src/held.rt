//! What is held of SENT.

ghost use Rattle.std.specs.Prelude.{◌≡◌};
ghost use Rattle.auditing.specs.Fates.{is_numbered};

use message::Message;

/// A message of SENT, and whether it came.
#[derive(Drop)]
pub struct SentMessage {
    /// The message.
    pub message: Message,
    /// Whether a true message of RECEIVED with its hart and its number was found in view.
    pub came: bool,
}

impl SentMessage {
    /// Whether the message is of this hart and has this number.
    pub(crate) fn is_numbered(&self, hart: u16, number: u64) -> bool
        ensures { result ≡ is_numbered hart number self.now.message }
    {
        self.message.hart == hart && self.message.number == number
    }
}
