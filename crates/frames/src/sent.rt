//! What is known of a message.

ghost use Rattle.std.specs.Prelude.{◌≡◌, IsTrue};
ghost use Rattle.frames.specs.GuidedTaken.{KnowsNone};

use message::Message;

/// What the sender knows of a message.
#[derive(Clone, Copy, PartialEq, Eq)]
pub enum Sight {
    /// Its hart and number were sent, with this payload. Where numbers are not looked at, every message counts as this if
    /// all that came is messages to its end.
    Same,
    /// Its hart and number were sent, with another payload.
    Numbered,
    /// Its hart and number were not sent; or numbers are not looked at, and no message of its hart was sent with this
    /// payload.
    Strange,
    /// Numbers are not looked at, and a message of its hart was sent with this payload.
    Known,
}

/// What was sent, as far as a message is recognised.
pub trait Sent {
    ghost use Rattle.message.specs.declared.message.Message.{Message};
    ghost use Rattle.frames.specs.declared.sent.Sight.{Sight};

    ghost sees: { Self → Message → Sight };

    /// What is known of a message. Takes no memory.
    fn sight(&self, message: &Message) -> Sight
        ensures { result ≡ sees self.now message.now };

    /// Whether no message at all is [`Sight::Known`]. Then fewer messages are asked for. Takes no memory.
    fn knows_none(&self) -> bool
        ensures { IsTrue result → KnowsNone (sees self.now) };
}
