//! Where the messages of SENT come from.

ghost use Rattle.live.specs.Following.{IsNext, Left};

use crate::fault::SourceFault;
use message::Message;

/// Gives the messages of SENT, one after the other.
pub trait SentSource {
    /// The messages that are left, if that is known. After them SENT ends, or has the fault that is said there.
    ghost left: { Self → Left };

    /// The next message, `None` where SENT has ended. If it fails, the same messages are left, or that is not known.
    fn next(&mut self) -> Result<Option<Message>, SourceFault>
        ensures { IsNext result (left self.old) (left self.new) };
}
