//! SENT is read as far as it is looked at.

ghost use Rattle.std.specs.Prelude.{ℕ, ◌≡◌, ◌+◌, ◌<◌, List, length};
ghost use Rattle.auditing.specs.Fates.{is_numbered};
ghost use Rattle.message.specs.declared.message.Message.{Message as AnyMessage};
ghost use Rattle.live.specs.Course.{doubted_to};
ghost use Rattle.live.specs.Following.{Audited, IsAudited, Looks, Reads, WasAsked, looked_to};
ghost use Rattle.live.specs.Holds.{Holds};
ghost use Rattle.live.specs.Live.{State, is_beyond, is_outage, standing_now};
ghost use Rattle.live.specs.steps.Advancing.{IsFound};
ghost use Rattle.live.specs.steps.Looking.{IsNextSent, IsReadLast, ReadsOne};

use crate::fault::{LookFault, SourceFault};
use crate::source::SentSource;
use crate::window::Window;
use message::Message;
use std::alloc::Allocator;

/// The next message of SENT, `None` where SENT has ended. It is the next one of its hart.
pub(crate) fn next_sent<A: Allocator, S: SentSource>(
    window: &Window<A>,
    source: &mut S,
) -> Result<Option<Message>, LookFault>
    ensures { (all : Audited) (read : ℕ) (came : List AnyMessage) (front : ℕ) → IsAudited all
        → Reads all read came front window.now (S.left source.old)
        → IsNextSent all read window.now result (S.left source.new) }
{
    match source.next() {
        Ok(Some(message)) => match window.refusal(&message) {
            Some(why) => Err(LookFault::Sent(why)),
            None => Ok(Some(message)),
        },
        Ok(None) => Ok(None),
        Err(why) => Err(LookFault::Source(why)),
    }
}

/// Reads the next message of SENT, which there is a place for, and returns whether there was one.
fn read_one<A: Allocator, S: SentSource>(
    window: &mut Window<A>,
    source: &mut S,
) -> Result<bool, LookFault>
    ensures { (all : Audited) (read : ℕ) (came : List AnyMessage) (front : ℕ) → IsAudited all
        → Reads all read came front window.old (S.left source.old) → read < front + all.window
        → ReadsOne all read came front result window.new (S.left source.new) }
{
    match next_sent(&*window, source) {
        Ok(Some(message)) => match window.read(message) {
            Ok(()) => Ok(true),
            Err(why) => Err(LookFault::Sent(why)),
        },
        Ok(None) => Ok(false),
        Err(why) => Err(why),
    }
}

/// Reads SENT until where a message of this hart with this number is does not depend on what follows: until nothing more is
/// wanted ([`Window::wants`]), or SENT has ended. Takes no memory.
///
/// It is refused if the source has a fault, or if a message of it is not the next one of its hart. What was read before
/// stays read. No message is read that is not wanted.
pub fn look<A: Allocator, S: SentSource>(
    window: &mut Window<A>,
    source: &mut S,
    hart: u16,
    number: u64,
) -> Result<(), LookFault>
    ensures { (all : Audited) (read : ℕ) (came : List AnyMessage) (front : ℕ) → IsAudited all
        → Reads all read came front window.old (S.left source.old)
        → Looks all read came front hart number result window.new (S.left source.new) }
{
    for _ in 0..u64::MAX {
        if !window.wants(hart, number) {
            return Ok(());
        }
        match read_one(window, source) {
            Ok(true) => {}
            Ok(false) => return Ok(()),
            Err(why) => return Err(why),
        }
    }
    // No message wants so many.
    Err(LookFault::Source(SourceFault::Memory))
}

/// Whether a message is beyond the view. SENT is read as far as that asks for.
fn is_beyond<A: Allocator, S: SentSource>(
    window: &mut Window<A>,
    source: &mut S,
    message: &Message,
) -> Result<bool, LookFault>
    ensures { (all : Audited) (read asked : ℕ) (state : State) → IsAudited all
        → Reads all read state.came state.front window.old (S.left source.old)
        → WasAsked all asked read
        → IsFound all asked (looked_to all state.front message.now.hart message.now.number asked) state
        (is_beyond (standing_now all.window all.sent state message.now)) result window.new (S.left source.new) }
{
    match look(window, source, message.hart, message.number) {
        Ok(()) => Ok(window.find(message.hart, message.number).is_beyond()),
        Err(why) => Err(why),
    }
}

/// Whether the path was out between two messages of a hart.
pub(crate) fn is_outage<A: Allocator, S: SentSource>(
    window: &mut Window<A>,
    source: &mut S,
    first: &Message,
    second: &Message,
) -> Result<bool, LookFault>
    ensures { (all : Audited) (read asked : ℕ) (state : State) → IsAudited all
        → Reads all read state.came state.front window.old (S.left source.old)
        → WasAsked all asked read
        → IsFound all asked (doubted_to all state first.now second.now asked) state
        (is_outage all.window all.sent state first.now second.now) result window.new (S.left source.new) }
{
    match is_beyond(window, source, first) {
        Ok(true) => match is_beyond(window, source, second) {
            Ok(true) => Ok(window.is_near(first.number, second.number)),
            Ok(false) => Ok(false),
            Err(why) => Err(why),
        },
        Ok(false) => Ok(false),
        Err(why) => Err(why),
    }
}

/// Whether a message is of this hart and has this number.
fn is_numbered(message: &Message, hart: usize, number: u64) -> bool
    ensures { result ≡ is_numbered hart number message.now }
{
    usize::from(message.hart) == hart && message.number == number
}

/// Reads the next message of SENT, which there is a place for, and returns whether it is the one of this hart with this
/// number.
pub(crate) fn read_placed<A: Allocator>(
    window: &mut Window<A>,
    message: Message,
    hart: usize,
    number: u64,
) -> Result<bool, LookFault>
    ensures read { (sent came : List AnyMessage) (front : ℕ) → Holds sent came front window.old
        → IsReadLast sent came front message hart number (length window.old.harts) window.old.window result window.new }
    ensures window { window.new.window ≡ window.old.window }
    ensures harts { length window.new.harts ≡ length window.old.harts }
    ensures by { window.new.by ≡ window.old.by }
{
    let is_last = is_numbered(&message, hart, number);
    match window.read(message) {
        Ok(()) => Ok(is_last),
        Err(why) => Err(LookFault::Sent(why)),
    }
}
