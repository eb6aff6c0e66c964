//! What is seen of a message before it is taken.

ghost use Rattle.std.specs.Prelude.{◌≡◌, ◌≢◌, ℕ, IfErr, List, Some, slice_get};
ghost use Rattle.message.specs.declared.message.Message.{Message as AnyMessage};
ghost use Rattle.live.specs.Following.{Audited, IsAudited, Reads};
ghost use Rattle.live.specs.Holds.{Holds};
ghost use Rattle.frames.specs.Frame.{message_in};
ghost use Rattle.frames.specs.GuidedTaken.{is_counted, is_same};
ghost use Rattle.live.specs.Received.{is_seen_beyond, seen_at, seen_of, sight_of};
ghost use Rattle.live.specs.View.{in_view, standing_of};
ghost use Rattle.live.specs.steps.Receiving.{Settles, seen_slot};

use crate::fault::LookFault;
use crate::looking::look;
use crate::source::SentSource;
use crate::standing::Standing;
use crate::window::Window;
use message::Message;
use payload::same;
use std::alloc::Allocator;

/// What is seen of a message of RECEIVED before it is taken, by what is in view of SENT.
#[derive(Clone, Copy)]
pub(crate) enum Seen {
    /// It is in view, with this payload.
    True,
    /// It is in view, with another payload.
    Numbered,
    /// It is beyond the view.
    Beyond,
    /// It is below the view, or its hart is not known.
    Neither,
}

impl Seen {
    /// Whether the message is true.
    pub(crate) fn is_true(self) -> bool
        ensures { result ≡ is_same (sight_of self) }
    {
        match self {
            Seen::True => true,
            _ => false,
        }
    }

    /// Whether the message is in view.
    pub(crate) fn is_in_view(self) -> bool
        ensures { result ≡ is_counted (sight_of self) }
    {
        match self {
            Seen::True => true,
            Seen::Numbered => true,
            _ => false,
        }
    }

    /// Whether the message is beyond the view.
    pub(crate) fn is_beyond(self) -> bool
        ensures { result ≡ is_seen_beyond self }
    {
        match self {
            Seen::Beyond => true,
            _ => false,
        }
    }
}

/// Why it is not known yet whether a message is taken.
#[derive(Clone, Copy)]
pub(crate) enum Pause {
    /// More bytes of RECEIVED are looked at than are held.
    Bytes,
    /// SENT is not read on.
    Sent(LookFault),
}

/// What is seen of a message of a hart that is known, by what was read of SENT.
fn seen_now<A: Allocator>(window: &Window<A>, message: &Message) -> Seen
    ensures { (sent came : List AnyMessage) (front : ℕ) → Holds sent came front window.now
        → result ≡ seen_at window.now.by (in_view window.now.window sent front) message.now
        (standing_of window.now.window sent front message.now.hart message.now.number) }
{
    match window.find(message.hart, message.number) {
        Standing::Below => Seen::Neither,
        Standing::Beyond => Seen::Beyond,
        Standing::At(place) => seen_beside(window, place, message),
    }
}

/// What is seen of a message that is in view at this place.
fn seen_beside<A: Allocator>(window: &Window<A>, place: usize, message: &Message) -> Seen
    ensures { result ≡ seen_slot window.now.by message.now (slice_get window.now.slots place) }
{
    let Some(slot) = window.slots().get(place) else {
        return Seen::Neither;
    };
    if same(
        slot.message.payload.bytes(),
        message.payload.bytes(),
        window.by(),
    ) {
        Seen::True
    } else {
        Seen::Numbered
    }
}

/// What is seen of a message. SENT is read as far as that asks for.
pub(crate) fn see<A: Allocator, S: SentSource>(
    window: &mut Window<A>,
    source: &mut S,
    message: &Message,
) -> Result<Seen, Pause>
    ensures settles { (all : Audited) (came : List AnyMessage) (front first : ℕ) (bytes : List ℕ) → IsAudited all
        → Reads all first came front window.old (S.left source.old) → Some message.now ≡ message_in bytes
        → Settles all came front first bytes 1
        (λ seen. seen ≡ seen_of all.by all.harts all.window all.sent front message.now) result window.new
        (S.left source.new) }
    ensures never_bytes { IfErr result (λ why. why ≢ Pause.Bytes) }
{
    if !window.is_known(message.hart) {
        return Ok(Seen::Neither);
    }
    match look(window, source, message.hart, message.number) {
        Ok(()) => Ok(seen_now(&*window, message)),
        Err(why) => Err(Pause::Sent(why)),
    }
}
