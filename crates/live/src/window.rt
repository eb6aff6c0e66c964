//! What is held of SENT.

ghost use Rattle.std.specs.Prelude.{◌≡◌, ◌+◌, ◌-◌, ◌*◌, ◌<◌, ◌≤◌, ◌++◌, ℕ, IfErr, IfNone, IfOk, IfSome, List, [], ◌∷◌};
ghost use Rattle.std.specs.Prelude.{OnErr, OnOk, None, false, not, true};
ghost use Rattle.std.specs.Prelude.{length, min, nat_lt, option_map, slice_get};
ghost use Rattle.std.specs.VecDeque.{deque_capacity};
ghost use Rattle.message.specs.declared.message.Message.{Message as AnyMessage};
ghost use Rattle.auditing.specs.Sent.{AreInTurn};
ghost use Rattle.auditing.specs.SentPayload.{payload_sent};
ghost use Rattle.live.specs.Compared.{changed_from};
ghost use Rattle.live.specs.Holding.{Holding};
ghost use Rattle.live.specs.Holds.{Holds, IsReadFault, IsWithin, came_by, is_wanted, judged_as, judged_by};
ghost use Rattle.live.specs.Live.{are_near, last_held};
ghost use Rattle.live.specs.View.{given_up, standing_of};
ghost use Rattle.live.specs.steps.Judging.{found_by, mark_at, taken_by};
ghost use Rattle.live.specs.steps.Reading.{read_by, read_in, refusal_by, wants_in};
ghost use Rattle.live.specs.steps.Passing.{passed, passes_by};
ghost use Rattle.live.specs.steps.Searching.{is_at};
ghost use Rattle.live.specs.steps.Waiting.{numbering};

use crate::fault::ReadFault;
use crate::held::SentMessage;
use crate::judged::Judged;
use crate::numbers::{Numbers, count_read, count_true, give_up, new_finding, refusal};
use crate::places::Places;
use crate::slots::{mark, position, set_came};
use crate::standing::Standing;
use auditing::{By, Fate, Finding};
use message::Message;
use std::alloc::{AllocError, Allocator, Global};
use std::collections::VecDeque;
use std::marker::Model;

/// The greatest window: so many messages before the front, and so many after it.
pub const MOST_WINDOW: u32 = 16_777_216;

/// What is held of SENT: the messages in view, whether each came, and of each hart how many numbers were read and how many
/// are given up.
#[derive(Drop)]
pub struct Window<A: Allocator = Global> {
    /// By what payloads are compared.
    by: By,
    /// How many messages may be in view before the front, and how many after it.
    window: usize,
    /// How many messages in view are up to the front.
    near: usize,
    /// The messages in view.
    slots: VecDeque<SentMessage, A>,
    /// The numbers of each hart.
    harts: Vec<Numbers, A>,
    /// Where a message is looked for first.
    places: Places<A>,
}

impl<A: Allocator> Model for Window<A> {
    ghost Value = { Holding };

    ghost view = { λ w. record {
      by = w.by;
      window = w.window;
      near = w.near;
      slots = w.slots.items;
      harts = w.harts.items;
    } };

    ghost invariant = { λ w. (w.window ≤ 16777216) × (w.near ≤ w.window + 1) × (w.near ≤ length w.slots.items)
        × (length w.slots.items ≤ w.near + w.window) × (2 * w.window + 1 ≤ deque_capacity w.slots) };
}

impl<A: Allocator + Copy> Window<A> {
    /// What is held before the first message of SENT is read, where this many messages may be in view before the front and
    /// after it, where there are so many harts, and where payloads are compared by these. More than [`MOST_WINDOW`] are as
    /// many as that.
    ///
    /// Memory is taken once: at most 64 bytes for each message that may be in view, and 56 for each hart. No other call takes any.
    pub fn new(alloc: A, window: u32, harts: u16, by: By) -> Result<Window<A>, AllocError>
        ensures window { IfOk result (λ own. own.window ≡ min window MOST_WINDOW) }
        ensures harts { IfOk result (λ own. length own.harts ≡ harts) }
        ensures by { IfOk result (λ own. own.by ≡ by) }
        ensures holds { IfOk result (λ own. Holds [] [] 0 own) }
    {
        let window = window.min(MOST_WINDOW) as usize;
        Ok(Window {
            by,
            window,
            near: 0,
            slots: VecDeque::with_capacity(alloc, 2 * window + 1)?,
            harts: vec![in alloc; Numbers::NONE; usize::from(harts)]?,
            places: Places::new(alloc, 2 * window + 1, harts)?,
        })
    }
}

impl<A: Allocator> Window<A> {
    /// How many messages are held: at most a window before the front, the one that is the front, and a window after it.
    pub fn held(&self) -> usize
        ensures held { result ≡ length self.now.slots }
        ensures bound { length self.now.slots ≤ 2 * self.now.window + 1 }
    {
        let _ = &self.window;
        self.slots.len()
    }

    /// Whether a hart is below their count.
    pub(crate) fn is_known(&self, hart: u16) -> bool
        ensures { result ≡ nat_lt hart (length self.now.harts) }
    {
        usize::from(hart) < self.harts.len()
    }

    /// Where a number of a hart is, by what was read of SENT.
    ///
    /// It takes as many steps as there are numbers of the hart between this one and the one that was judged before it.
    pub fn find(&self, hart: u16, number: u64) -> Standing
        ensures standing { (sent came : List AnyMessage) (front : ℕ) → Holds sent came front self.now
            → result ≡ standing_of self.now.window sent front hart number }
        ensures within { IsWithin (length self.now.slots) result }
    {
        let Some(own) = self.numbers(hart) else {
            return Standing::Beyond;
        };
        if number < own.gone {
            return Standing::Below;
        }
        if number >= own.read {
            return Standing::Beyond;
        }
        match self.position(hart, number) {
            Some(place) => Standing::At(place),
            None => Standing::Beyond,
        }
    }

    /// The numbers of a hart, if it is known.
    fn numbers(&self, hart: u16) -> Option<Numbers>
        ensures { result ≡ slice_get self.now.harts hart }
    {
        self.harts.get(usize::from(hart)).copied()
    }

    /// The place of a message of this hart and this number in view, if there is one.
    fn position(&self, hart: u16, number: u64) -> Option<usize>
        ensures found { IfSome result (λ place. is_at self.now.slots hart number place ≡ true) }
        ensures none { IfNone result ((place : ℕ) → is_at self.now.slots hart number place ≡ false) }
    {
        let near = self.places.guess(hart, number).min(self.slots.len());
        position(&self.slots, near, hart, number)
    }

    /// Whether more of SENT has to be read before a message with this hart and this number is looked up. While this is
    /// true, SENT may have the message in view and not read yet. Once it is false, nothing that follows in SENT changes
    /// where it is.
    pub fn wants(&self, hart: u16, number: u64) -> bool
        ensures wanted { (sent came : List AnyMessage) (front : ℕ) → Holds sent came front self.now
            → result ≡ is_wanted (length self.now.harts) self.now.window sent front hart number }
        ensures few { self.now.window ≤ 16777216 }
        ensures settled { (sent came more : List AnyMessage) (front : ℕ) → Holds sent came front self.now
            → AreInTurn (length self.now.harts) [] (sent ++ more) → result ≡ false
            → standing_of self.now.window (sent ++ more) front hart number
            ≡ standing_of self.now.window sent front hart number }
    {
        let _ = &self.window;
        self.wants_by(hart, number)
    }

    /// As [`Window::wants`], by what is held.
    fn wants_by(&self, hart: u16, number: u64) -> bool
        ensures { result ≡ wants_in self.now hart number }
    {
        let left = (self.near + self.window).saturating_sub(self.slots.len());
        match self.harts.get(usize::from(hart)) {
            Some(own) => number >= own.read && number - own.read < left as u64,
            None => false,
        }
    }

    /// Why the next message of SENT may not be this one, if there is a place for it.
    pub(crate) fn refusal(&self, message: &Message) -> Option<ReadFault>
        ensures { result ≡ refusal_by (slice_get self.now.harts message.now.hart) message.now.number }
    {
        refusal(self.harts.as_slice(), message.hart, message.number)
    }

    /// The hart and the number of the message of SENT after the front, if it was read.
    pub(crate) fn next(&self) -> Option<(u16, u64)>
        ensures { result ≡ numbering (slice_get self.now.slots self.now.near) }
    {
        match self.slots.get(self.near) {
            Some(slot) => Some((slot.message.hart, slot.message.number)),
            None => None,
        }
    }

    /// Whether there is no place for one message more.
    pub(crate) fn is_full(&self) -> bool
        ensures { result ≡ not (nat_lt (length self.now.slots) (self.now.near + self.now.window)) }
    {
        self.slots.len() >= self.near + self.window
    }

    /// How many messages after the front were read.
    pub(crate) fn ahead(&self) -> usize
        ensures { result ≡ length self.now.slots - self.now.near }
    {
        self.slots.len().saturating_sub(self.near)
    }

    /// Whether two numbers differ, and by a window at most.
    pub(crate) fn is_near(&self, number: u64, other: u64) -> bool
        ensures { result ≡ are_near self.now.window number other }
    {
        number != other && number.abs_diff(other) <= self.window as u64
    }

    /// By what payloads are compared.
    pub(crate) fn by(&self) -> By
        ensures { result ≡ self.now.by }
    {
        self.by
    }

    /// The messages that are held.
    pub(crate) fn slots(&self) -> &VecDeque<SentMessage, A>
        ensures { result.now.items ≡ self.now.slots }
    {
        &self.slots
    }

    /// Reads the next message of SENT. Takes no memory.
    ///
    /// It is refused if there is no place for it in view, if it is not the next one of its hart, or if its number is
    /// 2^64 - 1. Then nothing changes. For a message that is wanted ([`Window::wants`]) there is a place.
    pub fn read(&mut self, message: Message) -> Result<(), ReadFault>
        ensures read { (sent came : List AnyMessage) (front : ℕ) → Holds sent came front self.old
            → OnOk result (Holds (sent ++ message ∷ []) came front self.new) }
        ensures refused { (sent came : List AnyMessage) (front : ℕ) → Holds sent came front self.old
            → IfErr result (IsReadFault (length self.old.harts) self.old.window sent front message) }
        ensures kept { OnErr result (self.new ≡ self.old) }
        ensures window { self.new.window ≡ self.old.window }
        ensures harts { length self.new.harts ≡ length self.old.harts }
        ensures by { self.new.by ≡ self.old.by }
    {
        self.add(message)
    }

    /// As [`Window::read`], by what is held.
    fn add(&mut self, message: Message) -> Result<(), ReadFault>
        ensures value { result ≡ read_by self.old message }
        ensures read { OnOk result (self.new ≡ read_in self.old message) }
        ensures kept { OnErr result (self.new ≡ self.old) }
    {
        if self.slots.len() >= self.near + self.window {
            return Err(ReadFault::Full);
        }
        if let Some(why) = refusal(self.harts.as_slice(), message.hart, message.number) {
            return Err(why);
        }
        count_read(&mut self.harts, message.hart, message.number);
        self.places.add(message.hart, message.number);
        self.slots.push_back_reserved(SentMessage {
            message,
            came: false,
        });
        Ok(())
    }

    /// Looks up a message of RECEIVED, and takes it if it is in view. The front stays. Takes no memory.
    ///
    /// A message of a hart that is not below the count is `Undecided`: the caller reports it as a stranger.
    pub fn judge(&mut self, message: &Message) -> Judged
        ensures judged { (sent came : List AnyMessage) (front : ℕ) → Holds sent came front self.old
            → result ≡ judged_by self.old.by self.old.window sent came front message.now
            (standing_of self.old.window sent front message.now.hart message.now.number) }
        ensures taken { (sent came : List AnyMessage) (front : ℕ) → Holds sent came front self.old
            → Holds sent (came_by came message.now
            (standing_of self.old.window sent front message.now.hart message.now.number)) front self.new }
        ensures window { self.new.window ≡ self.old.window }
        ensures harts { length self.new.harts ≡ length self.old.harts }
        ensures by { self.new.by ≡ self.old.by }
    {
        match self.find(message.hart, message.number) {
            Standing::Below => Judged::TooLate,
            Standing::Beyond => Judged::Undecided,
            Standing::At(place) => {
                let ahead = self.distance(place);
                judged_as(ahead, self.take(place, message))
            }
        }
    }

    /// The payload that SENT has with the hart and the number of a message, if that is changed.
    pub(crate) fn changed_from(&self, message: &Message, finding: Finding) -> Option<&[u8]>
        ensures { (sent came : List AnyMessage) (front place : ℕ) → Holds sent came front self.now
            → standing_of self.now.window sent front message.now.hart message.now.number ≡ Standing.At place
            → option_map (λ payload. payload.now) result ≡ changed_from sent message.now finding }
    {
        match finding {
            Finding::Changed => self.payload(message.hart, message.number),
            _ => None,
        }
    }

    /// The payload of a message of this hart and this number in view, if there is one.
    fn payload(&self, hart: u16, number: u64) -> Option<&[u8]>
        ensures { (sent came : List AnyMessage) (front place : ℕ) → Holds sent came front self.now
            → standing_of self.now.window sent front hart number ≡ Standing.At place
            → option_map (λ payload. payload.now) result ≡ payload_sent sent hart number }
    {
        match self.position(hart, number) {
            Some(place) => match self.slots.get(place) {
                Some(slot) => Some(slot.message.payload.bytes()),
                None => None,
            },
            None => None,
        }
    }

    /// Takes a message that is in view at this place.
    fn take(&mut self, place: usize, message: &Message) -> Finding
        ensures finding { result ≡ found_by (mark_at self.old place message.now.payload)
            (slice_get self.old.harts message.now.hart) message.now.number }
        ensures taken { self.new ≡ taken_by self.old place message.now.hart message.now.number
            (mark_at self.old place message.now.payload) }
    {
        self.places.note(message.hart, message.number, place);
        match mark(&self.slots, place, message.payload.bytes(), self.by) {
            Fate::InOrder => {
                let finding = new_finding(self.harts.as_slice(), message.hart, message.number);
                set_came(&mut self.slots, place);
                count_true(&mut self.harts, message.hart, message.number);
                finding
            }
            Fate::Late => Finding::Late { by: 0 },
            Fate::Repeat => Finding::Repeat,
            Fate::Changed => Finding::Changed,
            Fate::Stranger => Finding::Stranger,
        }
    }

    /// How many messages of SENT after the front there are up to the one at this place.
    fn distance(&self, place: usize) -> usize
        requires { place < length self.now.slots }
        ensures { result ≡ place + 1 - self.now.near }
    {
        let near = self.near;
        (place + 1).saturating_sub(near)
    }

    /// The front goes on by one message of SENT. The message that is then more than a window before the front is given up,
    /// and returned. Where no message after the front was read, nothing changes.
    pub fn pass(&mut self) -> Option<SentMessage>
        ensures passed { (sent came : List AnyMessage) (front : ℕ) → Holds sent came front self.old
            → front < length sent → Holds sent came (front + 1) self.new }
        ensures given { (sent came : List AnyMessage) (front : ℕ) → Holds sent came front self.old
            → front < length sent → result ≡ last_held self.old.by came sent (given_up self.old.window (front + 1)) }
        ensures end { (sent came : List AnyMessage) (front : ℕ) → Holds sent came front self.old
            → front ≡ length sent → (self.new ≡ self.old) × (result ≡ None) }
        ensures window { self.new.window ≡ self.old.window }
        ensures harts { length self.new.harts ≡ length self.old.harts }
        ensures by { self.new.by ≡ self.old.by }
    {
        self.go_on()
    }

    /// As [`Window::pass`], by what is held.
    fn go_on(&mut self) -> Option<SentMessage>
        ensures given { result ≡ passes_by self.old }
        ensures passed { self.new ≡ passed self.old }
    {
        if self.near >= self.slots.len() {
            return None;
        }
        if self.near <= self.window {
            self.near += 1;
            return None;
        }
        let first = self.slots.pop_front();
        if let Some(slot) = &first {
            give_up(&mut self.harts, slot.message.hart, slot.message.number);
            self.places.remove(slot.message.hart);
        }
        first
    }
}

/// What becomes of a message in view of which this is found, so many messages after the front.
fn judged_as(distance: usize, finding: Finding) -> Judged
    ensures { result ≡ judged_as distance finding }
{
    match finding {
        Finding::Late { .. } | Finding::InOrder { .. } => Judged::Found {
            finding,
            ahead: distance,
        },
        _ => Judged::Found { finding, ahead: 0 },
    }
}
