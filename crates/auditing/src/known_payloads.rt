//! The payloads of SENT, looked up by hart.

ghost use Rattle.std.specs.Prelude.{◌≡◌, ◌==◌, ◌&&◌, ◌||◌, ◌++◌, [], ◌∷◌, ℕ, Bool, List, OnErr, OnOk};
ghost use Rattle.std.specs.Str.{bytes_eq};
ghost use Rattle.message.specs.declared.message.Message.{Message as AnyMessage};
ghost use Rattle.payload.specs.declared.by.By.{By as AnyBy};
ghost use Rattle.auditing.specs.PayloadSights.{KeepsPayloads, KnownSent, has_key, sight_kept};
ghost use Rattle.auditing.specs.steps.Recognising.{keys_of};

use arrayvec::ArrayVec;
use frames::{Sent, Sight};
use message::Message;
use payload::{By, MOST_BYTES, Payload, known};
use std::alloc::{AllocError, Allocator, Global};
use std::collections::HashSet;
use std::hash::{BuildHasherDefault, FoldHasher};
use std::marker::Model;

/// The payloads of SENT by hart, as they are compared, to be looked up where numbers are not looked at.
///
/// As a [`Sent`] it knows a message if SENT has one of its hart with its payload. Where RECEIVED is messages to its end,
/// every message counts as sent, and no payload is kept.
#[derive(Drop)]
pub struct KnownPayloads<A: Allocator = Global> {
    by: By,
    framed: bool,
    keys: HashSet<(u16, ArrayVec<u8, MOST_BYTES>), BuildHasherDefault<FoldHasher>, A>,
}

impl<A: Allocator> Model for KnownPayloads<A> {
    ghost Value = { KnownSent };

    ghost view = { λ own. record { by = own.by; framed = own.framed; keys = keys_of own.keys } };
}

impl<A: Allocator + Copy> KnownPayloads<A> {
    /// No payloads yet, compared by these. `framed` says whether RECEIVED is messages to its end
    /// ([`frames::is_framed`]). Takes no memory.
    pub fn new(alloc: A, by: By, framed: bool) -> KnownPayloads<A>
        ensures { KeepsPayloads framed by [] result }
    {
        KnownPayloads {
            by,
            framed,
            keys: HashSet::new(alloc),
        }
    }

    /// Adds the payload of the next message of SENT. Where an allocation fails, nothing is added. Memory grows with the
    /// payloads that differ: about 40 bytes each, at most twice as much.
    pub fn add(&mut self, message: &Message) -> Result<(), AllocError>
        ensures kept { (framed : Bool) (how : AnyBy) (sent : List AnyMessage) → KeepsPayloads framed how sent self.old
            → OnOk result (KeepsPayloads framed how (sent ++ message.now ∷ []) self.new) }
        ensures refused { OnErr result (self.new ≡ self.old) }
    {
        if self.framed {
            return Ok(());
        }
        let payload = known(&message.payload, self.by);
        self.insert(message.hart, &payload)
    }

    /// Adds a hart with what a payload of it is known by.
    fn insert(&mut self, hart: u16, payload: &Payload) -> Result<(), AllocError>
        ensures by { self.new.by ≡ self.old.by }
        ensures framed { self.new.framed ≡ self.old.framed }
        ensures has { OnOk result ((other : ℕ) (bytes : List ℕ) → has_key other bytes self.new.keys
            ≡ (((hart == other) && bytes_eq payload.now bytes) || has_key other bytes self.old.keys)) }
        ensures refused { OnErr result (self.new ≡ self.old) }
    {
        self.keys.insert((hart, bytes_of(payload)))?;
        Ok(())
    }
}

/// The bytes of a payload.
pub(crate) fn bytes_of(payload: &Payload) -> ArrayVec<u8, MOST_BYTES>
    ensures { result.items ≡ payload.now }
{
    match ArrayVec::try_from(payload.bytes()) {
        Ok(bytes) => bytes,
        Err(_) => unreachable!(),
    }
}

impl<A: Allocator> Sent for KnownPayloads<A> {
    ghost sees = { λ own message. sight_kept own message };

    fn sight(&self, message: &Message) -> Sight {
        if self.framed {
            return Sight::Same;
        }
        let payload = known(&message.payload, self.by);
        let key = (message.hart, bytes_of(&payload));
        if self.keys.contains(&key) {
            Sight::Known
        } else {
            Sight::Strange
        }
    }

    fn knows_none(&self) -> bool {
        self.framed
    }
}
