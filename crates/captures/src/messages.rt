//! The messages of a hart, which are written into a buffer one after another.

ghost use Rattle.std.specs.Prelude.{◌≡◌, ◌∷◌, [], All, OnOk};
ghost use Rattle.payload.specs.Profile.{InProfile};
ghost use Rattle.captures.specs.steps.Adds.{Adds};

use crate::Form;
use message::Message;
use payload::{Packet, pack};
use std::alloc::AllocError;

/// The most bytes of a written message. A line of hexadecimal has up to 5 digits of the hart, 20 of the number and 36
/// of the payload, two spaces and a line feed. In a capture a message has 29 bytes at most.
const LONGEST: usize = 64;

/// How many bytes the buffer grows by at once, beside a quarter of what is written.
const MORE_BYTES: usize = 4_096;

/// The messages of a hart that are written so far.
#[derive(Drop)]
pub(crate) struct Messages {
    pub(crate) hart: u16,
    /// The number of the message that comes next.
    pub(crate) number: u64,
    /// What is written.
    pub(crate) bytes: Vec<u8>,
}

impl Messages {
    /// Writes the messages of these packets. The error is that of [`Messages::write`].
    #[inline]
    pub(crate) fn write_all<F: Form>(&mut self, packets: &[Packet]) -> Result<(), AllocError>
        ensures { All InProfile packets.now → OnOk result (Adds F.text packets.now self.old self.new) }
    {
        for packet in packets {
            self.write::<F>(packet)?;
        }
        Ok(())
    }

    /// Writes the message of this packet. A packet that is not of the profile has no payload and gives no message; a
    /// legal log has none. The error says that an allocation failed, or that no number is left.
    #[inline(never)]
    pub(crate) fn write<F: Form>(&mut self, packet: &Packet) -> Result<(), AllocError>
        ensures { InProfile packet.now → OnOk result (Adds F.text (packet.now ∷ []) self.old self.new) }
    {
        if !packet.in_profile() {
            return Ok(());
        }
        let message = Message {
            hart: self.hart,
            number: self.number,
            payload: pack(packet),
        };
        self.number = match self.number.checked_add(1) {
            Some(next) => next,
            None => return Err(AllocError),
        };
        reserve_one(&mut self.bytes)?;
        match F::write(&mut self.bytes, &message) {
            Ok(()) => Ok(()),
            Err(_) => Err(AllocError),
        }
    }
}

/// Reserves memory for one message more, if there may be too little. The buffer grows by a quarter, and so is little
/// longer than what is written; a vector that grows by itself doubles its length.
#[inline]
fn reserve_one(bytes: &mut Vec<u8>) -> Result<(), AllocError>
    ensures { bytes.new.items ≡ bytes.old.items }
{
    if bytes.capacity() - bytes.len() >= LONGEST {
        return Ok(());
    }
    bytes.reserve_exact(bytes.len() / 4 + MORE_BYTES)
}
