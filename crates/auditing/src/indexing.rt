//! Where the payload of each message of SENT is.

ghost use Rattle.std.specs.Prelude.{◌≡◌, ◌++◌, ◌<◌, ℕ, All, IfOk, IfSome, List, [], None, OnOk, IsSomeAnd, length};
ghost use Rattle.message.specs.Capture.{capture, message_bytes};
ghost use Rattle.message.specs.Cut.{IsMessage};
ghost use Rattle.message.specs.declared.message.Message.{Message as AnyMessage};
ghost use Rattle.auditing.specs.steps.Indexing.{AreIndexed, added};

use crate::hart::HartAudit;
use message::{HEAD, Messages};
use std::alloc::{AllocError, Allocator};

/// What an audit keeps of each of so many harts before a message of SENT is indexed, with capacities for these counts
/// of messages.
fn new_index<'a, A: Allocator + Copy>(
    alloc: A,
    counts: &[u64],
    harts: u16,
) -> Result<Vec<HartAudit<'a, A>, A>, AllocError>
    ensures { IfOk result (λ index. AreIndexed harts [] index.items) }
{
    let mut index = Vec::with_capacity(alloc, usize::from(harts))?;
    for hart in 0..usize::from(harts) {
        let count = match counts.get(hart) {
            Some(count) => *count,
            None => 0,
        };
        index.push(HartAudit::new(alloc, count as usize)?)?;
    }
    Ok(index)
}

/// The hart of the message that bytes begin with, its payload, and the bytes after it; `None` where they begin with no
/// complete message.
fn split_message<'a>(bytes: &'a [u8]) -> Option<(u16, &'a [u8], &'a [u8])>
    ensures first { (message : AnyMessage) (rest : List ℕ) → IsMessage message
        → bytes.entry.now ≡ message_bytes message ++ rest
        → IsSomeAnd result
        (λ split. (split.0 ≡ message.hart) × (split.1.now ≡ message.payload) × (split.2.now ≡ rest)) }
    ensures end { bytes.entry.now ≡ [] → result ≡ None }
    ensures shorter { IfSome result (λ split. length split.2.now < length bytes.entry.now) }
{
    let mut messages = Messages::new(bytes);
    match messages.next() {
        Ok(Some(message)) => {
            let (payload, rest) = bytes[HEAD..].split_at(message.payload.bytes().len());
            Some((message.hart, payload, rest))
        }
        _ => None,
    }
}

/// What an audit keeps of each of so many harts for the messages of these bytes, where each hart has as many as these
/// counts say.
pub(crate) fn index_messages<'a, A: Allocator + Copy>(
    alloc: A,
    counts: &[u64],
    harts: u16,
    bytes: &'a [u8],
) -> Result<Vec<HartAudit<'a, A>, A>, AllocError>
    ensures { (messages : List AnyMessage) → All IsMessage messages → bytes.entry.now ≡ capture messages
        → IfOk result (λ index. AreIndexed harts messages index.items) }
{
    let mut index = new_index(alloc, counts, harts)?;
    let mut left = bytes;
    while let Some((hart, payload, rest)) = split_message(left) {
        add_payload(&mut index, hart, payload)?;
        left = rest;
    }
    Ok(index)
}

/// Keeps the payload of one more message of this hart, if the hart is one of SENT's.
fn add_payload<'a, A: Allocator + Copy>(
    index: &mut Vec<HartAudit<'a, A>, A>,
    hart: u16,
    payload: &'a [u8],
) -> Result<(), AllocError>
    ensures { OnOk result (index.new.items ≡ added index.old.items hart payload.entry.now) }
{
    match index.get_mut(usize::from(hart)) {
        Some(own) => own.add(payload),
        None => Ok(()),
    }
}
