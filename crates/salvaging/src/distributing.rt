//! From messages in the order in which they came to those of each hart.

ghost use Rattle.std.specs.Prelude.{◌≡◌, IfOk, OnOk, count_by, length};
ghost use Rattle.salvaging.specs.Strangers.{has_number, is_stranger};
ghost use Rattle.salvaging.specs.steps.Distributing.{AddsArrival, Distributes};

use crate::received::ReceivedMessage;
use message::Message;
use std::alloc::{AllocError, Allocator};

/// The number from which on no hart has a message.
const END_OF_NUMBERS: u64 = 1 << 63;

/// Whether a hart may have the message's number.
fn has_number(message: &Message) -> bool
    ensures { result ≡ has_number message.now }
{
    message.number < END_OF_NUMBERS
}

/// Whether a message is a stranger among so many harts.
pub(crate) fn is_stranger(harts: u16, message: &Message) -> bool
    ensures { result ≡ is_stranger harts message.now }
{
    !(message.hart < harts && has_number(message))
}

/// How many messages are strangers among so many harts.
pub(crate) fn strangers(harts: u16, messages: &[Message]) -> usize
    ensures { result ≡ count_by (is_stranger harts) messages.now }
{
    messages
        .iter()
        .filter(|message| is_stranger(harts, *message))
        .count()
}

/// Adds a message to the list of its hart, if it is known and may have the message's number.
fn add<'a, A: Allocator>(
    lists: &mut Vec<Vec<ReceivedMessage<'a>, A>, A>,
    message: &'a Message,
) -> Result<(), AllocError>
    ensures { OnOk result (AddsArrival message.now lists.old.items lists.new.items) }
{
    if !has_number(message) {
        return Ok(());
    }
    match lists.get_mut(usize::from(message.hart)) {
        Some(list) => {
            list.reserve(1)?;
            let place = list.len();
            list.push_reserved(ReceivedMessage { place, message });
            Ok(())
        }
        None => Ok(()),
    }
}

/// The messages of each of so many harts, in the order in which they came.
pub(crate) fn distribute<'a, A: Allocator + Copy>(
    alloc: A,
    harts: u16,
    messages: &'a [Message],
) -> Result<Vec<Vec<ReceivedMessage<'a>, A>, A>, AllocError>
    ensures count { IfOk result (λ lists. length lists.items ≡ harts) }
    ensures each { IfOk result (λ lists. Distributes messages.now lists.items) }
{
    let mut lists = vec![in alloc; Vec::new(alloc); usize::from(harts)]?;
    for message in messages {
        add(&mut lists, message)?;
    }
    Ok(lists)
}
