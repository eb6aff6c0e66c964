//! The messages of some harts among those of a capture.

ghost use Rattle.std.specs.Prelude.{◌≡◌, ◌≢◌, ◌⊎◌, List, get_or, Option, Ok};
ghost use Rattle.captures.specs.Whole.{IsWhole};
ghost use Rattle.message.specs.Range.{selected};
ghost use Rattle.message.specs.declared.header.Header.{Header as AnyHeader};
ghost use Rattle.message.specs.declared.message.Message.{Message as AnyMessage};
ghost use Rattle.capture_commands.specs.Faults.{lossy_fault, status_of};
ghost use Rattle.capture_commands.specs.Placed.{place_among, placed_fault};
ghost use Rattle.command_inputs.specs.declared.fault.Fault.TheVariants as Fault;

use crate::reason::Fault;
use crate::stopping::lossy_fault;
use captures::read_messages;
use command_inputs::Status;
use losses::LossyFault;
use message::{HartRange, Message};
use std::alloc::Global;

/// The messages of these harts, in their order. The others are dropped.
pub(crate) fn select_messages(only: HartRange, messages: Vec<Message>) -> Vec<Message>
    ensures { result.items ≡ selected only messages.items }
{
    let mut own = messages;
    own.retain(|message| only.selects(message.hart));
    own
}

/// The fault of messages of these harts, which are messages of this capture. It names the place of a message among all
/// messages. These are read again, and where that fails since an allocation does, that is the fault.
pub(crate) fn fault_among<'a>(
    alloc: Global,
    only: HartRange,
    fault: LossyFault,
    bytes: &[u8],
) -> Fault<'a>
    ensures value { (header : Option AnyHeader) (messages : List AnyMessage) → IsWhole bytes.now header messages
        → (result ≡ Fault.Memory) ⊎ (result ≡ lossy_fault (placed_fault only messages fault)) }
    ensures never_refused { status_of result ≢ Status.Refused }
{
    if fault == LossyFault::Memory {
        return Fault::Memory;
    }
    let Ok(whole) = read_messages(alloc, bytes) else {
        return Fault::Memory;
    };
    lossy_fault(placed(only, whole.messages.as_slice(), fault))
}

/// The fault of messages of these harts, with the place of a message among all messages.
fn placed(only: HartRange, messages: &[Message], fault: LossyFault) -> LossyFault
    ensures { result ≡ placed_fault only messages.now fault }
{
    match fault {
        LossyFault::Demux(own, why) => LossyFault::Demux(place_among(only, messages, own), why),
        LossyFault::Decode(own, why) => LossyFault::Decode(place_among(only, messages, own), why),
        LossyFault::Memory => LossyFault::Memory,
    }
}

/// The place among all messages of the one that is at this place among those of these harts.
fn place_among(only: HartRange, messages: &[Message], own: usize) -> usize
    ensures { result ≡ place_among only messages.now own }
{
    let mut left = own;
    for (place, message) in messages.iter().enumerate() {
        if only.selects(message.hart) {
            if left == 0 {
                return place;
            }
            left -= 1;
        }
    }
    0
}
