//! The first pass over a capture's messages.

ghost use Rattle.std.specs.Prelude.{◌≡◌, ◌++◌, true, All, List, [], ◌∷◌, IfErr, IfOk, OnErr, OnOk, length};
ghost use Rattle.rvclass.specs.Fetch.{words_of};
ghost use Rattle.message.specs.Accepted.{AreAccepted, newcomers};
ghost use Rattle.message.specs.Range.{selected, selects};
ghost use Rattle.message.specs.declared.message.Message.{Message as AnyMessage};
ghost use Rattle.receiver.specs.NotReceived.{IsNotReceived};
ghost use Rattle.decoder.specs.declared.fault.DecodeFault.TheVariants.{Memory};
ghost use Rattle.parallel_decode.specs.Surveyed.{IsSurvey};
ghost use Rattle.parallel_decode.specs.steps.Surveying.{AreOwns, IsSurveyedUpTo, closed_of};
ghost use Rattle.parallel_decode.specs.steps.Walked.{IsOfHarts};

use crate::own::Own;
use crate::placing::places_of;
use crate::selecting::Selection;
use captures::CaptureFault;
use message::{DemuxFault, Message, Messages, ProgressSink};
use payload::Mode;
use receiver::ReceiveFault;
use std::alloc::{AllocError, Allocator};

/// What the first pass finds.
#[derive(Drop)]
pub struct Survey<A: Allocator> {
    /// Where each hart's messages begin, as far as they are decoded. Those of a hart that is passed over are not.
    pub places: Vec<Vec<usize, A>, A>,
    /// Whether each hart's closing packet was decoded.
    pub closed: Vec<bool, A>,
    /// Where decoding stops before the end, and why.
    pub fault: Option<(u64, CaptureFault)>,
}

/// Where the receiving of messages ends.
#[derive(Clone, Copy)]
pub(crate) struct End {
    /// How many messages were received or passed over.
    pub(crate) received: u64,
    /// Why no more were, where the bytes do not end there.
    pub(crate) fault: Option<(u64, CaptureFault)>,
}

/// Surveys messages of the harts in a range, where the header announces this mode, if there is a header. `watch` is
/// told of each message that is received or passed over.
pub fn survey_messages<A: Allocator + Copy, V: ProgressSink>(
    alloc: A,
    messages: &Selection<'_, '_>,
    announced: Option<Mode>,
    watch: &V,
) -> Result<Survey<A>, AllocError>
    ensures { IfOk result (IsSurvey messages.now.range (words_of messages.now.program.now) messages.now.harts announced
        messages.now.bytes.now) }
{
    let harts = usize::from(messages.harts);
    let mut owns = vec![in alloc; Own::new(); harts]?;
    let left = Messages::new(messages.bytes);
    let end = receive_all(alloc, &mut owns, messages, announced, left, watch);
    let states = owns.as_slice();
    let places = places_of(alloc, messages.range, states, end.received, messages.bytes)?;
    let closed = flags_of(alloc, states)?;
    Ok(Survey {
        places,
        closed,
        fault: end.fault,
    })
}

/// Receives messages of the harts in a range, where the header announces this mode, if there is a header. Returns where
/// that ends. No message was received before.
fn receive_all<A: Allocator + Copy, V: ProgressSink>(
    alloc: A,
    owns: &mut Vec<Own, A>,
    selection: &Selection<'_, '_>,
    announced: Option<Mode>,
    mut messages: Messages<'_>,
    watch: &V,
) -> End
    requires { AreOwns (words_of selection.now.program.now) announced [] owns.old.items }
    ensures surveyed { IsSurveyedUpTo selection.now.range (words_of selection.now.program.now) (length owns.old.items)
        announced messages.entry (closed_of owns.new.items) result.received result.fault }
    ensures harts { length owns.new.items ≡ length owns.old.items }
{
    let mut received = 0;
    loop {
        let message = match messages.next() {
            Ok(Some(message)) => message,
            Ok(None) => {
                return End {
                    received,
                    fault: None,
                };
            }
            Err(fault) => {
                return End {
                    received,
                    fault: Some((received, CaptureFault::Message(fault))),
                };
            }
        };
        match receive_selected(alloc, owns, selection, announced, &message) {
            Ok(()) => {
                received += 1;
                watch.note(1);
            }
            Err(fault) => {
                return End {
                    received,
                    fault: Some((received, CaptureFault::from(fault))),
                };
            }
        }
    }
}

/// Receives the message if it is of one of the harts in a range, and passes it over else.
fn receive_selected<A: Allocator + Copy>(
    alloc: A,
    owns: &mut Vec<Own, A>,
    selection: &Selection<'_, '_>,
    announced: Option<Mode>,
    message: &Message,
) -> Result<(), ReceiveFault>
    ensures received { (messages : List AnyMessage)
        → AreOwns (words_of selection.now.program.now) announced messages owns.old.items
        → OnOk result (AreOwns (words_of selection.now.program.now) announced
        (messages ++ selected selection.now.range (message.now ∷ [])) owns.new.items) }
    ensures of_harts { OnOk result
        (All (IsOfHarts (length owns.old.items)) (selected selection.now.range (message.now ∷ []))) }
    ensures refused { (messages : List AnyMessage)
        → AreOwns (words_of selection.now.program.now) announced messages owns.old.items
        → AreAccepted (newcomers (length owns.old.items)) messages
        → IfErr result (λ fault. (selects selection.now.range message.now.hart ≡ true)
        × IsNotReceived (words_of selection.now.program.now) (length owns.old.items) announced messages message.now
        fault × ¬ (fault ≡ ReceiveFault.Decode Memory)) }
    ensures closed { OnErr result (closed_of owns.new.items ≡ closed_of owns.old.items) }
    ensures harts { length owns.new.items ≡ length owns.old.items }
{
    if !selection.range.selects(message.hart) {
        return Ok(());
    }
    match owns.get_mut(usize::from(message.hart)) {
        Some(own) => match own.receive(alloc, selection.program, announced, message) {
            Ok(_) => Ok(()),
            Err(fault) => Err(fault),
        },
        None => Err(ReceiveFault::Demux(DemuxFault::Stranger)),
    }
}

/// Whether the closing packet of each hart was decoded.
fn flags_of<A: Allocator>(alloc: A, owns: &[Own]) -> Result<Vec<bool, A>, AllocError>
    ensures { IfOk result (λ closed. closed.items ≡ closed_of owns.now) }
{
    let mut closed = Vec::new(alloc);
    for own in owns {
        closed.push(own.closed)?;
    }
    Ok(closed)
}
