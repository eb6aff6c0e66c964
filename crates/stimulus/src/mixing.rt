//! The messages of several harts, mixed as a path sees them.

ghost use Rattle.std.specs.Prelude.{◌≡◌, ◌<◌, ℕ, All, IfErr, IfOk, IfSome, List, [], OnOk, get_or, length, map};
ghost use Rattle.std.specs.Io.KnownBytes.{Appends};
ghost use Rattle.std.specs.List.{flat_map};
ghost use Rattle.message.specs.declared.message.Message.{Message as AnyMessage};
ghost use Rattle.message.specs.steps.Filling.{AreBytes};
ghost use Rattle.output.specs.Begun.{AppendsBeginning};
ghost use Rattle.stimulus.specs.Mixing.{AllAreInFront, AreInFront, AreMessages, HaveMessages, IsMixing, IsUnmixed, Mixed};
ghost use Rattle.stimulus.specs.Mixing.{mixed_by, mixed_from, most_turns, turn};
ghost use Rattle.stimulus.specs.steps.Drawing.{TakesFirst, TakesNext, WritesTurns};

use crate::order::{Bursts, Order};
use captures::Form;
use message::{Message, MessageFault, Messages};
use std::alloc::{AllocError, Allocator};
use std::io::Write;

/// How many turns of one hart come one after another at most.
const LONGEST_BURST: u32 = 16;

/// The messages of several harts, which are written mixed, as those of a generated capture are: a hart sends in bursts
/// of 1 to 16 messages, and one of more weight comes more often. Each hart's messages stay in their order.
#[derive(Drop)]
pub struct Mixing<'a, A: Allocator> {
    order: Order<A>,
    /// What each hart has left.
    left: Vec<Messages<'a>, A>,
}

impl<'a, A: Allocator + Copy> Mixing<'a, A> {
    /// The messages of harts, before any is written. The bytes of each hart are messages as a capture has them, one after
    /// the other, without a header. What follows the last complete message is not looked at. The seed decides how the
    /// messages are mixed. The error says that an allocation failed, or that there are more than 65,535 harts.
    pub fn new(alloc: A, seed: u64, harts: &'a [Vec<u8>]) -> Result<Mixing<'a, A>, AllocError>
        ensures messages { IfOk result (λ mixing. HaveMessages harts.entry.now) }
        ensures unmixed { (left : List (List AnyMessage)) → AreMessages left harts.entry.now
            → IfOk result (IsUnmixed seed left) }
    {
        let Ok(count) = u16::try_from(harts.len()) else {
            return Err(AllocError);
        };
        let bursts = Bursts {
            longest: LONGEST_BURST,
            ending: 1,
            ends: 0,
        };
        let order = Order::new(alloc, seed, count, bursts)?;
        let left = messages_of(alloc, harts)?;
        Ok(Mixing { order, left })
    }

    /// Writes the messages. The only fault is [`MessageFault::Write`], where the writer failed; what was written then is
    /// a prefix of the text. No memory is taken, and the writer is not flushed.
    pub fn write<F: Form, W: Write>(mut self, sink: &mut W) -> Result<(), MessageFault>
        ensures text { (seed : ℕ) (left : List (List AnyMessage)) → IsUnmixed seed left self.entry
            → OnOk result (Appends (W.contents sink.old) (W.contents sink.new) (flat_map F.text (mixed_by seed left))) }
        ensures begun { (seed : ℕ) (left : List (List AnyMessage)) → IsUnmixed seed left self.entry
            → AppendsBeginning (flat_map F.text (mixed_by seed left)) (W.contents sink.old) (W.contents sink.new) }
        ensures fault { IfErr result (λ fault. fault ≡ MessageFault.Write) }
    {
        self.write_turns::<F, W>(sink)?;
        let Mixing { left, .. } = self;
        write_left::<A, F, W>(left, sink)
    }

    /// Writes messages until no hart may send.
    fn write_turns<F: Form, W: Write>(&mut self, sink: &mut W) -> Result<(), MessageFault>
        ensures text { (mixed : Mixed) → IsMixing mixed self.old
            → OnOk result (WritesTurns F.text (mixed_from most_turns mixed) 0 self.new
            (W.contents sink.old) (W.contents sink.new)) }
        ensures begun { (mixed : Mixed) → IsMixing mixed self.old
            → AppendsBeginning (flat_map F.text (mixed_from most_turns mixed))
            (W.contents sink.old) (W.contents sink.new) }
        ensures fault { IfErr result (λ fault. fault ≡ MessageFault.Write) }
    {
        for _ in 0..u64::MAX {
            if self.order.is_over() {
                return Ok(());
            }
            self.write_turn::<F, W>(sink)?;
        }
        Ok(())
    }

    /// Writes the message of the next turn, or none where its hart has none left.
    fn write_turn<F: Form, W: Write>(&mut self, sink: &mut W) -> Result<(), MessageFault>
        ensures mixed { (mixed : Mixed) → IsMixing mixed self.old → IsMixing (turn mixed).1 self.new }
        ensures text { (mixed : Mixed) → IsMixing mixed self.old
            → OnOk result (Appends (W.contents sink.old) (W.contents sink.new) (flat_map F.text (turn mixed).0)) }
        ensures begun { (mixed : Mixed) → IsMixing mixed self.old
            → AppendsBeginning (flat_map F.text (turn mixed).0) (W.contents sink.old) (W.contents sink.new) }
        ensures fault { IfErr result (λ fault. fault ≡ MessageFault.Write) }
    {
        let hart = self.order.next().hart;
        match take_first(&mut self.left, hart) {
            Some(message) => F::write(sink, &message),
            None => {
                self.order.leave(hart);
                Ok(())
            }
        }
    }
}

/// The messages of harts, whose bytes these are.
fn messages_of<'a, A: Allocator>(
    alloc: A,
    harts: &'a [Vec<u8>],
) -> Result<Vec<Messages<'a>, A>, AllocError>
    ensures left { IfOk result (λ left. left.items ≡ map (λ bytes. bytes.items) harts.entry.now) }
    ensures bytes { IfOk result (λ left. All AreBytes left.items) }
{
    let mut left = Vec::new(alloc);
    for bytes in harts {
        left.push(messages_in(bytes.as_slice()))?;
    }
    Ok(left)
}

/// The messages of a hart, whose bytes these are.
fn messages_in(bytes: &[u8]) -> Messages<'_>
    ensures same { result ≡ bytes.now }
    ensures bytes { AreBytes bytes.now }
{
    Messages::new(bytes)
}

/// Takes the first of the messages that the hart of this number has left, if there is one.
fn take_first<A: Allocator>(left: &mut Vec<Messages<'_>, A>, hart: u16) -> Option<Message>
    ensures { (messages : List (List AnyMessage)) → AllAreInFront messages left.old.items
        → TakesFirst messages hart (get_or messages hart []) result left.new.items }
{
    let place = usize::from(hart);
    if place >= left.len() {
        return None;
    }
    next_of(&mut left[place])
}

/// Takes the first of the messages that a hart has left, if there is one.
fn next_of(own: &mut Messages<'_>) -> Option<Message>
    ensures taken { (messages : List AnyMessage) → AreInFront messages own.old
        → TakesNext messages result own.new }
    ensures shorter { IfSome result (λ message. length own.new < length own.old) }
{
    match own.next() {
        Ok(message) => message,
        Err(_) => None,
    }
}

/// Writes all messages that harts have left, hart after hart.
fn write_left<'a, A: Allocator, F: Form, W: Write>(
    left: Vec<Messages<'a>, A>,
    sink: &mut W,
) -> Result<(), MessageFault>
    ensures text { (messages : List (List AnyMessage)) → AllAreInFront messages left.entry.items
        → OnOk result (Appends (W.contents sink.old) (W.contents sink.new)
        (flat_map F.text (flat_map (λ own. own) messages))) }
    ensures begun { (messages : List (List AnyMessage)) → AllAreInFront messages left.entry.items
        → AppendsBeginning (flat_map F.text (flat_map (λ own. own) messages))
        (W.contents sink.old) (W.contents sink.new) }
    ensures fault { IfErr result (λ fault. fault ≡ MessageFault.Write) }
{
    for own in left {
        write_own::<F, W>(own, sink)?;
    }
    Ok(())
}

/// Writes all messages that a hart has left.
fn write_own<'a, F: Form, W: Write>(mut own: Messages<'a>, sink: &mut W) -> Result<(), MessageFault>
    ensures text { (messages : List AnyMessage) → AreInFront messages own.entry
        → OnOk result (Appends (W.contents sink.old) (W.contents sink.new) (flat_map F.text messages)) }
    ensures begun { (messages : List AnyMessage) → AreInFront messages own.entry
        → AppendsBeginning (flat_map F.text messages) (W.contents sink.old) (W.contents sink.new) }
    ensures fault { IfErr result (λ fault. fault ≡ MessageFault.Write) }
{
    while let Some(message) = next_of(&mut own) {
        F::write(sink, &message)?;
    }
    Ok(())
}
