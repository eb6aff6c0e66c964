//! The end of a hart, which sends.
ghost use Rattle.std.specs.Prelude.{◌≡◌, ◌+◌, ◌++◌, ◌∷◌, ◌↔◌, [], length, true, false, IfOk, IfErr, OnOk, OnErr, Err};
ghost use Rattle.crossbeam_channel.specs.Claims.{IsSeatAt};
ghost use Rattle.crossbeam_channel.specs.Ends.{sends_on};
ghost use Rattle.crossbeam_channel.specs.Err.{try_send_message};
ghost use Rattle.funnel.specs.declared.rule.View.TheVariants as V;
ghost use Rattle.funnel.specs.Ends.{PortView, has_closing, is_finished, after_sending};
ghost use Rattle.funnel.specs.steps.Passes.{id_of, knows, sent_of, IsPort};
ghost use Rattle.funnel.specs.steps.Sending.{MaySend};
ghost use Rattle.funnel.specs.Refusals.{unsent_payload};

use crate::SendFault;
use crate::limits::MOST_MESSAGES;
use crate::low_water::{LowWater, rest};
use crate::receipt::Receipt;
use crate::rule::{Sender, Sends, SendsLast, Ticket};
use crossbeam_channel::TrySendError;
use message::Message;
use payload::Payload;
use std::alloc::{Allocator, Global};
use std::marker::Model;
use std::sync::{Arc, Wait};

/// The end of one hart, which sends its payloads.
///
/// Contracts see the funnel that it is of, its hart, and the messages that it sent.
#[derive(Drop)]
pub struct Port<A: Allocator = Global> {
    pub(crate) sender: Sender<A>,
    pub(crate) low: Arc<LowWater, A>,
    pub(crate) pass: Ticket,
    pub(crate) hart: u16,
    /// How many messages were sent.
    pub(crate) count: u64,
    /// Whether a closing payload was sent.
    pub(crate) closed: bool,
}

impl<A: Allocator> Model for Port<A> {
    ghost Value = { PortView };

    ghost view = { λ p. record { funnel = id_of p.pass; hart = p.hart; sent = sent_of (knows p.pass) } };

    ghost invariant = { λ p. IsSeatAt (sends_on p.sender) p.pass × IsPort p.hart (knows p.pass)
        × (p.count ≡ length (sent_of (knows p.pass))) × (p.closed ≡ has_closing (sent_of (knows p.pass))) };
}

impl<A: Allocator> Port<A> {
    /// Sends a payload, whose message has as its number how many were sent before. It waits while the channel is full.
    ///
    /// A fault gives the payload back and changes nothing. [`SendFault::HandedBack`] comes where the channel hands the
    /// message back, as it does once the outlet is dropped.
    pub fn send<R: Wait>(&mut self, rt: &R, payload: Payload) -> Result<(), SendFault>
        ensures sent { OnOk result (self.new ≡ after_sending self.old payload) }
        ensures refused { OnErr result (self.new ≡ self.old) }
        ensures given_back { IfErr result (λ fault. unsent_payload fault ≡ payload) }
        ensures closed { (result ≡ Err (SendFault.Closed payload)) ↔ (is_finished self.old.sent ≡ true) }
        ensures funnel { self.new.funnel ≡ self.old.funnel }
        ensures hart { self.new.hart ≡ self.old.hart }
    {
        if self.closed || self.count >= MOST_MESSAGES {
            return Err(SendFault::Closed(payload));
        }
        let closing = payload.is_closing();
        let message = Message {
            hart: self.hart,
            number: self.count,
            payload,
        };
        match pass_on(
            rt,
            &self.sender,
            &self.low,
            &mut self.pass,
            message,
            closing,
        ) {
            Ok(()) => {
                self.count += 1;
                self.closed = closing;
                Ok(())
            }
            Err(payload) => Err(SendFault::HandedBack(payload)),
        }
    }

    /// Finishes the port, and returns the receipt for all that it sent.
    pub fn finish(self) -> Receipt<A>
        ensures { result ≡ self }
    {
        let Port {
            sender,
            low: _low,
            pass,
            hart,
            count,
            closed: _,
        } = self;
        Receipt {
            sender,
            pass,
            hart,
            count,
        }
    }
}

/// Sends a message by a pass that knows all that its hart sent. `closing` says whether its payload is closing. The call
/// waits while the channel is full. An error gives the payload back.
fn pass_on<A: Allocator, R: Wait>(
    rt: &R,
    sender: &Sender<A>,
    low: &LowWater,
    pass: &mut Ticket,
    mut message: Message,
    closing: bool,
) -> Result<(), Payload>
    requires { MaySend (sends_on sender.now) pass.old message closing }
    ensures seat { IsSeatAt (sends_on sender.now) pass.new }
    ensures funnel { id_of pass.new ≡ id_of pass.old }
    ensures sent { OnOk result (knows pass.new ≡ V.Port message.hart (sent_of (knows pass.old) ++ message ∷ [])) }
    ensures refused { IfErr result (λ payload. (payload ≡ message.payload) × (knows pass.new ≡ knows pass.old)) }
{
    for look in 0..low.looks {
        match try_pass_on(rt, sender, pass, message, closing) {
            Ok(()) => return Ok(()),
            Err(TrySendError::Full(back)) => message = back,
            Err(e) => return Err(e.into_inner().payload),
        }
        rest(look);
    }
    wait_and_pass_on(rt, sender, low, pass, message, closing)
}

/// The same, after the channel was full. It waits between looks.
fn wait_and_pass_on<A: Allocator, R: Wait>(
    rt: &R,
    sender: &Sender<A>,
    low: &LowWater,
    pass: &mut Ticket,
    mut message: Message,
    closing: bool,
) -> Result<(), Payload>
    requires { MaySend (sends_on sender.now) pass.old message closing }
    ensures seat { IsSeatAt (sends_on sender.now) pass.new }
    ensures funnel { id_of pass.new ≡ id_of pass.old }
    ensures sent { OnOk result (knows pass.new ≡ V.Port message.hart (sent_of (knows pass.old) ++ message ∷ [])) }
    ensures refused { IfErr result (λ payload. (payload ≡ message.payload) × (knows pass.new ≡ knows pass.old)) }
{
    for _ in rt.forever() {
        let heard = low.enter();
        match try_pass_on(rt, sender, pass, message, closing) {
            Ok(()) => {
                low.leave();
                return Ok(());
            }
            Err(TrySendError::Full(back)) => {
                low.wait(rt, heard);
                message = back;
            }
            Err(e) => {
                low.leave();
                return Err(e.into_inner().payload);
            }
        }
    }
    unreachable!()
}

/// Sends a message where the funnel is not full.
fn try_pass_on<A: Allocator, R: Wait>(
    rt: &R,
    sender: &Sender<A>,
    pass: &mut Ticket,
    message: Message,
    closing: bool,
) -> Result<(), TrySendError<Message>>
    requires { MaySend (sends_on sender.now) pass.old message closing }
    ensures seat { IsSeatAt (sends_on sender.now) pass.new }
    ensures funnel { id_of pass.new ≡ id_of pass.old }
    ensures sent { OnOk result (knows pass.new ≡ V.Port message.hart (sent_of (knows pass.old) ++ message ∷ [])) }
    ensures refused { IfErr result (λ e. (try_send_message e ≡ message) × (knows pass.new ≡ knows pass.old)) }
{
    if closing {
        sender.try_send_as::<SendsLast, R>(rt, pass, message)
    } else {
        sender.try_send_as::<Sends, R>(rt, pass, message)
    }
}
