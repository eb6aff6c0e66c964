//! The end that takes.
ghost use Rattle.std.specs.Prelude.{◌≡◌, ◌+◌, ◌<◌, ◌++◌, ◌∷◌, [], length, ℕ, IfOk, OnErr, vec_len, slice_index};
ghost use Rattle.crossbeam_channel.specs.Claims.{IsSeatAt};
ghost use Rattle.crossbeam_channel.specs.Ends.{sends_on, receives_on, ruled_capacity};
ghost use Rattle.message.specs.OfHart.{of_hart};
ghost use Rattle.funnel.specs.Ends.{OutletView, IsBeginning, EndsClosing};
ghost use Rattle.funnel.specs.Order.{AreInOrder};
ghost use Rattle.funnel.specs.Rule.{TakesOne, TookInOrder};
ghost use Rattle.funnel.specs.steps.Passes.{id_of, knows, sent_of, taken_by_outlet, IsPort, IsOutlet};

use crate::Ended;
use crate::low_water::Drain;
use crate::receipt::{Receipt, Settled};
use crate::rule::{Compares, Receiver, Sender, Takes, TakesIn, Ticket};
use crossbeam_channel::TryRecvError;
use message::Message;
use std::alloc::{Allocator, Global};
use std::marker::Model;
use std::sync::Wait;

/// The end that takes the messages of all harts.
///
/// Contracts see its funnel, how many messages the channel holds at most, how many ports there are, and the messages
/// that it took.
#[derive(Drop)]
pub struct Outlet<A: Allocator = Global> {
    pub(crate) receiver: Receiver<A>,
    pub(crate) pass: Ticket,
    /// How many messages of each hart were taken.
    pub(crate) counts: Vec<u64, A>,
    pub(crate) drain: Drain<A>,
}

impl<A: Allocator> Model for Outlet<A> {
    ghost Value = { OutletView };

    ghost view = { λ o. record {
      funnel = id_of o.pass;
      room = ruled_capacity (receives_on o.receiver);
      made = vec_len o.counts;
      taken = taken_by_outlet (knows o.pass);
    } };

    ghost invariant = { λ o. IsSeatAt (receives_on o.receiver) o.pass × IsOutlet (vec_len o.counts) (knows o.pass)
        × ((h : ℕ) → h < vec_len o.counts
        → slice_index o.counts.items h ≡ length (of_hart h (taken_by_outlet (knows o.pass)))) };
}

impl<A: Allocator> Outlet<A> {
    /// Takes the oldest message. It waits while there is none and some port or receipt is left.
    ///
    /// [`Ended`] comes where the channel is empty and has no sending end, and changes nothing.
    pub fn take<R: Wait>(&mut self, rt: &R) -> Result<Message, Ended>
        ensures taken { IfOk result (λ message. self.new ≡ record self.old { taken = self.old.taken ++ message ∷ [] }) }
        ensures number { IfOk result (λ message. message.number ≡ length (of_hart message.hart self.old.taken)) }
        ensures hart { IfOk result (λ message. message.hart < self.old.made) }
        // It goes last in what was taken of its hart. What was taken of each hart is in order.
        ensures one_more { IfOk result
            (λ message. of_hart message.hart self.new.taken ≡ of_hart message.hart self.old.taken ++ message ∷ []) }
        ensures in_order { (hart : ℕ) → AreInOrder hart (of_hart hart self.new.taken) }
        ensures ended { OnErr result (self.new ≡ self.old) }
        ensures funnel { self.new.funnel ≡ self.old.funnel }
        ensures room { self.new.room ≡ self.old.room }
        ensures made { self.new.made ≡ self.old.made }
    {
        match next_message(rt, &self.receiver, &mut self.pass, &mut self.drain) {
            Ok(message) => {
                self.drain.note_taken();
                // Its number is how many messages of its hart were taken before.
                self.counts[usize::from(message.hart)] = message.number + 1;
                Ok(message)
            }
            Err(ended) => Err(ended),
        }
    }

    /// Settles a receipt of this funnel: how many messages its port sent, and how many of them were taken so far.
    pub fn settle(&mut self, receipt: Receipt<A>) -> Settled
        requires { receipt.funnel ≡ self.old.funnel }
        ensures outlet { self.new ≡ self.old }
        ensures hart { result.hart ≡ receipt.hart }
        ensures sent { result.sent ≡ length receipt.sent }
        ensures taken { result.taken ≡ length (of_hart receipt.hart self.old.taken) }
        // What was taken is a prefix of what was sent, and all of it where its last payload is closing.
        ensures beginning { IsBeginning (of_hart receipt.hart self.old.taken) receipt.sent }
        ensures whole { EndsClosing (of_hart receipt.hart self.old.taken)
            → of_hart receipt.hart self.old.taken ≡ receipt.sent }
    {
        let Receipt {
            sender,
            pass,
            hart,
            count,
        } = receipt;
        take_in(&sender, &mut self.pass, self.counts.len(), pass, hart);
        Settled {
            hart,
            sent: count,
            taken: self.counts[usize::from(hart)],
        }
    }
}

/// Takes the oldest message. Where there is none it calls the ports that wait while the funnel is full, and waits.
fn next_message<A: Allocator, R: Wait>(
    rt: &R,
    receiver: &Receiver<A>,
    pass: &mut Ticket,
    drain: &mut Drain<A>,
) -> Result<Message, Ended>
    requires seat { IsSeatAt (receives_on receiver.now) pass.old }
    requires outlet { (made : ℕ) × IsOutlet made (knows pass.old) }
    ensures seat { IsSeatAt (receives_on receiver.now) pass.new }
    ensures funnel { id_of pass.new ≡ id_of pass.old }
    ensures taken { IfOk result (λ message. TakesOne (knows pass.old) message (knows pass.new)) }
    ensures ended { OnErr result ((knows pass.new ≡ knows pass.old) × TookInOrder (knows pass.old)) }
{
    match receiver.try_recv_as::<Takes, R>(rt, pass) {
        Ok(message) => return Ok(message),
        Err(TryRecvError::Empty) => drain.note_empty(),
        Err(TryRecvError::Disconnected) => return Err(Ended),
    }
    match receiver.recv_as::<Takes, R>(rt, pass) {
        Ok(message) => Ok(message),
        Err(_) => Err(Ended),
    }
}

/// Takes in the pass of a finished port, and compares what it sent with what was taken.
fn take_in<A: Allocator>(
    sender: &Sender<A>,
    outlet: &mut Ticket,
    made: usize,
    port: Ticket,
    hart: u16,
)
    requires seat { IsSeatAt (sends_on sender.now) outlet.old × IsSeatAt (sends_on sender.now) port }
    requires outlet { IsOutlet made (knows outlet.old) }
    requires port { IsPort hart (knows port) }
    ensures seat { IsSeatAt (sends_on sender.now) outlet.new × (id_of outlet.new ≡ id_of outlet.old) }
    ensures outlet { IsOutlet made (knows outlet.new)
        × (taken_by_outlet (knows outlet.new) ≡ taken_by_outlet (knows outlet.old)) }
    ensures hart { hart < made }
    ensures beginning { IsBeginning (of_hart hart (taken_by_outlet (knows outlet.old))) (sent_of (knows port)) }
    ensures whole { EndsClosing (of_hart hart (taken_by_outlet (knows outlet.old)))
        → of_hart hart (taken_by_outlet (knows outlet.old)) ≡ sent_of (knows port) }
{
    sender.absorb::<TakesIn>(outlet, port);
    sender.learn_as::<Compares>(outlet);
}
