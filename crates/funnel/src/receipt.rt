//! What a finished port leaves.
ghost use Rattle.std.specs.Prelude.{◌≡◌, length};
ghost use Rattle.crossbeam_channel.specs.Claims.{IsSeatAt};
ghost use Rattle.crossbeam_channel.specs.Ends.{sends_on};
ghost use Rattle.funnel.specs.Ends.{PortView};
ghost use Rattle.funnel.specs.steps.Passes.{id_of, knows, sent_of, IsPort};

use crate::rule::{Sender, Ticket};
use std::alloc::{Allocator, Global};
use std::marker::Model;

/// What a finished port leaves, for the outlet to settle.
///
/// It keeps its sending end, so the channel ends only once it is settled or dropped. Contracts see it as its port.
#[derive(Drop)]
pub struct Receipt<A: Allocator = Global> {
    pub(crate) sender: Sender<A>,
    pub(crate) pass: Ticket,
    pub(crate) hart: u16,
    /// How many messages were sent.
    pub(crate) count: u64,
}

impl<A: Allocator> Model for Receipt<A> {
    ghost Value = { PortView };

    ghost view = { λ r. record { funnel = id_of r.pass; hart = r.hart; sent = sent_of (knows r.pass) } };

    ghost invariant = { λ r. IsSeatAt (sends_on r.sender) r.pass × IsPort r.hart (knows r.pass)
        × (r.count ≡ length (sent_of (knows r.pass))) };
}

/// What the outlet and a receipt say of one hart.
#[derive(Clone, Copy)]
pub struct Settled {
    /// The hart.
    pub hart: u16,
    /// How many messages its port sent.
    pub sent: u64,
    /// How many of them the outlet took.
    pub taken: u64,
}
