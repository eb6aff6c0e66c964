//! The rule of a funnel's channel, and its five kinds of step.

use crossbeam_channel::protocol::{Join, Lesson, Outcome, Protocol, Split};
use message::Message;
use std::collections::LinkedList;

/// What a pass of the channel knows. Only proofs speak of it; no value of it is made.
pub enum View {
    /// The outlet's pass.
    Outlet {
        /// How many ports were handed out.
        made: u64,
        /// What was taken.
        taken: LinkedList<Message>,
        /// The hart whose port was taken in last.
        settled: Option<u64>,
        /// What that port sent.
        list: LinkedList<Message>,
    },
    /// The pass of a hart's port, or of its receipt.
    Port {
        /// The hart.
        hart: u64,
        /// What the hart sent.
        sent: LinkedList<Message>,
    },
    /// A pass that was taken in.
    Spent,
}

/// The rule of the channel.
pub struct Law;

impl Protocol<Message, View> for Law {
    ghost use Rattle.funnel.specs.Rule.{Kept, newborn};

    ghost holds = { λ queue views. Kept queue views };

    ghost first = { newborn };
}

/// A port is handed out.
pub struct HandOut;

impl Split<View> for HandOut {
    ghost use Rattle.funnel.specs.Rule.{handed_out, next_port};

    ghost left = { handed_out };

    ghost right = { next_port };
}

/// A message with an ordinary payload is sent.
pub struct Sends;

impl Outcome<Message, View> for Sends {
    ghost use Rattle.funnel.specs.Rule.{SendsOn};

    ghost then = { SendsOn };
}

impl Lesson<Message, View> for Sends {
    ghost fact = { λ v queue. Unit {0} };
}

/// A message with a closing payload is sent.
pub struct SendsLast;

impl Outcome<Message, View> for SendsLast {
    ghost use Rattle.funnel.specs.Rule.{SendsLast};

    ghost then = { SendsLast };
}

impl Lesson<Message, View> for SendsLast {
    ghost fact = { λ v queue. Unit {0} };
}

/// The front message is taken.
pub struct Takes;

impl Outcome<Message, View> for Takes {
    ghost use Rattle.funnel.specs.Rule.{TakesOne};

    ghost then = { TakesOne };
}

impl Lesson<Message, View> for Takes {
    ghost use Rattle.funnel.specs.Rule.{TookInOrder};

    ghost fact = { λ v queue. TookInOrder v };
}

/// A port's pass is taken in.
pub struct TakesIn;

impl Join<View> for TakesIn {
    ghost use Rattle.funnel.specs.Rule.{after_taking_in, spent};

    ghost both = { after_taking_in };

    ghost spent = { spent };
}

/// What the outlet learns of the port that it took in last.
pub struct Compares;

impl Lesson<Message, View> for Compares {
    ghost use Rattle.funnel.specs.Rule.{Compares};

    ghost fact = { Compares };
}

/// A pass of the channel.
pub(crate) type Ticket = crossbeam_channel::Pass<Message, View>;

/// A sending end of the channel.
pub(crate) type Sender<A> = crossbeam_channel::RuledSender<Message, View, Law, A>;

/// The receiving end of the channel.
pub(crate) type Receiver<A> = crossbeam_channel::RuledReceiver<Message, View, Law, A>;
