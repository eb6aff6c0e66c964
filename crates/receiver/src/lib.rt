//! The receiving end of several harts: from their messages to the events of each.
//!
//! A [`Receiver`] splits messages by hart and decodes each hart's, in two calls. [`Receiver::accept`] returns the
//! packet of a message that is the next of its hart. [`Receiver::decode`] adds to the hart's list the events that the
//! packet settles, with the program that the caller hands in. [`Receiver::receive`] is both. Only [`Receiver::new`]
//! takes memory of its own; [`Receiver::decode`] and [`Receiver::reserve`] allocate memory for events in the hart's
//! list.
#![tactic(auto)]

mod fault;
mod receiving;

pub use fault::ReceiveFault;
pub use receiving::{Receiver, opens_another};
