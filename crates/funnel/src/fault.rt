//! Why there is no funnel, why a payload is not sent, and why no message comes.

use payload::Payload;
use thiserror::Error;

/// Why a funnel is not opened. Where several apply, the first of them is returned.
#[derive(Clone, Copy, Debug, PartialEq, Eq, Error)]
pub enum OpenFault {
    /// There would be no hart.
    #[error("no harts")]
    NoHarts,
    /// There would be more harts than a funnel may have.
    #[error("too many harts")]
    TooManyHarts,
    /// The capacity is not 1 to 65,536 messages.
    #[error("capacity is not 1 to 65536")]
    Capacity,
    /// An allocation failed.
    #[error("out of memory")]
    Memory,
}

/// Why a payload is not sent. It is given back.
#[derive(Debug, PartialEq, Eq, Drop, Error)]
pub enum SendFault {
    /// The port sent a closing payload, or 2^32 messages.
    #[error("the port is closed")]
    Closed(Payload),
    /// The channel handed the message back, as it does once the outlet is dropped.
    #[error("the channel handed the message back")]
    HandedBack(Payload),
}

/// No message comes any more: the channel was empty and had no sending end.
#[derive(Clone, Copy, Debug, PartialEq, Eq, Error)]
#[error("the channel ended")]
pub struct Ended;
