//! Why a message is not received.

use decoder::DecodeFault;
use message::DemuxFault;
use thiserror::Error;

/// Why a message is not received.
#[derive(Clone, Copy, Debug, PartialEq, Eq, Error)]
pub enum ReceiveFault {
    /// The demultiplexer refuses the message.
    #[error("{0}")]
    Demux(DemuxFault),
    /// The packet of the message opens a trace in another mode than the one that was announced before.
    #[error("open of another mode")]
    Mode,
    /// The packet of the message is not decoded.
    #[error("{0}")]
    Decode(DecodeFault),
}
