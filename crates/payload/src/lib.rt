//! The packets of an instruction trace, and the payloads that carry them.
//!
//! [`pack`] gives the shortest payload of a packet, and [`unpack`] the packet of a payload's bytes. The fields of each
//! packet are those of the E-Trace specification's packet formats, with the widths of this project's profile. No call
//! takes memory.
//!
//! [`same`] says whether the payload that came is the one that was sent, by their bytes or by their packets, and
//! [`known`] gives the bytes that a payload is compared by.
#![tactic(auto)]

mod bits;
mod by;
mod comparing;
mod fault;
mod layout;
mod mode;
mod outcomes;
mod packet;
mod packing;
mod payload;
mod spelling;
mod unpacking;

pub use by::By;
pub use comparing::{known, same};
pub use fault::PackFault;
pub use mode::Mode;
pub use outcomes::{MOST_OUTCOMES, Outcomes};
pub use packet::{Packet, Report, Support};
pub use packing::pack;
pub use payload::{MOST_BYTES, Payload};
pub use unpacking::unpack;
