//! What a packet says of what follows it.

ghost use Rattle.std.specs.Prelude.{◌≡◌};
ghost use Rattle.listing.specs.PacketEnding.{read_closes, read_waits};

use payload::{PackFault, Packet, Report};

/// Whether the packet that a payload unpacks to waits for the one that follows it.
pub fn read_waits(read: &Result<Packet, PackFault>) -> bool
    ensures { result ≡ read_waits read.now }
{
    matches!(
        read,
        Ok(Packet::Address {
            report: Report::Plain,
            ..
        })
    )
}

/// Whether the packet that a payload unpacks to closes a trace.
pub fn read_closes(read: &Result<Packet, PackFault>) -> bool
    ensures { result ≡ read_closes read.now }
{
    match read {
        Ok(packet) => packet.is_closing(),
        Err(_) => false,
    }
}
