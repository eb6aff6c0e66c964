//! Of which kind a packet is.

ghost use Rattle.std.specs.Prelude.{◌↔◌, IsTrue};
ghost use Rattle.decoder.specs.Order.{IsOpen};
ghost use Rattle.decoder.specs.Resuming.{IsSync};

use payload::{Packet, Support};

/// Whether a packet opens a trace.
pub(crate) fn is_open(packet: &Packet) -> bool
    ensures { IsTrue result ↔ IsOpen packet.now }
{
    matches!(packet, Packet::Support(Support::Open(_)))
}

/// Whether a packet is a synchronisation.
pub(crate) fn is_sync(packet: &Packet) -> bool
    ensures { IsTrue result ↔ IsSync packet.now }
{
    matches!(packet, Packet::Sync { .. })
}
