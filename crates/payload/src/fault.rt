//! Why bytes are no payload.

ghost use Rattle.std.specs.Prelude.{Some};
ghost use Rattle.payload.specs.FaultText.{pack_fault_text};

use std::error::Error;
use std::fmt;

/// Why bytes are no payload of a packet.
///
/// [`unpack`](crate::unpack) tests Empty, TooLong, Unsupported, BadPrivilege, BadReport and BadPad in this order.
#[derive(Clone, Copy, Debug, PartialEq, Eq)]
pub enum PackFault {
    /// There are no bytes.
    Empty,
    /// There are more than 18 bytes.
    TooLong,
    /// A bit past the packet differs from the packet's last bit.
    BadPad,
    /// The profile has no packet of this format, subformat, encoder mode, options or status.
    Unsupported,
    /// The privilege is 2, the reserved level.
    BadPrivilege,
    /// The bits notify, updiscon and irreport have values that no report has.
    BadReport,
}

impl fmt::Display for PackFault {
    ghost output = { λ fault. Some (pack_fault_text fault) };

    fn fmt<W: fmt::Write>(&self, f: &mut fmt::Formatter<W>) -> fmt::Result {
        f.write_str(match *self {
            PackFault::Empty => "Empty",
            PackFault::TooLong => "TooLong",
            PackFault::BadPad => "BadPad",
            PackFault::Unsupported => "Unsupported",
            PackFault::BadPrivilege => "BadPrivilege",
            PackFault::BadReport => "BadReport",
        })
    }
}

impl Error for PackFault {}
