//! What a capture begins with.
ghost use Rattle.std.specs.Prelude.{◌≡◌, ◌≢◌, IfSome, None, length};
ghost use Rattle.message.specs.Header.{IsHeader, setting_bytes};
ghost use Rattle.message.specs.Version.{most_harts};
ghost use Rattle.message.specs.declared.header.Header.{Header as AnyHeader};

use crate::Message;
use byteorder::{ByteOrder, LittleEndian};
use payload::Mode;

/// The most harts of a capture, and of the logs of one command.
pub const MOST_HARTS: u16 = 1024;

/// The most logs, one of each hart, that a capture with no header is made of.
const MOST_HARTS_WITHOUT_HEADER: u16 = 64;

/// A version of the format of captures.
#[derive(Clone, Copy, Debug, PartialEq, Eq)]
pub enum Version {
    /// Messages alone. Such a capture is made of the logs of at most 64 harts.
    One,
    /// A header and then messages. Such a capture is made of the logs of at most 1,024 harts.
    Two,
}

impl Version {
    /// The most logs, one of each hart, that a capture of this version is made of.
    pub fn most_harts(self) -> u16
        ensures { result ≡ most_harts self }
    {
        match self {
            Version::One => MOST_HARTS_WITHOUT_HEADER,
            Version::Two => MOST_HARTS,
        }
    }
}

/// The header of a capture of version 2: what holds for all its messages.
#[derive(Clone, Copy, PartialEq, Eq)]
pub struct Header {
    /// What the address fields of the packets hold.
    pub mode: Mode,
    /// How many retirements there are from one periodic synchronisation to the next, 1 to 65535.
    pub period: u16,
    /// How many harts there are, 1 to 1024. The harts of the messages are numbered below it.
    pub harts: u16,
}

/// What a capture begins with.
#[derive(PartialEq, Eq, Drop)]
pub enum Start {
    /// The header of a capture of version 2; its messages follow.
    Version2(Header),
    /// The first message of a capture of version 1, or none where there are no bytes at all.
    Version1(Option<Message>),
}

/// How many bytes the header of a capture of version 2 takes.
pub const HEADER_SIZE: usize = 16;

/// The bytes with which a capture of version 2 begins.
pub(crate) const MARK: [u8; 11] = *b"\xff\xffrvtrace2\0";

/// How many bytes of a header follow the mark.
pub(crate) const SETTINGS: usize = 5;

/// The header whose settings these bytes are, if they are those of one.
pub(crate) fn header_of(settings: &[u8]) -> Option<Header>
    requires { length settings.now ≡ 5 }
    ensures found { IfSome result (λ header. IsHeader header × (setting_bytes header ≡ settings.now)) }
    ensures none { result ≡ None → (header : AnyHeader) → IsHeader header → setting_bytes header ≢ settings.now }
{
    let mode = match settings[0] {
        0 => Mode::Differential,
        1 => Mode::Full,
        _ => return None,
    };
    let period = LittleEndian::read_u16(&settings[1..]);
    let harts = LittleEndian::read_u16(&settings[3..]);
    if period == 0 || harts == 0 || harts > MOST_HARTS {
        return None;
    }
    Some(Header {
        mode,
        period,
        harts,
    })
}

/// The bytes of a header after the mark.
pub(crate) fn settings_of(header: &Header) -> [u8; SETTINGS]
    ensures { result ≡ setting_bytes header.now }
{
    let mut settings = [0; SETTINGS];
    settings[0] = match header.mode {
        Mode::Differential => 0,
        Mode::Full => 1,
    };
    LittleEndian::write_u16(&mut settings[1..], header.period);
    LittleEndian::write_u16(&mut settings[3..], header.harts);
    settings
}
