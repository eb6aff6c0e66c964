//! Headers of captures and their bytes.

ghost use Rattle.std.specs.Prelude.{◌≡◌, ◌≢◌, ◌++◌, ℕ, IfSome, List, None, length};
ghost use Rattle.byteorder.specs.Endian.{little_bytes};
ghost use Rattle.message.specs.Header.{IsHeader, header_bytes, setting_bytes};
ghost use Rattle.message.specs.declared.header.Header.{Header as AnyHeader};
ghost use Rattle.ffi.specs.Handed.{IsHandedOut};
ghost use Rattle.ffi.specs.Sending.{IsHeaderRead, numbers_of_header};
ghost use Rattle.ffi.specs.declared.status.TheConstants.{DONE, OUT_OF_RANGE};

use crate::dumping::message_status;
use crate::encoding::mode_of;
use crate::handing::hand_out_both;
use crate::numbers::{DIFFERENTIAL, FULL, number_of_mode};
use crate::status::{DONE, OUT_OF_RANGE};
use byteorder::{ByteOrder, LittleEndian};
use message::{HEADER_SIZE, Header, MOST_HARTS, Messages};
use payload::Mode;

/// A header in numbers.
#[repr(C)]
#[derive(Clone, Copy)]
pub struct HeaderNumbers {
    /// What the address fields of the packets hold: [`DIFFERENTIAL`] or [`FULL`].
    pub mode: u32,
    /// How many retirements there are from one periodic synchronisation to the next, 1 or more.
    pub period: u16,
    /// How many harts there are, 1 to 1,024.
    pub harts: u16,
}

/// What the bytes of a header begin with.
const MARK: [u8; 11] = *b"\xff\xffrvtrace2\0";

/// Writes the 16 bytes of a header to a buffer.
///
/// The status is [`DONE`], [`TOO_SMALL`](crate::status::TOO_SMALL), or [`OUT_OF_RANGE`] where a number of the header is
/// out of its range; that writes nothing. No memory is taken.
pub fn tracebench_write_header(header: &HeaderNumbers, buffer: &mut [u8], wanted: &mut u64) -> u32
    ensures written { (own : AnyHeader) → IsHeader own → header.now ≡ numbers_of_header own
        → IsHandedOut (header_bytes own) result wanted.new buffer.old buffer.new }
    ensures refused { ((own : AnyHeader) → IsHeader own → header.now ≢ numbers_of_header own)
        → (result ≡ OUT_OF_RANGE) × (wanted.new ≡ wanted.old) × (buffer.new ≡ buffer.old) }
{
    match header_in(header) {
        Some(own) => hand_out_both(&MARK, &settings_of(&own), buffer, wanted),
        None => OUT_OF_RANGE,
    }
}

/// The header that has these numbers, if they are in their ranges.
fn header_in(numbers: &HeaderNumbers) -> Option<Header>
    ensures some { IfSome result (λ header. IsHeader header × (numbers.now ≡ numbers_of_header header)) }
    ensures none { result ≡ None → (header : AnyHeader) → IsHeader header → numbers.now ≢ numbers_of_header header }
{
    let Some(mode) = mode_of(numbers.mode) else {
        return None;
    };
    if numbers.period == 0 || numbers.harts == 0 || numbers.harts > MOST_HARTS {
        return None;
    }
    Some(Header {
        mode,
        period: numbers.period,
        harts: numbers.harts,
    })
}

/// The bytes of a header after the mark.
fn settings_of(header: &Header) -> [u8; 5]
    ensures { result ≡ setting_bytes header.now }
{
    let mut settings = [0; 5];
    settings[0] = match header.mode {
        Mode::Differential => 0,
        Mode::Full => 1,
    };
    LittleEndian::write_u16(&mut settings[1..], header.period);
    LittleEndian::write_u16(&mut settings[3..], header.harts);
    settings
}

/// Writes the numbers of the header that bytes begin with. `taken` is 16, which is how many of the bytes are the
/// header's, or 0 where there is none.
///
/// The status is [`DONE`], also where the bytes do not begin as a capture of version 2 does,
/// [`SHORT`](crate::status::SHORT) where they end inside the header, or [`BAD_HEADER`](crate::status::BAD_HEADER) where
/// its mode, its period or its count of harts is out of range. Only a header is written. No memory is taken.
pub fn tracebench_read_header(bytes: &[u8], header: &mut HeaderNumbers, taken: &mut u64) -> u32
    ensures read { IsHeaderRead bytes.now result taken.new header.old header.new }
    ensures reads_back { (sent : AnyHeader) (rest : List ℕ) → IsHeader sent → bytes.now ≡ header_bytes sent ++ rest
        → (result ≡ DONE) × (taken.new ≡ length (header_bytes sent)) × (header.new ≡ numbers_of_header sent) }
{
    *taken = 0;
    match Messages::new(bytes).header() {
        Ok(Some(found)) => {
            *taken = HEADER_SIZE as u64;
            *header = numbers_of_header(&found);
            DONE
        }
        Ok(None) => DONE,
        Err(why) => message_status(why),
    }
}

/// The numbers of a header.
pub(crate) fn numbers_of_header(header: &Header) -> HeaderNumbers
    ensures { result ≡ numbers_of_header header.now }
{
    HeaderNumbers {
        mode: number_of_mode(header.mode),
        period: header.period,
        harts: header.harts,
    }
}
