//! The parts of a capture: headers, messages and packets, and the version of the library.

ghost use Rattle.std.specs.Prelude.{◌++◌, ◌<◌, ◌≡◌, ◌≢◌, ◌≤◌, ℕ, List, length};
ghost use Rattle.ffi.specs.Handed.{IsHandedOut};
ghost use Rattle.ffi.specs.Numbers.{numbers_of};
ghost use Rattle.ffi.specs.OfLines.{ReportsOfLines, settings_named};
ghost use Rattle.ffi.specs.Packed.{IsUnpacked};
ghost use Rattle.ffi.specs.Sending.{IsHeaderRead, IsMessageRead, numbers_of_header, numbers_of_message};
ghost use Rattle.ffi.specs.VersionText.{version_text};
ghost use Rattle.ffi.specs.declared.status.TheConstants.{DONE, EMPTY, NO_PACKET, OUT_OF_RANGE, TOO_LONG};
ghost use Rattle.message.specs.Capture.{message_bytes};
ghost use Rattle.message.specs.Cut.{IsMessage};
ghost use Rattle.message.specs.Header.{IsHeader, header_bytes};
ghost use Rattle.message.specs.declared.header.Header.{Header as AnyHeader};
ghost use Rattle.message.specs.declared.message.Message.{Message as AnyMessage};
ghost use Rattle.payload.specs.Limits.{most_bytes};
ghost use Rattle.payload.specs.Profile.{InProfile};
ghost use Rattle.payload.specs.Reading.{reading};
ghost use Rattle.payload.specs.Spelling.{payload_of};
ghost use Rattle.payload.specs.declared.packet.Packet.{Packet as AnyPacket};

use ffi::{HeaderNumbers, MessageNumbers, PacketNumbers};
use std::alloc::Global;

/// Writes the 16 bytes of a header to a buffer. See [`ffi::tracebench_write_header`].
#[unsafe(no_mangle)]
pub extern "C" fn tracebench_write_header(
    header: &HeaderNumbers,
    buffer: &mut [u8],
    wanted: &mut u64,
) -> u32
    ensures written { (own : AnyHeader) → IsHeader own → header.now ≡ numbers_of_header own
        → IsHandedOut (header_bytes own) result wanted.new buffer.old buffer.new }
    ensures refused { ((own : AnyHeader) → IsHeader own → header.now ≢ numbers_of_header own)
        → (result ≡ OUT_OF_RANGE) × (wanted.new ≡ wanted.old) × (buffer.new ≡ buffer.old) }
{
    ffi::tracebench_write_header(header, buffer, wanted)
}

/// Writes the numbers of the header that bytes begin with. See [`ffi::tracebench_read_header`].
#[unsafe(no_mangle)]
pub extern "C" fn tracebench_read_header(
    bytes: &[u8],
    header: &mut HeaderNumbers,
    taken: &mut u64,
) -> u32
    ensures read { IsHeaderRead bytes.now result taken.new header.old header.new }
    ensures reads_back { (sent : AnyHeader) (rest : List ℕ) → IsHeader sent → bytes.now ≡ header_bytes sent ++ rest
        → (result ≡ DONE) × (taken.new ≡ length (header_bytes sent)) × (header.new ≡ numbers_of_header sent) }
{
    ffi::tracebench_read_header(bytes, header, taken)
}

/// Writes the bytes of a message to a buffer: at most 29 are wanted. See [`ffi::tracebench_write_message`].
#[unsafe(no_mangle)]
pub extern "C" fn tracebench_write_message(
    hart: u16,
    number: u64,
    payload: &[u8],
    buffer: &mut [u8],
    wanted: &mut u64,
) -> u32
    ensures written { 1 ≤ length payload.now → length payload.now ≤ most_bytes
        → IsHandedOut (message_bytes (record { hart = hart; number = number; payload = payload.now })) result wanted.new
        buffer.old buffer.new }
    ensures empty { length payload.now ≡ 0
        → (result ≡ EMPTY) × (wanted.new ≡ wanted.old) × (buffer.new ≡ buffer.old) }
    ensures too_long { most_bytes < length payload.now
        → (result ≡ TOO_LONG) × (wanted.new ≡ wanted.old) × (buffer.new ≡ buffer.old) }
{
    ffi::tracebench_write_message(hart, number, payload, buffer, wanted)
}

/// Writes the numbers of the message that bytes begin with. See [`ffi::tracebench_read_message`].
#[unsafe(no_mangle)]
pub extern "C" fn tracebench_read_message(
    bytes: &[u8],
    message: &mut MessageNumbers,
    taken: &mut u64,
) -> u32
    ensures read { IsMessageRead bytes.now result taken.new message.old message.new }
    ensures reads_back { (sent : AnyMessage) (rest : List ℕ) → IsMessage sent
        → bytes.now ≡ message_bytes sent ++ rest
        → (result ≡ DONE) × (taken.new ≡ length (message_bytes sent)) × (message.new ≡ numbers_of_message sent) }
{
    ffi::tracebench_read_message(bytes, message, taken)
}

/// Writes the shortest payload of the packet that has these numbers. See [`ffi::tracebench_pack`].
#[unsafe(no_mangle)]
pub extern "C" fn tracebench_pack(
    numbers: &PacketNumbers,
    buffer: &mut [u8],
    wanted: &mut u64,
) -> u32
    ensures packed { (packet : AnyPacket) → InProfile packet → numbers.now ≡ numbers_of packet
        → IsHandedOut (payload_of packet) result wanted.new buffer.old buffer.new }
    ensures refused { ((packet : AnyPacket) → InProfile packet → numbers.now ≢ numbers_of packet)
        → (result ≡ NO_PACKET) × (wanted.new ≡ wanted.old) × (buffer.new ≡ buffer.old) }
{
    ffi::tracebench_pack(numbers, buffer, wanted)
}

/// Writes the numbers of a payload's packet, whether it is the packet's shortest payload or longer. See
/// [`ffi::tracebench_unpack`].
#[unsafe(no_mangle)]
pub extern "C" fn tracebench_unpack(payload: &[u8], numbers: &mut PacketNumbers) -> u32
    ensures { IsUnpacked (reading payload.now) result numbers.old numbers.new }
{
    ffi::tracebench_unpack(payload, numbers)
}

/// Writes the capture of the lines of a text to a buffer. See [`ffi::tracebench_capture_of_lines`].
#[unsafe(no_mangle)]
pub extern "C" fn tracebench_capture_of_lines(
    alloc: Global,
    text: &[u8],
    version: u32,
    mode: u32,
    period: u16,
    harts: u16,
    numbers: u64,
    buffer: &mut [u8],
    wanted: &mut u64,
    line: &mut u64,
) -> u32
    ensures { ReportsOfLines (settings_named version mode period harts numbers) text.now result line.new wanted.old
        wanted.new buffer.old buffer.new }
{
    ffi::tracebench_capture_of_lines(
        alloc, text, version, mode, period, harts, numbers, buffer, wanted, line,
    )
}

/// Writes the version of the library as text, as 5 letters and with no 0 after them. See [`ffi::tracebench_version`].
#[unsafe(no_mangle)]
pub extern "C" fn tracebench_version(buffer: &mut [u8], wanted: &mut u64) -> u32
    ensures { IsHandedOut version_text result wanted.new buffer.old buffer.new }
{
    ffi::tracebench_version(buffer, wanted)
}
