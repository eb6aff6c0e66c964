//! What an audit of a path finds, in numbers.

ghost use Rattle.std.specs.Prelude.{◌≡◌};
ghost use Rattle.frames.specs.Borrowed.{message_of};
ghost use Rattle.ffi.specs.AuditedAll.{arrival_of, expected_at, row_reported, sent_place, sent_status, tally_reported};

use crate::decoding::demux_status;
use crate::dumping::message_status;
use crate::headers::HeaderNumbers;
use crate::status::MEMORY;
use auditing::{Finding, HartRow, SentFault, Tally};
use frames::BorrowedMessage;
use message::DemuxFault;

/// Payloads are compared by the packets that they unpack to, and not by their bytes.
pub const BY_PACKETS: u32 = 1;
/// The numbers of RECEIVED are not looked at: its messages are found and matched by their payloads.
pub const UNNUMBERED: u32 = 2;

/// The message is none of the others.
pub const FATE_IN_ORDER: u32 = 0;
/// An earlier true message of its hart has a greater number.
pub const FATE_LATE: u32 = 1;
/// An earlier true message has its hart and number.
pub const FATE_REPEAT: u32 = 2;
/// SENT has its hart and number with another payload.
pub const FATE_CHANGED: u32 = 3;
/// SENT has no message of its hart and number; with [`UNNUMBERED`] none of its hart.
pub const FATE_STRANGER: u32 = 4;
/// With [`UNNUMBERED`]: it is matched with no message of SENT.
pub const FATE_EXTRA: u32 = 5;

/// What became of the messages of a hart. What an audit of messages without numbers does not find is 0.
#[repr(C)]
#[derive(Clone, Copy)]
pub struct HartTally {
    /// How many messages of the hart SENT has.
    pub sent: u64,
    /// How many messages of the hart RECEIVED has, strangers among them.
    pub came: u64,
    /// How many numbers of the hart are lost: no true message of RECEIVED has them, or with [`UNNUMBERED`] none is
    /// matched with them.
    pub lost: u64,
    /// How many messages of the hart are repeats.
    pub repeated: u64,
    /// How many messages of the hart are late.
    pub late: u64,
    /// How many messages of the hart are changed.
    pub changed: u64,
    /// 1 where the messages of the hart in RECEIVED are just those in SENT, in order, and else 0.
    pub whole: u32,
}

/// What is found of a hart of SENT.
#[repr(C)]
#[derive(Clone, Copy)]
pub struct HartRowNumbers {
    /// What became of its messages.
    pub tally: HartTally,
    /// How many messages of the hart are strangers.
    pub strange: u64,
    /// How many messages of the hart are extra; 0 without [`UNNUMBERED`].
    pub extra: u64,
    /// In how many longest runs the lost numbers of the hart are.
    pub runs: u64,
    /// How many numbers the longest of these runs has, 0 where none is lost.
    pub longest: u64,
    /// The most by which a message of the hart is late, 0 where none is.
    pub latest: u64,
    /// How many messages of the hart that are not true are another hart's, where these are 8 at least and more than half,
    /// and else 0.
    pub exchanged: u64,
    /// The other hart, 0 where there is none.
    pub exchanged_hart: u64,
}

/// A message of RECEIVED that is taken, and what became of it.
#[repr(C)]
#[derive(Clone, Copy)]
pub struct Arrival {
    /// The message's number; with [`UNNUMBERED`] that of SENT which it is matched with, or 0.
    pub number: u64,
    /// By how much a late message is late, or how many numbers a message in order skips; 0 for the others.
    pub by: u64,
    /// Where its first byte is in RECEIVED, counted from 0.
    pub offset: u64,
    /// What became of it: [`FATE_IN_ORDER`] to [`FATE_EXTRA`].
    pub fate: u32,
    /// The message's hart.
    pub hart: u16,
}

/// A longest run of numbers of a hart that were lost.
#[repr(C)]
#[derive(Clone, Copy)]
pub struct LostRun {
    /// The first of the numbers.
    pub first: u64,
    /// The last of the numbers.
    pub last: u64,
    /// The hart.
    pub hart: u64,
}

/// A longest run of bytes of RECEIVED that are of no message.
#[repr(C)]
#[derive(Clone, Copy)]
pub struct ByteRun {
    /// Where the first of them is, counted from 0.
    pub offset: u64,
    /// How many there are, 1 or more.
    pub count: u64,
}

/// The message of SENT that is refused.
#[repr(C)]
#[derive(Clone, Copy)]
pub struct SentPlace {
    /// The message, counted from 0; 0 where the header is refused, or an allocation failed.
    pub message: u64,
    /// With [`GAP`](crate::status::GAP) the number that is expected in place of the message's; 0 else.
    pub expected: u64,
}

/// What is found of a path, beside its harts and its messages.
#[repr(C)]
#[derive(Clone, Copy)]
pub struct PathEnd {
    /// How many harts SENT has.
    pub harts: u64,
    /// How many messages of RECEIVED are taken.
    pub messages: u64,
    /// How many longest runs of numbers were lost, of all harts.
    pub lost_runs: u64,
    /// How many longest runs of bytes are of no message.
    pub byte_runs: u64,
    /// How many bytes these have.
    pub bytes: u64,
    /// How many strangers came, of whatever hart.
    pub strangers: u64,
    /// The place of the first message that is not in order or skips a number, counted from 0; 0 where there is none.
    pub first: u64,
    /// The header of SENT; all 0 where it has none.
    pub sent_header: HeaderNumbers,
    /// The header of RECEIVED; all 0 where it has none that is valid.
    pub received_header: HeaderNumbers,
    /// 1 where SENT has a header, and else 0.
    pub has_sent_header: u32,
    /// 1 where RECEIVED has a valid header, and else 0.
    pub has_received_header: u32,
    /// Why RECEIVED has none, as a status, where it begins as a capture of version 2 does; 0 else.
    pub header_fault: u32,
    /// 1 where the headers differ, or SENT has one and that of RECEIVED is cut or not valid; and else 0.
    pub headers_differ: u32,
    /// 1 where some message is not in order or skips a number, and else 0.
    pub has_first: u32,
    /// 1 where the path is whole, and else 0.
    pub whole: u32,
}

/// What is found of a hart, in numbers.
pub(crate) fn row_reported(row: HartRow) -> HartRowNumbers
    ensures { result ≡ row_reported row }
{
    let tally = tally_reported(row.tally);
    let (exchanged, exchanged_hart) = match row.exchanged {
        Some(its) => (its.count, its.hart as u64),
        None => (0, 0),
    };
    HartRowNumbers {
        tally,
        strange: row.strange,
        extra: 0,
        runs: row.runs,
        longest: row.longest,
        latest: row.latest,
        exchanged,
        exchanged_hart,
    }
}

/// A message at this offset, of which this is found.
pub(crate) fn arrival_of(offset: u64, message: BorrowedMessage<'_>, finding: Finding) -> Arrival
    ensures { result ≡ arrival_of offset (message_of message.entry) finding }
{
    let (fate, by) = match finding {
        Finding::Stranger => (FATE_STRANGER, 0),
        Finding::Changed => (FATE_CHANGED, 0),
        Finding::Repeat => (FATE_REPEAT, 0),
        Finding::Late { by } => (FATE_LATE, by),
        Finding::InOrder { skips } => (FATE_IN_ORDER, skips),
    };
    Arrival {
        number: message.number,
        by,
        offset,
        fate,
        hart: message.hart,
    }
}

/// The message of SENT that is refused, and the number that is expected in its place.
pub(crate) fn sent_place(why: SentFault) -> SentPlace
    ensures { result ≡ sent_place why }
{
    let (message, expected) = match why {
        SentFault::Unread(message, _) => (message, 0),
        SentFault::Misplaced(message, why) => (message, expected_at(why)),
        SentFault::Memory => (0, 0),
    };
    SentPlace { message, expected }
}

/// The number that is expected in place of a gap; 0 where there is none.
fn expected_at(why: DemuxFault) -> u64
    ensures { result ≡ expected_at why }
{
    match why {
        DemuxFault::Gap { expected } => expected,
        _ => 0,
    }
}

/// A tally in numbers.
fn tally_reported(tally: Tally) -> HartTally
    ensures { result ≡ tally_reported tally }
{
    HartTally {
        sent: tally.sent,
        came: tally.came,
        lost: tally.lost,
        repeated: tally.repeated,
        late: tally.late,
        changed: tally.changed,
        whole: u32::from(tally.whole),
    }
}

/// Why SENT is refused, as a status.
pub(crate) fn sent_status(why: SentFault) -> u32
    ensures { result ≡ sent_status why }
{
    match why {
        SentFault::Unread(_, why) => message_status(why),
        SentFault::Misplaced(_, why) => demux_status(why),
        SentFault::Memory => MEMORY,
    }
}
