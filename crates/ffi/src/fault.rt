//! Why a call gives no answer.

ghost use Rattle.std.specs.Prelude.{◌≡◌, ◌≤◌};
ghost use Rattle.ffi.specs.Statuses.{fault_row, fault_status, image_status, line_hart_status, line_status, log_row};
ghost use Rattle.ffi.specs.Statuses.{log_status, piece_status, program_status, symbols_status, why_status};
ghost use Rattle.ffi.specs.declared.fault.Fault.TheVariants.{Memory, Log, Illegal};
ghost use Rattle.ffi.specs.declared.status.TheConstants.{OFF_PROGRAM};

use crate::decoding::decode_status;
use crate::packing::pack_status;
use crate::status::*;
use captures::LineFault;
use decoder::DecodeFault;
use legalpath::{PathFault, Why};
use message::Version;
use payload::PackFault;
use retire::LogFault;
use rvclass::{PieceFault, ProgramFault};
use std::alloc::AllocError;
use symbols::SymbolsFault;

/// Why an image makes no program.
#[derive(Clone, Copy)]
pub enum ImageFault {
    /// The image, or the first piece of one, makes none.
    First(ProgramFault),
    /// A piece is not added to those before it. Want of memory is [`ImageFault::Memory`].
    Piece(PieceFault),
    /// A piece's base is below that of the piece before it.
    NotSorted,
    /// An allocation failed.
    Memory,
}

impl ImageFault {
    /// The fault as a status.
    pub(crate) fn status(self) -> u32
        ensures { result ≡ image_status self }
    {
        match self {
            ImageFault::First(why) => program_status(why),
            ImageFault::Piece(why) => piece_status(why),
            ImageFault::NotSorted => NOT_SORTED,
            ImageFault::Memory => MEMORY,
        }
    }
}

/// Why a call gives no answer.
#[derive(Clone, Copy)]
pub enum Fault {
    /// An allocation failed.
    Memory,
    /// The image makes no program.
    NoProgram(ImageFault),
    /// The text is no log.
    Log(LogFault),
    /// The log is illegal.
    Illegal(PathFault),
    /// A number is out of its range.
    Range,
    /// A log ends before its beginning, or past the texts.
    Ends,
    /// There are more or fewer logs than harts.
    Count,
    /// The symbols are not read.
    Symbols(SymbolsFault),
    /// A line has a fault: its number, counted from 1, and what is wrong with it.
    Line(u64, LineFault),
    /// No event has the numbers of this row, counted from 1. The rows before it are a legal log.
    NoEvent(u64),
    /// No decoder has these numbers.
    State,
    /// The payload is that of no packet.
    Payload(PackFault),
    /// The decoder refuses the packet.
    Decode(DecodeFault),
}

impl From<AllocError> for Fault {
    ghost from_gives = { λ _ fault. fault ≡ Memory };

    fn from(_error: AllocError) -> Fault {
        Fault::Memory
    }
}

impl From<LogFault> for Fault {
    ghost from_gives = { λ why fault. fault ≡ Log why };

    fn from(why: LogFault) -> Fault {
        Fault::Log(why)
    }
}

impl From<PathFault> for Fault {
    ghost from_gives = { λ why fault. fault ≡ Illegal why };

    fn from(why: PathFault) -> Fault {
        Fault::Illegal(why)
    }
}

impl Fault {
    /// The fault as a status.
    pub(crate) fn status(self) -> u32
        ensures { result ≡ fault_status self }
    {
        match self {
            Fault::Memory => MEMORY,
            Fault::NoProgram(why) => why.status(),
            Fault::Log(why) => log_status(why),
            Fault::Illegal(why) => why_status(why.why),
            Fault::Range => OUT_OF_RANGE,
            Fault::Ends => BAD_ENDS,
            Fault::Count => UNEQUAL_COUNTS,
            Fault::Symbols(why) => symbols_status(why),
            Fault::Line(_, why) => line_status(why),
            Fault::NoEvent(_) => NO_EVENT,
            Fault::State => BAD_STATE,
            Fault::Payload(why) => pack_status(why),
            Fault::Decode(why) => decode_status(why),
        }
    }

    /// The row or line that the fault names, counted from 1; 0 where it names none.
    pub(crate) fn row(self) -> u64
        ensures { result ≡ fault_row self }
    {
        match self {
            Fault::Log(why) => log_row(why),
            Fault::Illegal(why) => u64::from(why.row),
            Fault::Line(number, _) => number,
            Fault::NoEvent(row) => row,
            _ => 0,
        }
    }
}

/// Why bytes make no program.
fn program_status(why: ProgramFault) -> u32
    ensures { result ≡ program_status why }
{
    match why {
        ProgramFault::OddBase => ODD_BASE,
        ProgramFault::TooLarge => TOO_LARGE,
        ProgramFault::PastEnd => PAST_END,
    }
}

/// Why a piece is not added.
fn piece_status(why: PieceFault) -> u32
    ensures { result ≡ piece_status why }
{
    match why {
        PieceFault::OddBase => ODD_BASE,
        PieceFault::TooLarge => TOO_LARGE,
        PieceFault::PastEnd => PAST_END,
        PieceFault::Overlap => OVERLAP,
        PieceFault::TooMuch => TOO_MUCH,
        PieceFault::TooMany => TOO_MANY_PIECES,
        PieceFault::Memory => MEMORY,
    }
}

/// Why a text is no log.
fn log_status(why: LogFault) -> u32
    ensures { result ≡ log_status why }
{
    match why {
        LogFault::Header => WRONG_HEADER,
        LogFault::Fields(_) => WRONG_FIELDS,
        LogFault::Number(_) => NO_NUMBER,
        LogFault::Odd(_) => ODD_ADDRESS,
        LogFault::RowType(_) => WRONG_ROW_TYPE,
        LogFault::Privilege(_) => WRONG_ROW_PRIVILEGE,
        LogFault::Cause(_) => LARGE_CAUSE,
        LogFault::TrapFields(_) => WRONG_TRAP_FIELDS,
        LogFault::InterruptValue(_) => VALUED_INTERRUPT,
        LogFault::TooLong | LogFault::LongerThan(_) => TOO_MANY_ROWS,
        LogFault::Read => UNREAD,
        LogFault::Memory => MEMORY,
    }
}

/// The row that a fault of a text names.
fn log_row(why: LogFault) -> u64
    ensures { result ≡ log_row why }
{
    match why {
        LogFault::Fields(row) => u64::from(row),
        LogFault::Number(row) => u64::from(row),
        LogFault::Odd(row) => u64::from(row),
        LogFault::RowType(row) => u64::from(row),
        LogFault::Privilege(row) => u64::from(row),
        LogFault::Cause(row) => u64::from(row),
        LogFault::TrapFields(row) => u64::from(row),
        LogFault::InterruptValue(row) => u64::from(row),
        _ => 0,
    }
}

/// Why a row is illegal.
pub(crate) fn why_status(why: Why) -> u32
    ensures value { result ≡ why_status why }
    ensures above { OFF_PROGRAM ≤ result }
{
    match why {
        Why::OffProgram => OFF_PROGRAM,
        Why::NotRetirable => NOT_RETIRABLE,
        Why::WrongType => WRONG_TYPE,
        Why::WrongNext => WRONG_NEXT,
        Why::WrongPrivilege => WRONG_PRIVILEGE,
        Why::WrongEpc => WRONG_EPC,
    }
}

/// Why symbols are not read.
fn symbols_status(why: SymbolsFault) -> u32
    ensures { result ≡ symbols_status why }
{
    match why {
        SymbolsFault::TooLarge => SYMBOLS_TOO_LARGE,
        SymbolsFault::NoSymbol => NO_SYMBOL,
        SymbolsFault::Memory => MEMORY,
    }
}

/// What is wrong with a line, as a status.
fn line_status(why: LineFault) -> u32
    ensures { result ≡ line_status why }
{
    match why {
        LineFault::Fields => LINE_FIELDS,
        LineFault::Hart(version) => line_hart_status(version),
        LineFault::Number(_) => LINE_NUMBER,
        LineFault::Bytes => LINE_BYTES,
        LineFault::Above => LINE_ABOVE,
    }
}

/// A line's hart is not below the most harts of a version, as a status.
fn line_hart_status(version: Version) -> u32
    ensures { result ≡ line_hart_status version }
{
    match version {
        Version::One => LINE_HART_ONE,
        Version::Two => LINE_HART_TWO,
    }
}
