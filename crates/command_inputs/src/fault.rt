//! Why a subcommand stops.

ghost use Rattle.std.specs.Prelude.{◌≡◌, List, ℕ, Some};
ghost use Rattle.command_inputs.specs.FaultText.{fault_text};
ghost use Rattle.command_inputs.specs.Faults.{file_fault, log_fault, map_own, piece_fault, status_of, stop_fault};
ghost use Rattle.command_inputs.specs.Faults.{symbols_fault, write_fault};
ghost use Rattle.command_inputs.specs.declared.fault.Fault.TheVariants as fault;

use crate::reason::Reason;
use crate::status::Status;
use legalpath::PathFault;
use log_streams::{FileFault, Stop};
use retire::{LogFault, WriteFault};
use rvclass::{PieceFault, ProgramFault};
use std::alloc::AllocError;
use std::fmt::Display;
use std::{fmt, io};
use symbols::SymbolsFault;

/// Why a subcommand stops. Its text is the error line without the program's name and the line's end.
///
/// `W` is what only some subcommands stop at: a reason of their own.
#[derive(Clone, Copy)]
pub enum Fault<'a, W> {
    /// The argument names no format.
    Format,
    /// The base, or that of a further piece, is not written as a number of a log is.
    Base,
    /// The argument of `--only` is no range of harts.
    Only,
    /// No log is given. A command line that `cli` reads leads to no such fault.
    NoLogs,
    /// More logs are given than this many, the most harts that there may be.
    ManyLogs(u16),
    /// The file at this path was not read.
    Unreadable(&'a str),
    /// The image makes no program at the base.
    Image(ProgramFault),
    /// The piece at this path is not added to the image.
    Piece(&'a str, PieceFault),
    /// The file at this path is no log.
    Log(&'a str, LogFault),
    /// The log at this path is not legal for the program.
    Illegal(&'a str, PathFault),
    /// The file at this path has no symbols that are read.
    Symbols(&'a str, SymbolsFault),
    /// A reason of the subcommand's own.
    Own(W),
    /// The output failed.
    Output,
    /// Allocation failed.
    Memory,
}

impl<'a, W> Fault<'a, W> {
    /// Why the file at a path has no content.
    pub fn of_file(path: &'a str, why: FileFault) -> Fault<'a, W>
        ensures { result ≡ file_fault path.entry why }
    {
        match why {
            FileFault::CannotRead => Fault::Unreadable(path),
            FileFault::Memory => Fault::Memory,
        }
    }

    /// Why the piece at a path is not added to the image.
    pub(crate) fn of_piece(path: &'a str, why: PieceFault) -> Fault<'a, W>
        ensures { result ≡ piece_fault path.entry why }
    {
        match why {
            PieceFault::Memory => Fault::Memory,
            _ => Fault::Piece(path, why),
        }
    }

    /// Why the file at a path holds no log.
    pub(crate) fn of_log(path: &'a str, why: LogFault) -> Fault<'a, W>
        ensures { result ≡ log_fault path.entry why }
    {
        match why {
            LogFault::Read => Fault::Unreadable(path),
            LogFault::Memory => Fault::Memory,
            _ => Fault::Log(path, why),
        }
    }

    /// Why the symbols of the file at a path are not read.
    pub(crate) fn of_symbols(path: &'a str, why: SymbolsFault) -> Fault<'a, W>
        ensures { result ≡ symbols_fault path.entry why }
    {
        match why {
            SymbolsFault::Memory => Fault::Memory,
            SymbolsFault::TooLarge | SymbolsFault::NoSymbol => Fault::Symbols(path, why),
        }
    }

    /// Why nothing is made of the log at a path.
    pub fn of_stop(path: &'a str, why: Stop) -> Fault<'a, W>
        ensures { result ≡ stop_fault path.entry why }
    {
        match why {
            Stop::Unread(why) => Fault::of_log(path, why),
            Stop::Illegal(why) => Fault::Illegal(path, why),
        }
    }
}

impl<W: Reason> Fault<'_, W> {
    /// The status that a subcommand ends with at this fault.
    pub fn status(&self) -> Status
        ensures { result ≡ status_of W.status self.now }
    {
        match self {
            Fault::Format
            | Fault::Base
            | Fault::Only
            | Fault::NoLogs
            | Fault::ManyLogs(_)
            | Fault::Image(_)
            | Fault::Piece(..)
            | Fault::Log(..)
            | Fault::Illegal(..)
            | Fault::Symbols(..) => Status::Refused,
            Fault::Own(why) => why.status(),
            Fault::Unreadable(_) | Fault::Output | Fault::Memory => Status::Machine,
        }
    }
}

impl<W: Reason> fmt::Display for Fault<'_, W> {
    ghost output = { λ fault. Some (fault_text W.text fault) };

    fn fmt<O: fmt::Write>(&self, f: &mut fmt::Formatter<O>) -> fmt::Result {
        match self {
            Fault::Format => f.write_str("format is not text or csv"),
            Fault::Base => f.write_str("base is not a number"),
            Fault::Only => f.write_str("only is not a range of harts"),
            Fault::NoLogs => f.write_str("no logs"),
            Fault::ManyLogs(most) => write!(f, "more than {most} logs"),
            Fault::Unreadable(path) => write!(f, "{path}: cannot be read"),
            Fault::Image(why) => why.fmt(f),
            Fault::Piece(path, why) => match why {
                // That there are too many pieces is no fault of the file.
                PieceFault::TooMany => why.fmt(f),
                _ => write!(f, "{path}: {why}"),
            },
            Fault::Log(path, why) => write!(f, "{path}: {why}"),
            Fault::Illegal(path, why) => write!(f, "{path}: {why}"),
            Fault::Symbols(path, why) => write!(f, "{path}: {why}"),
            Fault::Own(why) => why.fmt(f),
            Fault::Output => f.write_str("output cannot be written"),
            Fault::Memory => f.write_str("out of memory"),
        }
    }
}

impl<W> From<ProgramFault> for Fault<'_, W> {
    ghost from_gives = { λ why made. made ≡ fault.Image why };

    fn from(why: ProgramFault) -> Self {
        Fault::Image(why)
    }
}

impl<W> From<AllocError> for Fault<'_, W> {
    ghost from_gives = { λ _ made. made ≡ fault.Memory };

    fn from(_: AllocError) -> Self {
        Fault::Memory
    }
}

/// Only the output has such errors. Each input has a fault of its own.
impl<W> From<io::Error> for Fault<'_, W> {
    ghost from_gives = { λ _ made. made ≡ fault.Output };

    fn from(_: io::Error) -> Self {
        Fault::Output
    }
}

impl<W> From<WriteFault> for Fault<'_, W> {
    ghost from_gives = { λ why made. made ≡ write_fault why };

    fn from(why: WriteFault) -> Self {
        match why {
            WriteFault::Write => Fault::Output,
            WriteFault::Memory => Fault::Memory,
        }
    }
}
