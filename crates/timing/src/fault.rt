//! Why nothing is measured.

use rvclass::ProgramFault;
use std::fmt;
use std::fmt::{Display, Write};
use std::io::ErrorKind;

/// Why nothing is measured.
#[derive(Clone, Copy)]
pub(crate) enum Fault {
    /// The arguments are not a base, an image and at least one log.
    Words,
    /// The image makes no program at the base.
    Image(ProgramFault),
    /// A log is not read, or not written.
    Log,
    /// A file or the clock is not read.
    Io(ErrorKind),
    /// An allocation failed.
    Memory,
}

impl Display for Fault {
    fn fmt<W: Write>(&self, f: &mut fmt::Formatter<W>) -> fmt::Result {
        match self {
            Fault::Words => f.write_str("usage: timing BASE IMAGE LOG..."),
            Fault::Image(fault) => Display::fmt(fault, f),
            Fault::Log => f.write_str("a log is refused"),
            Fault::Io(kind) => Display::fmt(kind, f),
            Fault::Memory => f.write_str("out of memory"),
        }
    }
}
