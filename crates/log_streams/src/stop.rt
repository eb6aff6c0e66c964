//! Why nothing is made of a log.

use legalpath::PathFault;
use retire::LogFault;

/// Why nothing is made of a log.
#[derive(Clone, Copy)]
pub enum Stop {
    /// The log was not read to its end. [`LogFault::Read`] says that the file was not opened or not read to its end.
    Unread(LogFault),
    /// The log is not legal for the program: its first illegal row.
    Illegal(PathFault),
}
