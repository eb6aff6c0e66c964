//! The first fault of some logs.

use crate::stop::Stop;

/// The first fault of some logs, in their order.
#[derive(Clone, Copy)]
pub struct LogsFault<'a> {
    /// The path of the log.
    pub path: &'a str,
    /// Why nothing is made of it.
    pub why: Stop,
}
