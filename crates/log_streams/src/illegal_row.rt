//! An illegal row of a log.

use legalpath::PathFault;
use retire::Event;

/// The first illegal row of a log, and what it follows.
#[derive(Clone, Copy)]
pub struct IllegalRow {
    /// The number of the row, and why it is illegal.
    pub fault: PathFault,
    /// The event of the row before, if there is one.
    pub before: Option<Event>,
    /// The event of the row.
    pub event: Event,
}
