//! What was made of logs.

use crate::logs_fault::LogsFault;

/// What was made of logs, up to the first of which nothing was made.
#[derive(Drop)]
pub struct MadeLogs<'a, X> {
    /// What was made, in the order of the logs.
    pub made: Vec<X>,
    /// The fault of the next log, or that there is none.
    pub end: Result<(), LogsFault<'a>>,
}
