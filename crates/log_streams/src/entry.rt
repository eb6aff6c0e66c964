//! What was made of a log.

use crate::stop::Stop;

/// What was made of the log at a place, or why nothing was.
#[derive(Drop)]
pub(crate) struct Entry<X> {
    pub(crate) place: usize,
    pub(crate) made: Result<X, Stop>,
}
