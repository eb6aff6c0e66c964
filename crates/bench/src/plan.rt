//! What a run is over.

use crate::config::Config;
use legalpath::LegalLog;

/// What a run is over: the logs, how they go through the funnel, what the caller does round each send, and the runtime
/// of the threads.
#[derive(Drop)]
pub(crate) struct Plan<'s, G, R> {
    pub(crate) logs: &'s [LegalLog<'s>],
    pub(crate) config: Config,
    pub(crate) gate: &'s G,
    pub(crate) rt: &'s R,
}
