//! What an audit reports.

use command_inputs::Format;
use message::HartRange;

/// What is reported of RECEIVED.
#[derive(Clone, Copy)]
pub(crate) struct Report {
    /// As lines of text or as a table.
    pub(crate) format: Format,
    /// The harts that are asked for.
    pub(crate) harts: HartRange,
    /// Whether messages, runs of bytes and runs of lost numbers have no rows.
    pub(crate) summary: bool,
}
