//! How logs go through the funnel.

use payload::Mode;

/// How logs go through the funnel.
#[derive(Clone, Copy)]
pub struct Config {
    /// A synchronisation is sent at each retirement whose number, counted from 0, is a multiple of this. It is 1 or
    /// more.
    pub period: u16,
    /// Whether packets report addresses by differences or in full.
    pub mode: Mode,
    /// How many messages the funnel holds: 1 to 65,536.
    pub capacity: u32,
    /// Whether outcomes hold the packets.
    pub keep: bool,
}
