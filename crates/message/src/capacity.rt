//! How many messages wait at once.

/// The most messages that may wait at once: a hart sent them, and they are not yet taken.
pub const MOST_CAPACITY: u32 = 65_536;
