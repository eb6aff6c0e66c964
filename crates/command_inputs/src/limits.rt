//! The limits of the numbers that arguments may ask for.

/// The fewest retirements from one periodic synchronisation to the next.
pub const SHORTEST_PERIOD: u16 = 1;

/// The most retirements from one periodic synchronisation to the next.
pub const LONGEST_PERIOD: u16 = 65535;

/// The greatest hart that the first of some logs may be of.
pub const GREATEST_FIRST: u16 = 1023;

/// The fewest low bits of a number that lines may have.
pub const FEWEST_NUMBER_BITS: u16 = 4;

/// The most low bits of a number that lines may have, where they have not the number itself.
pub const MOST_NUMBER_BITS: u16 = 32;

/// The most messages that a capture may be asked to have, but for those that close the traces.
pub const MOST_MESSAGES: u64 = 1 << 40;

/// The most messages of one hart that may be asked to come one after another.
pub const LONGEST_BURST: u16 = 65535;

/// The most messages that were sent that may be asked to be in view before the front, and after it.
pub const MOST_IN_VIEW: u64 = 16_777_216;

/// The most bytes of an image, or of a further piece of one.
pub(crate) const LARGEST_PIECE: usize = 16_777_216;

/// The fewest messages that the funnel may hold.
pub const SMALLEST_CAPACITY: u32 = 1;
