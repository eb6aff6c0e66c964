//! What is to be said of a message of RECEIVED.

/// What is to be said of a message of RECEIVED, at this place, counted from 0 over all harts.
#[derive(Clone, Copy, Debug, PartialEq, Eq)]
pub enum Line {
    /// SENT has no message of its hart.
    Stranger {
        /// The place.
        place: u64,
        /// The hart.
        hart: u16,
    },
    /// It is matched with no message of SENT.
    Extra {
        /// The place.
        place: u64,
        /// The hart.
        hart: u16,
    },
    /// It is matched, and numbers before it are lost.
    Skips {
        /// The place.
        place: u64,
        /// The hart.
        hart: u16,
        /// The number of SENT that it is matched with.
        number: u64,
        /// How many numbers there are between it and the last one matched before it, at least one.
        skips: u64,
    },
}
