//! What is done with a message.

use crate::reason::Reason;

/// How many events a message adds to the log of its hart, and where the first and the last of them are.
#[derive(Clone, Copy, PartialEq, Eq)]
pub struct Added {
    /// How many events.
    pub count: usize,
    /// The place of the first; 0 where there is none.
    pub first: u64,
    /// The place of the last; 0 where there is none.
    pub last: u64,
}

/// What is done with a message, by the first of these that applies.
#[derive(Clone, Copy, PartialEq, Eq)]
pub enum Treatment {
    /// It is a stranger: its hart is not known, or its number is 2^63 or more.
    Stranger,
    /// It is a copy: an earlier message of its hart has the same number and the same payload.
    Copy,
    /// Its number is doubtful: two payloads came with it.
    Doubtful,
    /// It is bad, for this reason.
    Bad(Reason),
    /// It stands alone, above the end of its hart.
    Alone,
    /// It is passed over, since a synchronisation is looked for.
    Passed,
    /// It is decoded, and adds these events.
    Taken(Added),
}

/// What is done with a message, and whether it is far or late.
#[derive(Clone, Copy, PartialEq, Eq)]
pub struct Treated {
    /// What is done with it.
    pub treatment: Treatment,
    /// Whether it is decoded or passed over, and its number is far ([`far_numbers`](crate::far_numbers)).
    pub far: bool,
    /// Whether it is late: it is used, and neither bad, alone nor far, and an earlier message of its hart of which this is
    /// true has a greater number. A message is used if it is the first with its number and no other payload came with that
    /// number. So a stranger, a copy or a message of a doubtful number is never late.
    pub late: bool,
}
