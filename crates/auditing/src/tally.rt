//! What became of the messages of a hart, counted.

/// What became of the messages of a hart.
#[derive(Clone, Copy, Debug)]
pub struct Tally {
    /// How many messages of the hart SENT has.
    pub sent: u64,
    /// How many messages of the hart RECEIVED has, strangers among them.
    pub came: u64,
    /// How many numbers of the hart are lost: no true message of RECEIVED has them.
    pub lost: u64,
    /// How many messages of the hart are repeats.
    pub repeated: u64,
    /// How many messages of the hart are late.
    pub late: u64,
    /// How many messages of the hart are changed.
    pub changed: u64,
    /// Whether the messages of the hart in RECEIVED are just those in SENT, in order.
    pub whole: bool,
}

/// How many messages of a hart came, and how many of them have each fate. A count of 2^64 - 1 stays.
#[derive(Clone, Copy)]
pub(crate) struct Counts {
    pub(crate) came: u64,
    pub(crate) strange: u64,
    pub(crate) changed: u64,
    pub(crate) repeated: u64,
    pub(crate) late: u64,
}

impl Counts {
    /// Before the first message.
    pub(crate) const NONE: Counts = Counts {
        came: 0,
        strange: 0,
        changed: 0,
        repeated: 0,
        late: 0,
    };
}
