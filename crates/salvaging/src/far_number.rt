//! A far number of a hart.

/// What is done with the message of a far number.
#[derive(Clone, Copy)]
pub enum FarTreatment {
    /// It is decoded.
    Taken,
    /// It is passed over, since a synchronisation is looked for.
    Passed,
    /// It is bad.
    Bad,
}

/// A far number: neither number beside it came, and it would make more messages late than the hart's own reordering
/// explains ([`far_numbers`](crate::far_numbers)). The head of its message is probably damaged.
#[derive(Clone, Copy)]
pub struct FarNumber {
    /// The number.
    pub number: u64,
    /// The place of its first message among the messages of the hart, as of a bad one.
    pub place: usize,
    /// What is done with that message.
    pub treatment: FarTreatment,
}
