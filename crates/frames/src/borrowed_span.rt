//! What came, where it is in the bytes.

/// A message whose payload is left where it is.
#[derive(Clone, Copy)]
pub struct BorrowedMessage<'a> {
    /// The hart whose trace the payload belongs to.
    pub hart: u16,
    /// How many payloads of that hart come before this one.
    pub number: u64,
    /// The bytes of one packet, 1 to 18 where the message is one that is taken.
    pub payload: &'a [u8],
}

/// What is at a place of the bytes that came, where it is in them. The offset counts from the first of all bytes, from
/// 0.
#[derive(Clone, Copy)]
pub enum BorrowedSpan<'a> {
    /// A message that is taken.
    Message {
        /// Where its first byte is.
        offset: usize,
        /// The message.
        message: BorrowedMessage<'a>,
    },
    /// A longest run of bytes that belong to no message that is taken.
    Bytes {
        /// Where the first of them is.
        offset: usize,
        /// How many there are, 1 or more.
        count: usize,
    },
}
