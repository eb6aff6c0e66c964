//! What stands at an address.

/// What stands at an address and at those after it.
#[derive(Clone, Copy, PartialEq, Eq)]
pub enum Fetched {
    /// Four bytes, little endian, as a number below 2^32.
    Word(u32),
    /// Two bytes, but not four: little endian, as a number below 2^16.
    Half(u32),
    /// No two bytes.
    Nothing,
}
