//! Instructions with their bits.

use crate::class::Class;

/// An instruction of a program: its bits, and how control goes on from it.
#[derive(Clone, Copy)]
pub struct Instruction {
    /// The bits, as a number below 2^16 or 2^32 by the length.
    pub code: u32,
    /// The length in bytes, 2 or 4.
    pub length: u8,
    /// How control goes on.
    pub class: Class,
}
