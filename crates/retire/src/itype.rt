//! The types of events: the values of `itype`, as the E-Trace specification's "Instruction Trace Interface" numbers
//! them. `specs/Itype.antt` has the same names for the definitions.

/// The type of a retirement that is none of the others: a plain instruction, or an inferable jump, whose target the
/// program gives.
pub const ITYPE_OTHER: u8 = 0;

/// An exception.
pub(crate) const ITYPE_EXCEPTION: u8 = 1;

/// An interrupt.
pub(crate) const ITYPE_INTERRUPT: u8 = 2;

/// The type of a retirement of a return from a trap.
pub const ITYPE_TRAP_RETURN: u8 = 3;

/// The type of a retirement of a branch that was not taken.
pub const ITYPE_NOT_TAKEN: u8 = 4;

/// The type of a retirement of a branch that was taken.
pub const ITYPE_TAKEN: u8 = 5;

/// The type of a retirement of an uninferable jump: one to an address that a register holds.
pub const ITYPE_UNINFERABLE: u8 = 6;
