//! The classes of instructions.

/// How control goes on from an instruction, by its bits and its address alone. Targets are absolute addresses, modulo
/// 2^64.
#[derive(Clone, Copy, PartialEq, Eq)]
pub enum Class {
    /// On to the next instruction.
    Plain,
    /// Always to this address.
    Jump(u64),
    /// To this address if the branch is taken, else on to the next instruction.
    Branch(u64),
    /// To an address that a register holds.
    Uninferable,
    /// Back from a trap, to an address and a privilege that registers hold.
    TrapReturn(Return),
    /// Nowhere: the instruction raises an exception each time.
    NotRetirable,
}

/// The instructions that return from a trap (the Privileged Architecture, "Trap-Return
/// Instructions").
#[derive(Clone, Copy, PartialEq, Eq)]
pub enum Return {
    /// From a trap into M-mode.
    Mret,
    /// From a trap into S-mode.
    Sret,
}
