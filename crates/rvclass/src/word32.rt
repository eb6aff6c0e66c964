//! The classes of 32-bit instructions.

ghost use Rattle.std.specs.Prelude.{◌≡◌};
ghost use Rattle.rvclass.specs.Word32.{class32};

use crate::bits::{bits_of, target};
use crate::class::{Class, Return};
use crate::offset::{b_offset_of, i_offset_of, j_offset_of};

/// The opcode of JAL.
const JAL: u32 = 0b110_1111;

/// The opcode of JALR.
const JALR: u32 = 0b110_0111;

/// The opcode of conditional branches.
const BRANCH: u32 = 0b110_0011;

/// The opcode of ECALL, EBREAK and returns from traps.
const SYSTEM: u32 = 0b111_0011;

/// The instruction ECALL.
const ECALL: u32 = 0x0000_0073;

/// The instruction EBREAK.
const EBREAK: u32 = 0x0010_0073;

/// The instruction SRET.
const SRET: u32 = 0x1020_0073;

/// The instruction MRET.
const MRET: u32 = 0x3020_0073;

/// The class of a 32-bit instruction at an address.
#[inline(always)]
#[tactic(auto, unfolding(crate::specs::Word32::class32))]
pub(crate) fn class_of_word32(addr: u64, word: u32) -> Class
    ensures { result ≡ class32 addr word }
{
    let funct3 = bits_of(word, 14, 12);
    match bits_of(word, 6, 0) {
        JAL => Class::Jump(target(addr, j_offset_of(word), 21)),
        JALR if funct3 == 0 && bits_of(word, 19, 15) == 0 => {
            Class::Jump(target(0, i_offset_of(word), 12))
        }
        JALR if funct3 == 0 => Class::Uninferable,
        BRANCH if !matches!(funct3, 2 | 3) => Class::Branch(target(addr, b_offset_of(word), 13)),
        SYSTEM => match word {
            ECALL | EBREAK => Class::NotRetirable,
            SRET => Class::TrapReturn(Return::Sret),
            MRET => Class::TrapReturn(Return::Mret),
            _ => Class::Plain,
        },
        _ => Class::Plain,
    }
}
