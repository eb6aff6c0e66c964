//! The instructions of a program's slots, as numbers.
//!
//! A slot is 4 bytes: one instruction of 4 bytes, or two of 2 bytes. Fields are those of the RISC-V Unprivileged ISA.
//! `from` is the number of the slot, and `bits` are 32 bits that were drawn for it.

ghost use Rattle.std.specs.Prelude.{◌≡◌, ◌<◌, ◌≤◌, ◌^◌};
ghost use Rattle.stimulus.specs.Slot as slot;

use crate::mix::Bounds;

/// How many slots a program has.
pub(crate) const SLOTS: u32 = 1024;

/// The word of the slot `from`, whose kind is chosen by `pick`, below 256.
#[tactic(auto, unfolding(crate::specs::Slot::slot_word))]
pub(crate) fn slot_word(bounds: &Bounds, from: u32, pick: u32, bits: u32) -> u32
    requires { from < 1024 }
    ensures { result ≡ slot.slot_word bounds.now from pick bits }
{
    if pick < bounds.short_plain {
        return pair(load(bits), load(bits / 2048));
    }
    if pick < bounds.plain {
        return add(bits);
    }
    if pick < bounds.branch {
        return branch(ahead(8192, from, bits % SLOTS), bits / 1024);
    }
    if pick < bounds.short_branch {
        let to = from / 4 * 4 + bits % 4;
        return pair(
            short_branch(ahead(512, from, to), bits / 64),
            load(bits / 2048),
        );
    }
    if pick < bounds.jump {
        return jump(ahead(2_097_152, from, bits % SLOTS), bits / 1024);
    }
    if pick < bounds.short_jump {
        let to = from / 512 * 512 + bits % 512;
        return pair(load(bits / 2048), short_jump(behind_half(from, to)));
    }
    if pick < bounds.computed {
        return computed(bits);
    }
    if pick < bounds.short_computed {
        return pair(load(bits / 2048), short_computed(bits));
    }
    if pick < bounds.mret {
        return 0x3020_0073;
    }
    if pick < bounds.sret {
        return 0x1020_0073;
    }
    0x0000_0073
}

/// How far ahead a slot is of another, in bytes, modulo a power of two.
#[tactic(auto, unfolding(crate::specs::Slot::ahead))]
fn ahead(modulus: u32, from: u32, to: u32) -> u32
    requires from { from < 1024 }
    requires to { to < 1024 }
    requires some { 512 ≤ modulus }
    requires few { modulus < 2 ^ 24 }
    ensures value { result ≡ slot.ahead modulus from to }
    ensures below { result < modulus }
{
    (4 * to + modulus * 8 - 4 * from) % modulus
}

/// The same from the second half of a slot, modulo 4096.
#[tactic(auto, unfolding(crate::specs::Slot::behind_half))]
fn behind_half(from: u32, to: u32) -> u32
    requires from { from < 1024 }
    requires to { to < 1024 }
    ensures value { result ≡ slot.behind_half from to }
    ensures below { result < 4096 }
{
    (4 * to + 4096 - 4 * from - 2) % 4096
}

/// Two instructions of 2 bytes.
#[tactic(auto, unfolding(crate::specs::Slot::pair))]
fn pair(low: u32, high: u32) -> u32
    requires low { low < 65536 }
    requires high { high < 65536 }
    ensures { result ≡ slot.pair low high }
{
    low + 65536 * high
}

/// C.LI, of any register and value.
#[tactic(auto, unfolding(crate::specs::Slot::load))]
fn load(bits: u32) -> u32
    ensures value { result ≡ slot.load bits }
    ensures below { result < 65536 }
{
    0x4001 + 4 * (bits % 2048)
}

/// ADDI, of any registers and value.
#[tactic(auto, unfolding(crate::specs::Slot::add))]
fn add(bits: u32) -> u32
    ensures { result ≡ slot.add bits }
{
    0x13 + 0x80 * (bits % 32) + 0x8000 * (bits / 32 % 131_072)
}

/// A conditional branch so far ahead, modulo 8192. All six conditions come.
#[tactic(auto, unfolding(crate::specs::Slot::branch))]
fn branch(far: u32, bits: u32) -> u32
    ensures { result ≡ slot.branch far bits }
{
    let kind = bits % 6;
    0x63 + 0x80 * (far / 2048 % 2)
        + 0x100 * (far / 2 % 16)
        + 0x1000 * (kind + 2 * ((kind + 4) / 6))
        + 0x8000 * (bits / 8 % 1024)
        + 0x200_0000 * (far / 32 % 64)
        + 0x8000_0000 * (far / 4096 % 2)
}

/// C.BEQZ or C.BNEZ so far ahead, modulo 512.
#[tactic(auto, unfolding(crate::specs::Slot::short_branch))]
fn short_branch(far: u32, bits: u32) -> u32
    ensures value { result ≡ slot.short_branch far bits }
    ensures below { result < 65536 }
{
    0xc001
        + 4 * (far / 32 % 2)
        + 8 * (far / 2 % 4)
        + 0x20 * (far / 64 % 4)
        + 0x80 * (bits % 8)
        + 0x400 * (far / 8 % 4)
        + 0x1000 * (far / 256 % 2)
        + 0x2000 * (bits / 8 % 2)
}

/// JAL so far ahead, modulo 2^21, with any link register.
#[tactic(auto, unfolding(crate::specs::Slot::jump))]
fn jump(far: u32, bits: u32) -> u32
    ensures { result ≡ slot.jump far bits }
{
    0x6f + 0x80 * (bits % 32)
        + 0x1000 * (far / 4096 % 256)
        + 0x10_0000 * (far / 2048 % 2)
        + 0x20_0000 * (far / 2 % 1024)
        + 0x8000_0000 * (far / 1_048_576 % 2)
}

/// C.J so far ahead, modulo 4096.
#[tactic(auto, unfolding(crate::specs::Slot::short_jump))]
fn short_jump(far: u32) -> u32
    ensures value { result ≡ slot.short_jump far }
    ensures below { result < 65536 }
{
    0xa001
        + 4 * (far / 32 % 2)
        + 8 * (far / 2 % 8)
        + 0x40 * (far / 128 % 2)
        + 0x80 * (far / 64 % 2)
        + 0x100 * (far / 1024 % 2)
        + 0x200 * (far / 256 % 4)
        + 0x800 * (far / 16 % 2)
        + 0x1000 * (far / 2048 % 2)
}

/// JALR through a register that is not 0, with any link register and offset.
#[tactic(auto, unfolding(crate::specs::Slot::computed))]
fn computed(bits: u32) -> u32
    ensures { result ≡ slot.computed bits }
{
    0x67 + 0x80 * (bits % 32) + 0x8000 * (1 + bits / 32 % 31) + 0x10_0000 * (bits / 1024 % 4096)
}

/// C.JR or C.JALR through a register that is not 0.
#[tactic(auto, unfolding(crate::specs::Slot::short_computed))]
fn short_computed(bits: u32) -> u32
    ensures value { result ≡ slot.short_computed bits }
    ensures below { result < 65536 }
{
    0x8002 + 0x80 * (1 + bits % 31) + 0x1000 * (bits / 32 % 2)
}
