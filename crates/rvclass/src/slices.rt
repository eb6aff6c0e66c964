//! Bytes of one piece.

ghost use Rattle.std.specs.Prelude.{◌≡◌, ◌+◌, ◌-◌, ◌%◌, ◌^◌, ◌<◌, length, IfSome};
ghost use Rattle.rvclass.specs.Piece.{piece_at, byte_in};
ghost use Rattle.rvclass.specs.steps.Words.{half_from, word_from, word_in};

/// The byte of a piece at an address.
#[inline]
pub(crate) fn byte_of(base: u64, bytes: &[u8], addr: u64) -> Option<u8>
    requires { base + length bytes.now < 2 ^ 64 }
    ensures { result ≡ byte_in (piece_at base bytes.now) addr }
{
    // An address below the base wraps around to a place far after the piece.
    let place = addr.wrapping_sub(base);
    if place < bytes.len() as u64 {
        Some(bytes[place as usize])
    } else {
        None
    }
}

/// The 32 bits of a piece at an address, little endian. `windows` is the number of places from which there are four
/// bytes.
#[inline(always)]
pub(crate) fn word_of(base: u64, bytes: &[u8], windows: u64, addr: u64) -> Option<u32>
    requires below { base + length bytes.now < 2 ^ 64 }
    requires windows { windows ≡ length bytes.now - 3 }
    ensures word { result ≡ word_in (piece_at base bytes.now) addr }
    ensures low { IfSome result (λ word. word % 2 ^ 16 ≡ half_from bytes.now (addr - base)) }
{
    let place = addr.wrapping_sub(base);
    if place < windows {
        Some(word_from(bytes, place as usize))
    } else {
        None
    }
}

/// The 32 bits at a place, little endian.
#[inline(always)]
fn word_from(bytes: &[u8], place: usize) -> u32
    requires { place + 3 < length bytes.now }
    ensures value { result ≡ word_from bytes.now place }
    ensures low { result % 2 ^ 16 ≡ half_from bytes.now place }
{
    half_from(bytes, place) + (half_from(bytes, place + 2) << 16)
}

/// The 16 bits at a place, little endian.
#[inline(always)]
fn half_from(bytes: &[u8], place: usize) -> u32
    requires { place + 1 < length bytes.now }
    ensures value { result ≡ half_from bytes.now place }
    ensures below { result < 2 ^ 16 }
{
    u32::from(bytes[place]) + (u32::from(bytes[place + 1]) << 8)
}
