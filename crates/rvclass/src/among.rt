//! What stands at an address of the parts of a memory.

ghost use Rattle.std.specs.Prelude.{◌≡◌, IfSome};
ghost use Rattle.rvclass.specs.FetchedBytes.{byte_at};
ghost use Rattle.rvclass.specs.steps.Parts.{AreKept, AreSearchable, pieces_of};
ghost use Rattle.rvclass.specs.steps.Search.{HaveWord};

use crate::part::Part;
use crate::search::count_up_to;
use crate::slices::{byte_of, word_of};

/// The byte at an address.
pub(crate) fn byte_among(parts: &[Part<'_>], addr: u64) -> Option<u8>
    requires { AreSearchable parts.now }
    ensures { result ≡ byte_at (pieces_of parts.now) addr }
{
    let count = count_up_to(parts, addr);
    if count == 0 {
        return None;
    }
    let part = &parts[count - 1];
    byte_of(part.base, part.bytes.bytes(), addr)
}

/// The place of the last part whose base is at or below an address, or 0.
#[inline]
pub(crate) fn place_near(parts: &[Part<'_>], addr: u64) -> usize
    requires { AreKept parts.now }
{
    count_up_to(parts, addr).saturating_sub(1)
}

/// The 32 bits at an address, little endian, if the part at a place has all four bytes.
#[inline(always)]
pub(crate) fn word_near(parts: &[Part<'_>], near: usize, addr: u64) -> Option<u32>
    requires { AreSearchable parts.now }
    ensures { IfSome result (λ word. HaveWord (pieces_of parts.now) addr word) }
{
    if near >= parts.len() {
        return None;
    }
    let part = &parts[near];
    let bytes = part.bytes.bytes();
    word_of(part.base, bytes, bytes.len().saturating_sub(3) as u64, addr)
}
