//! Which frames are taken.

ghost use Rattle.std.specs.Prelude.{◌≡◌, ◌≤◌, ◌<◌, ◌-◌, ◌⊎◌, ℕ, true, false, length, drop};
ghost use Rattle.frames.specs.Taken.{has_firm_inside, is_firm, is_taken};
ghost use Rattle.frames.specs.Frame.{frame_size, is_frame};

use crate::frame::{begins_frame, frame_size};

/// Whether a frame begins the bytes after which they end or another frame begins.
fn is_firm(bytes: &[u8], known: u16) -> bool
    ensures { result ≡ is_firm (is_frame known) bytes.now }
{
    if !begins_frame(bytes, known) {
        return false;
    }
    let after = &bytes[frame_size(bytes)..];
    after.is_empty() || begins_frame(after, known)
}

/// Whether a firm frame begins inside the frame that begins the bytes.
#[inline(never)]
fn has_firm_inside(bytes: &[u8], known: u16) -> bool
    requires frame { frame_size bytes.now ≤ length bytes.now }
    ensures { result ≡ has_firm_inside (is_frame known) bytes.now }
{
    for at in 1..frame_size(bytes) {
        if is_firm(&bytes[at..], known) {
            return true;
        }
    }
    false
}

/// Whether a frame begins the bytes that is taken: it is firm, or no firm frame begins inside it.
#[inline(always)]
pub(crate) fn is_taken(bytes: &[u8], known: u16) -> bool
    ensures { result ≡ is_taken known bytes.now }
{
    begins_frame(bytes, known) && (is_firm(bytes, known) || !has_firm_inside(bytes, known))
}

/// How many bytes there are from the first one up to the next frame that is taken, or to the end. The first byte is one
/// of them, whatever begins there.
pub(crate) fn bytes_to_next(bytes: &[u8], known: u16) -> usize
    requires some { 1 ≤ length bytes.now }
    ensures some { 1 ≤ result }
    ensures within { result ≤ length bytes.now }
    ensures passed { (k : ℕ) → 1 ≤ k → k < result → is_taken known (drop k bytes.now) ≡ false }
    ensures next { (result ≡ length bytes.now) ⊎ (is_taken known (drop result bytes.now) ≡ true) }
{
    for at in 1..bytes.len() {
        if is_taken(&bytes[at..], known) {
            return at;
        }
    }
    bytes.len()
}
