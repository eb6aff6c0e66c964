//! Which messages are taken.

ghost use Rattle.std.specs.Prelude.{◌≡◌, ◌≤◌, ◌<◌, ◌⊎◌, ◌||◌, ℕ, false, true, length, drop};
ghost use Rattle.frames.specs.Frame.{frame_size, is_complete};
ghost use Rattle.frames.specs.GuidedTaken.{after, ends_or_begins, goes_on, is_counted_at, is_kept, is_known_at, is_sent_at};
ghost use Rattle.frames.specs.GuidedTaken.{is_taken_anywhere, is_taken_first};
ghost use Rattle.frames.specs.Taken.{has_firm_inside, is_firm, is_sure};

use crate::frame::frame_size;
use crate::sent::{Sent, Sight};
use crate::{message_in, message_size};

/// Whether bytes end, or begin with a complete message.
#[inline(always)]
fn ends_or_begins(bytes: &[u8]) -> bool
    ensures { result ≡ ends_or_begins bytes.now }
{
    bytes.is_empty() || message_size(bytes).is_some()
}

/// Whether bytes end, or begin with a complete message after which again they end or a complete message begins.
#[inline(always)]
fn goes_on(bytes: &[u8]) -> bool
    ensures { result ≡ goes_on bytes.now }
{
    if bytes.is_empty() {
        return true;
    }
    match message_size(bytes) {
        Some(size) => ends_or_begins(&bytes[size..]),
        None => false,
    }
}

/// Whether bytes begin with a complete message that was sent.
fn is_sent_at<S: Sent>(bytes: &[u8], sent: &S) -> bool
    ensures { result ≡ is_sent_at (S.sees sent.now) bytes.now }
{
    match message_in(bytes) {
        Some(message) => sent.sight(&message) == Sight::Same,
        None => false,
    }
}

/// Whether bytes begin with a complete message whose hart and number were sent, or which is known.
fn is_counted_at<S: Sent>(bytes: &[u8], sent: &S) -> bool
    ensures { result ≡ is_counted_at (S.sees sent.now) bytes.now }
{
    match message_in(bytes) {
        Some(message) => sent.sight(&message) != Sight::Strange,
        None => false,
    }
}

/// Whether bytes begin with a known message.
fn is_known_at<S: Sent>(bytes: &[u8], sent: &S) -> bool
    ensures { result ≡ is_known_at (S.sees sent.now) bytes.now }
{
    match message_in(bytes) {
        Some(message) => sent.sight(&message) == Sight::Known,
        None => false,
    }
}

/// Whether bytes begin with a known message after which they end or another one begins.
fn is_firm<S: Sent>(bytes: &[u8], sent: &S) -> bool
    ensures { result ≡ is_firm (is_known_at (S.sees sent.now)) bytes.now }
{
    let Some(size) = message_size(bytes) else {
        return false;
    };
    let after = &bytes[size..];
    is_known_at(bytes, sent) && (after.is_empty() || is_known_at(after, sent))
}

/// Whether a firm message begins inside the message that begins the bytes.
#[inline(never)]
fn has_firm_inside<S: Sent>(bytes: &[u8], sent: &S) -> bool
    requires frame { frame_size bytes.now ≤ length bytes.now }
    ensures { result ≡ has_firm_inside (is_known_at (S.sees sent.now)) bytes.now }
{
    for at in 1..frame_size(bytes) {
        if is_firm(&bytes[at..], sent) {
            return true;
        }
    }
    false
}

/// Whether bytes begin with a known message that is sure: it is firm, or no firm one begins inside it.
fn is_sure<S: Sent>(bytes: &[u8], sent: &S) -> bool
    requires frame { frame_size bytes.now ≤ length bytes.now }
    ensures { result ≡ is_sure (is_known_at (S.sees sent.now)) bytes.now }
{
    is_known_at(bytes, sent) && (is_firm(bytes, sent) || !has_firm_inside(bytes, sent))
}

/// Whether bytes begin with a message that is taken wherever it is.
fn is_taken_anywhere<S: Sent>(bytes: &[u8], sent: &S) -> bool
    ensures { result ≡ is_taken_anywhere (S.sees sent.now) bytes.now }
{
    let Some(_) = message_size(bytes) else {
        return false;
    };
    is_sent_at(bytes, sent) || is_sure(bytes, sent)
}

/// Whether bytes begin with a message that is taken.
#[inline(always)]
pub(crate) fn is_taken<S: Sent>(bytes: &[u8], sent: &S) -> bool
    ensures { result ≡ is_taken_first (S.sees sent.now) bytes.now }
{
    let Some(size) = message_size(bytes) else {
        return false;
    };
    let after = &bytes[size..];
    if sent.knows_none() {
        return goes_on(after) || is_backed(bytes, after, sent);
    }
    is_taken_anywhere(bytes, sent) || is_kept(bytes, after, sent)
}

/// Whether the message that bytes begin with was sent, or one comes right after it whose hart and number were.
#[inline(never)]
fn is_backed<S: Sent>(bytes: &[u8], after: &[u8], sent: &S) -> bool
    ensures { result ≡ (is_sent_at (S.sees sent.now) bytes.now || is_counted_at (S.sees sent.now) after.now) }
{
    is_sent_at(bytes, sent) || is_counted_at(after, sent)
}

/// Whether the message that bytes begin with is kept before what comes after it: it is clear, and then the bytes go on,
/// or a message comes whose hart and number were sent, or which is known.
#[inline(never)]
fn is_kept<S: Sent>(bytes: &[u8], next: &[u8], sent: &S) -> bool
    requires complete { is_complete bytes.now ≡ true }
    requires next { next.now ≡ after bytes.now }
    ensures { result ≡ is_kept (S.sees sent.now) bytes.now }
{
    (goes_on(next) || is_counted_at(next, sent)) && !has_firm_inside(bytes, sent)
}

/// How many bytes there are from the first one up to the next message that is taken wherever it is, or to the end. The
/// first byte is one of them, whatever begins there.
#[inline(never)]
pub(crate) fn bytes_to_next<S: Sent>(bytes: &[u8], sent: &S) -> usize
    requires some { 1 ≤ length bytes.now }
    ensures some { 1 ≤ result }
    ensures within { result ≤ length bytes.now }
    ensures passed { (k : ℕ) → 1 ≤ k → k < result → is_taken_anywhere (S.sees sent.now) (drop k bytes.now) ≡ false }
    ensures next { (result ≡ length bytes.now) ⊎ (is_taken_anywhere (S.sees sent.now) (drop result bytes.now) ≡ true) }
{
    for at in 1..bytes.len() {
        if is_taken_anywhere(&bytes[at..], sent) {
            return at;
        }
    }
    bytes.len()
}
