//! Which messages of RECEIVED are taken, where its bytes may be damaged.

ghost use Rattle.std.specs.Prelude.{◌≡◌, ◌≤◌, ◌+◌, ◌*◌, ◌<◌, ◌++◌, ℕ, ◌≢◌, IfErr, IfOk, IfSome, List, None, Ok, Some};
ghost use Rattle.std.specs.Prelude.{drop, false, length, take, true};
ghost use Rattle.frames.specs.Frame.{is_complete, message_in, message_size};
ghost use Rattle.frames.specs.GuidedTaken.{ends_or_begins};
ghost use Rattle.message.specs.declared.message.Message.{Message as AnyMessage};
ghost use Rattle.live.specs.Following.{Audited, IsAudited, Reads};
ghost use Rattle.live.specs.Received.{are_next, begins_row, is_kept, is_taken, is_taken_anywhere, messages_from, number_among};
ghost use Rattle.live.specs.ReceivedLeft.{most_sought, rule_of};
ghost use Rattle.live.specs.steps.Receiving.{IsFew, IsSure, Says, Settles, near_by, row_by, seen_first};

use crate::received_seen::{Pause, Seen, see};
use crate::source::SentSource;
use crate::window::Window;
use frames::{message_in, message_size};
use message::HEAD;
use payload::MOST_BYTES;
use std::alloc::Allocator;

/// The most bytes that a message has.
pub(crate) const MOST_SIZE: usize = HEAD + MOST_BYTES;

/// How many bytes the complete message has that begins these bytes, if one does.
fn size_at(bytes: &[u8], ended: bool) -> Result<Option<usize>, Pause>
    ensures size { IfOk result (Says message_size bytes.now ended) }
    ensures held { IfOk result (λ size. IfSome size (λ size. Some size ≡ message_size bytes.now)) }
    ensures within { IfOk result (λ size. IfSome size (λ size. size ≤ length bytes.now)) }
    ensures some { result ≡ Ok None → length bytes.now ≡ 0 → ended ≡ true }
    ensures few { IfErr result (λ why. (why ≡ Pause.Bytes) × IsFew ended (length bytes.now) 29 why) }
{
    match message_size(bytes) {
        Some(size) => Ok(Some(size)),
        None => {
            if ended || bytes.len() >= MOST_SIZE {
                Ok(None)
            } else {
                Err(Pause::Bytes)
            }
        }
    }
}

/// What is seen of the complete message that begins these bytes. If none does, it is as one that is too late.
fn see_at<A: Allocator, S: SentSource>(
    bytes: &[u8],
    harts: u16,
    window: &mut Window<A>,
    source: &mut S,
) -> Result<Seen, Pause>
    ensures settles { (all : Audited) (came : List AnyMessage) (front first : ℕ) → IsAudited all
        → Reads all first came front window.old (S.left source.old)
        → Settles all came front first bytes.now 1
        (λ seen. seen ≡ seen_first (rule_of harts all front).sees (message_in bytes.now)) result window.new
        (S.left source.new) }
    ensures never_bytes { IfErr result (λ why. why ≢ Pause.Bytes) }
{
    match message_in(bytes) {
        Some(message) => see(window, source, &message),
        None => Ok(Seen::Neither),
    }
}

/// The number of the first message of this hart among the first so many complete messages that follow one another from the
/// first byte on.
fn number_of(bytes: &[u8], count: usize, hart: u16) -> Option<u64>
    ensures { result ≡ number_among (take count (messages_from bytes.now)) hart }
{
    let mut left = bytes;
    for _ in 0..count {
        let Some(size) = message_size(left) else {
            return None;
        };
        match message_in(left) {
            Some(message) => {
                if message.hart == hart {
                    return Some(message.number);
                }
            }
            None => return None,
        }
        left = &left[size..];
    }
    None
}

/// Whether a row ends with the message at this place, before which so many are in it, and if so whether it is one: the message
/// is beyond the view, and the one before of its hart is near. No answer where it goes on.
fn row_ends<A: Allocator, S: SentSource>(
    bytes: &[u8],
    at: usize,
    count: usize,
    harts: u16,
    window: &mut Window<A>,
    source: &mut S,
) -> Result<Option<bool>, Pause>
    requires { at ≤ length bytes.now }
    ensures settles { (all : Audited) (came : List AnyMessage) (front first : ℕ) → IsAudited all
        → Reads all first came front window.old (S.left source.old)
        → Settles all came front first bytes.now (at + 1) (λ is. is ≡ row_by (rule_of harts all front)
        (take count (messages_from bytes.now)) (message_in (drop at bytes.now))) result window.new (S.left source.new) }
    ensures never_bytes { IfErr result (λ why. why ≢ Pause.Bytes) }
{
    match see_at(&bytes[at..], harts, window, source) {
        Ok(seen) => {
            if seen.is_beyond() {
                Ok(near_ends(bytes, at, count, &*window))
            } else {
                Ok(Some(false))
            }
        }
        Err(why) => Err(why),
    }
}

/// The same, where the message is beyond the view.
fn near_ends<A: Allocator>(
    bytes: &[u8],
    at: usize,
    count: usize,
    window: &Window<A>,
) -> Option<bool>
    requires { at ≤ length bytes.now }
    ensures { result ≡ near_by window.now.window (take count (messages_from bytes.now)) (message_in (drop at bytes.now)) }
{
    let Some(message) = message_in(&bytes[at..]) else {
        return Some(false);
    };
    match number_of(bytes, count, message.hart) {
        Some(number) => Some(window.is_near(message.number, number)),
        None => None,
    }
}

/// Whether a row begins these bytes: messages that are beyond the view, up to the second one of a hart, which is near the first.
fn begins_row<A: Allocator, S: SentSource>(
    bytes: &[u8],
    ended: bool,
    harts: u16,
    window: &mut Window<A>,
    source: &mut S,
) -> Result<bool, Pause>
    ensures settles { (all : Audited) (came : List AnyMessage) (front first : ℕ) → IsAudited all
        → Reads all first came front window.old (S.left source.old)
        → Settles all came front first bytes.now (most_sought harts) (Says (begins_row (rule_of harts all front)) bytes.now ended)
        result window.new (S.left source.new) }
    ensures few { IfErr result (IsFew ended (length bytes.now) (29 * (harts + 1))) }
{
    let mut at = 0;
    for count in 0..usize::from(harts) + 1 {
        let size = match size_at(&bytes[at..], ended) {
            Ok(Some(size)) => size,
            Ok(None) => return Ok(false),
            Err(why) => return Err(why),
        };
        match row_ends(bytes, at, count, harts, window, source) {
            Ok(Some(is_row)) => return Ok(is_row),
            Ok(None) => at += size,
            Err(why) => return Err(why),
        }
    }
    Ok(false)
}

/// Whether a message begins these bytes that is taken wherever it is: it is true, or a row begins with it.
fn is_taken_anywhere<A: Allocator, S: SentSource>(
    bytes: &[u8],
    ended: bool,
    harts: u16,
    window: &mut Window<A>,
    source: &mut S,
) -> Result<bool, Pause>
    ensures settles { (all : Audited) (came : List AnyMessage) (front first : ℕ) → IsAudited all
        → Reads all first came front window.old (S.left source.old)
        → Settles all came front first bytes.now (most_sought harts) (Says (is_taken_anywhere (rule_of harts all front)) bytes.now ended)
        result window.new (S.left source.new) }
    ensures sure { IfOk result (IsSure bytes.now ended) }
    ensures few { IfErr result (IsFew ended (length bytes.now) (29 * (harts + 1))) }
{
    match size_at(bytes, ended) {
        Ok(Some(_)) => {}
        Ok(None) => return Ok(false),
        Err(why) => return Err(why),
    }
    match see_at(bytes, harts, window, source) {
        Ok(seen) => {
            if seen.is_true() {
                Ok(true)
            } else {
                begins_row(bytes, ended, harts, window, source)
            }
        }
        Err(why) => Err(why),
    }
}

/// Whether RECEIVED ends with these bytes, or a complete message begins them.
fn ends_or_begins(bytes: &[u8], ended: bool) -> Result<bool, Pause>
    ensures says { IfOk result (Says ends_or_begins bytes.now ended) }
    ensures few { IfErr result (λ why. (why ≡ Pause.Bytes) × IsFew ended (length bytes.now) 29 why) }
{
    if ended && bytes.is_empty() {
        return Ok(true);
    }
    match size_at(bytes, ended) {
        Ok(Some(_)) => Ok(true),
        Ok(None) => Ok(false),
        Err(why) => Err(why),
    }
}

/// Whether RECEIVED goes on with these bytes as it does after a message: it ends, or a complete message begins them which is in
/// view, or after which it ends or another one begins.
fn are_next<A: Allocator, S: SentSource>(
    bytes: &[u8],
    ended: bool,
    harts: u16,
    window: &mut Window<A>,
    source: &mut S,
) -> Result<bool, Pause>
    ensures settles { (all : Audited) (came : List AnyMessage) (front first : ℕ) → IsAudited all
        → Reads all first came front window.old (S.left source.old)
        → Settles all came front first bytes.now 1 (Says (are_next (rule_of harts all front)) bytes.now ended)
        result window.new (S.left source.new) }
    ensures few { IfErr result (IsFew ended (length bytes.now) 58) }
{
    if ended && bytes.is_empty() {
        return Ok(true);
    }
    let size = match size_at(bytes, ended) {
        Ok(Some(size)) => size,
        Ok(None) => return Ok(false),
        Err(why) => return Err(why),
    };
    match see_at(bytes, harts, window, source) {
        Ok(seen) => {
            if seen.is_in_view() {
                Ok(true)
            } else {
                ends_or_begins(&bytes[size..], ended)
            }
        }
        Err(why) => Err(why),
    }
}

/// Whether a complete message begins these bytes after which RECEIVED goes on.
fn is_kept<A: Allocator, S: SentSource>(
    bytes: &[u8],
    ended: bool,
    harts: u16,
    window: &mut Window<A>,
    source: &mut S,
) -> Result<bool, Pause>
    ensures settles { (all : Audited) (came : List AnyMessage) (front first : ℕ) → IsAudited all
        → Reads all first came front window.old (S.left source.old)
        → Settles all came front first bytes.now (most_sought harts) (Says (is_kept (rule_of harts all front)) bytes.now ended)
        result window.new (S.left source.new) }
    ensures sure { result ≡ Ok true → is_complete bytes.now ≡ true }
    ensures few { IfErr result (IsFew ended (length bytes.now) 87) }
{
    match size_at(bytes, ended) {
        Ok(Some(size)) => are_next(&bytes[size..], ended, harts, window, source),
        Ok(None) => Ok(false),
        Err(why) => Err(why),
    }
}

/// Whether a message begins these bytes that is taken. Where bytes before it are passed over, it has to be one that is taken
/// wherever it is.
pub(crate) fn is_taken<A: Allocator, S: SentSource>(
    bytes: &[u8],
    ended: bool,
    astray: bool,
    harts: u16,
    window: &mut Window<A>,
    source: &mut S,
) -> Result<bool, Pause>
    ensures settles { (all : Audited) (came : List AnyMessage) (front first : ℕ) → IsAudited all
        → Reads all first came front window.old (S.left source.old)
        → Settles all came front first bytes.now (most_sought harts)
        (Says (is_taken (rule_of harts all front) astray) bytes.now ended) result window.new (S.left source.new) }
    ensures sure { IfOk result (IsSure bytes.now ended) }
    ensures few { IfErr result (IsFew ended (length bytes.now) (29 * (harts + 3))) }
{
    match is_taken_anywhere(bytes, ended, harts, window, source) {
        Ok(true) => Ok(true),
        Ok(false) => {
            if astray {
                Ok(false)
            } else {
                is_kept(bytes, ended, harts, window, source)
            }
        }
        Err(why) => Err(why),
    }
}
