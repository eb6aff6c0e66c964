//! Where the messages of a capture begin.

ghost use Rattle.std.specs.Prelude.{◌≡◌, ◌≤◌, List, IfOk, IfSome, length};
ghost use Rattle.frames.specs.Frame.{hart_in};
ghost use Rattle.message.specs.Capture.{message_bytes};
ghost use Rattle.message.specs.steps.Filling.{AreBytes};
ghost use Rattle.message.specs.declared.message.Message.{Message as AnyMessage};
ghost use Rattle.parallel_decode.specs.steps.Starts.{StartsAt};
ghost use Rattle.parallel_decode.specs.steps.Walked.{AreWalked};

use crate::add_selected;
use crate::lists::empty_lists;
use byteorder::{ByteOrder, LittleEndian};
use frames::message_size;
use message::{HartRange, ProgressSink};
use std::alloc::{AllocError, Global};

/// Where the messages of each hart begin, and how far they were walked.
#[derive(Drop)]
pub(crate) struct Walk {
    pub(crate) places: Vec<Vec<usize>>,
    /// Where the bytes behind these messages begin.
    pub(crate) place: usize,
    /// How many messages there are, those of all harts.
    pub(crate) passed: u64,
}

/// Walks over the messages that begin before this limit, up to the first of the harts in a range that is of none of so
/// many harts, and up to the first place where there is no complete message. `watch` is told of each.
pub(crate) fn walk_over<V: ProgressSink>(
    alloc: Global,
    harts: u16,
    range: HartRange,
    limit: usize,
    bytes: &[u8],
    watch: &V,
) -> Result<Walk, AllocError>
    ensures { IfOk result (λ walk. (messages : List AnyMessage) × AreWalked range harts bytes.now messages
        walk.places.items walk.place walk.passed) }
{
    let mut walk = Walk {
        places: empty_lists(alloc, usize::from(harts))?,
        place: 0,
        passed: 0,
    };
    while walk.place < limit {
        let Some(head) = head_at(bytes, walk.place) else {
            return Ok(walk);
        };
        if !add_selected(&mut walk.places, range, head.hart, walk.place)? {
            return Ok(walk);
        }
        walk.place += head.size;
        walk.passed += 1;
        watch.note(1);
    }
    Ok(walk)
}

/// What the walk looks at of a message.
#[derive(Clone, Copy)]
struct Head {
    hart: u16,
    /// How many bytes the message has.
    size: usize,
}

/// What the walk looks at of the complete message that begins at this place, if one does.
fn head_at(bytes: &[u8], place: usize) -> Option<Head>
    ensures { IfSome result (λ head. (message : AnyMessage) × StartsAt bytes.now place message
        × (message.hart ≡ head.hart) × (head.size ≡ length (message_bytes message))) }
{
    if bytes.len() < place {
        return None;
    }
    let rest = &bytes[place..];
    match message_size(rest) {
        Some(size) => Some(Head {
            hart: hart_of(rest),
            size,
        }),
        None => None,
    }
}

/// The hart of the message that bytes begin with.
fn hart_of(bytes: &[u8]) -> u16
    requires { 11 ≤ length bytes.now }
    ensures hart { result ≡ hart_in bytes.now }
    ensures bytes { AreBytes bytes.now }
{
    LittleEndian::read_u16(bytes)
}
