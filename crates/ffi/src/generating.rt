//! What `generate` makes, by calls: the image of a program, and the events of harts that run it.

ghost use Rattle.std.specs.Prelude.{◌≡◌, length, map};
ghost use Rattle.rvclass.specs.Fetch.{words_of};
ghost use Rattle.stimulus.specs.Walk.{walked};
ghost use Rattle.ffi.specs.Events.{numbers_of_event};
ghost use Rattle.ffi.specs.Generated.{ReportsGenerateEvents, ReportsGenerateImage, kept_in, mix_in, mix_of};
ghost use Rattle.ffi.specs.Generated.{numbers_of_kept};
ghost use Rattle.ffi.specs.Images.{OfPieces};

use crate::events::{EventNumbers, numbers_of_event};
use crate::handing::hand_out;
use crate::images::{ImagePiece, Judged, judge_pieces};
use crate::status::{DONE, MEMORY, OUT_OF_RANGE};
use rvclass::ProgramOver;
use std::alloc::Global;
use stimulus::{Mix, Walk, WalkState, image_of};

/// Loops, calls, computed jumps, branches of both outcomes, all levels, interrupts and exceptions.
pub const MIXED: u32 = 0;
/// Branches alone.
pub const BRANCHES: u32 = 1;
/// A computed jump at every second instruction.
pub const JUMPS: u32 = 2;
/// Traps at a third of all events.
pub const TRAPS: u32 = 3;
/// Traps with long values at three quarters of all events.
pub const LONGEST: u32 = 4;
/// Plain instructions, and few traps.
pub const STRAIGHT: u32 = 5;

/// Of a walk's next event: it is the first.
const FIRST: u8 = 0;
/// It may be anywhere.
const ANYWHERE: u8 = 1;
/// It is at the place, unless a trap comes before it.
const AT_PLACE: u8 = 2;

/// The walk of a hart through a program, as numbers. Before the first event only the seed, the mix and the hart are
/// looked at; they stay.
#[repr(C)]
#[derive(Clone, Copy)]
pub struct WalkNumbers {
    /// What all draws are decided by.
    pub seed: u64,
    /// The state of the generator that the hart draws from.
    pub random: u64,
    /// Where the next instruction is, if no trap comes before it.
    pub at: u64,
    /// The mix: [`MIXED`] to [`STRAIGHT`].
    pub mix: u32,
    /// The hart's number.
    pub hart: u16,
    /// Its privilege level.
    pub privilege: u8,
    /// 0 where the next event is the first, 1 where it may be anywhere, 2 where it is at the place.
    pub next: u8,
}

/// Writes the image of the program that a mix and a seed give, as `tracebench generate image` does.
///
/// The status is [`DONE`], [`TOO_SMALL`](crate::status::TOO_SMALL), [`OUT_OF_RANGE`] where no mix has this number, or
/// [`MEMORY`]. The last two write nothing.
pub fn tracebench_generate_image(
    alloc: Global,
    mix: u32,
    seed: u64,
    buffer: &mut [u8],
    wanted: &mut u64,
) -> u32
    ensures { ReportsGenerateImage (mix_of mix) seed result wanted.old wanted.new buffer.old buffer.new }
{
    let Some(mix) = mix_of(mix) else {
        return OUT_OF_RANGE;
    };
    match image_of(alloc, mix, seed) {
        Ok(image) => hand_out(image.as_slice(), buffer, wanted),
        Err(_) => MEMORY,
    }
}

/// Fills a buffer with the next events of a hart, which are those of the log that `tracebench generate log` writes, and
/// the state with that of its walk after them. From a state with the seed, the mix and the hart, and else 0, it begins.
/// The log has no end, and is a legal log of the program of these pieces, where that is the same at each call.
///
/// The status is [`DONE`]; or nothing is written: [`OUT_OF_RANGE`] where no walk has the state's mix or its `next`, or
/// what is wrong with the pieces. No memory is taken but for the list of the pieces, and the time grows with the events.
pub fn tracebench_generate_events(
    alloc: Global,
    pieces: &[ImagePiece<'_>],
    state: &mut WalkNumbers,
    events: &mut [EventNumbers],
) -> u32
    ensures { OfPieces pieces.now (λ image. ReportsGenerateEvents image result state.old state.new events.old
        events.new) }
{
    let judged = judge_pieces(alloc, pieces);
    generate_over(&judged, state, events)
}

/// Fills a buffer with the next events, where the state is read and there is a program.
fn generate_over(image: &Judged<'_>, state: &mut WalkNumbers, events: &mut [EventNumbers]) -> u32
    ensures { ReportsGenerateEvents image.now result state.old state.new events.old events.new }
{
    let Some(mix) = mix_in(state) else {
        return OUT_OF_RANGE;
    };
    let program = match image {
        Ok(program) => program,
        Err(fault) => return fault.status(),
    };
    let mut walk = Walk::of(program, mix, state.seed, state.hart, kept_in(state));
    fill_events(program, &mut walk, events);
    *state = numbers_of_kept(state, walk.state());
    DONE
}

/// Fills a buffer with the next events of a walk.
fn fill_events(program: &ProgramOver, walk: &mut Walk, events: &mut [EventNumbers])
    ensures events { events.new ≡ map numbers_of_event (walked (words_of program.now) walk.old (length events.old)).0 }
    ensures walk { walk.new ≡ (walked (words_of program.now) walk.old (length events.old)).1 }
{
    for place in 0..events.len() {
        events[place] = numbers_of_event(&walk.step(program));
    }
}

/// The mix of a number, if there is one.
fn mix_of(number: u32) -> Option<Mix>
    ensures { result ≡ mix_of number }
{
    match number {
        MIXED => Some(Mix::Mixed),
        BRANCHES => Some(Mix::Branches),
        JUMPS => Some(Mix::Jumps),
        TRAPS => Some(Mix::Traps),
        LONGEST => Some(Mix::Longest),
        STRAIGHT => Some(Mix::Straight),
        _ => None,
    }
}

/// The mix of the numbers of a walk, if they are such.
fn mix_in(numbers: &WalkNumbers) -> Option<Mix>
    ensures { result ≡ mix_in numbers.now }
{
    if numbers.next > AT_PLACE {
        return None;
    }
    mix_of(numbers.mix)
}

/// What a walk of these numbers kept; nothing before its first event.
fn kept_in(numbers: &WalkNumbers) -> Option<WalkState>
    ensures { result ≡ kept_in numbers.now }
{
    if numbers.next == FIRST {
        return None;
    }
    Some(WalkState {
        random: numbers.random,
        at: numbers.at,
        privilege: numbers.privilege,
        is_free: numbers.next == ANYWHERE,
    })
}

/// The numbers of a walk that keeps this, where its seed, mix and hart are those of these numbers.
fn numbers_of_kept(numbers: &WalkNumbers, kept: WalkState) -> WalkNumbers
    ensures { result ≡ numbers_of_kept numbers.now kept }
{
    WalkNumbers {
        random: kept.random,
        at: kept.at,
        privilege: kept.privilege,
        next: if kept.is_free { ANYWHERE } else { AT_PLACE },
        ..*numbers
    }
}
