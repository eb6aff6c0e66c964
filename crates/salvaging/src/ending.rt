//! Where a hart ends.

ghost use Rattle.std.specs.Prelude.{◌≡◌, ◌≤◌, ◌&&◌, ◌||◌, if◌then◌else◌, IfOk, MatchBool, drop, length, map, take};
ghost use Rattle.rvclass.specs.Fetch.{words_of};
ghost use Rattle.losses.specs.Apart.{AreRising};
ghost use Rattle.salvaging.specs.Ends.{AreCutAtEnd, BeginsStretch};
ghost use Rattle.salvaging.specs.Entries.{entry_number, is_used, next_used};
ghost use Rattle.salvaging.specs.steps.Arrivals.{arrivals_in};
ghost use Rattle.salvaging.specs.steps.Ending.{BeginsBy, JudgedAlone, closes};
ghost use Rattle.salvaging.specs.steps.Grouping.{entries_by, entry_of};

use crate::entry::Entry;
use crate::grouping::last_entry;
use crate::reason::Reason;
use crate::received::ReceivedMessage;
use crate::trail::{Trail, is_sync};
use decoder::Paths;
use payload::{Mode, Payload, unpack};
use rvclass::ProgramOver;
use std::alloc::{AllocError, Allocator};

/// Why a used message with this payload is bad where a synchronisation is looked for, in the hart's own mode; `None`
/// where it is good. `behind` are the messages with greater numbers.
pub(crate) fn reason_alone<A: Allocator + Copy>(
    alloc: A,
    program: &ProgramOver,
    mode: Mode,
    payload: &Payload,
    behind: &[ReceivedMessage<'_>],
) -> Result<Option<Reason>, AllocError>
    ensures { IfOk result (JudgedAlone (words_of program.now) mode payload.now
        (next_used (entries_by (arrivals_in behind.now)))) }
{
    let mut trail = Trail::new(alloc);
    trail.end_run(alloc, mode)?;
    trail.judge(Paths::of(program), payload, behind)
}

/// Whether a stretch begins at an entry, where a synchronisation is looked for.
fn begins_stretch<A: Allocator + Copy>(
    alloc: A,
    program: &ProgramOver,
    mode: Mode,
    entry: Entry<'_>,
) -> Result<bool, AllocError>
    ensures { IfOk result (λ begins. MatchBool begins (BeginsStretch (words_of program.now) mode (entry_of entry.entry))
        (¬ BeginsStretch (words_of program.now) mode (entry_of entry.entry))) }
{
    match entry {
        Entry::Used { message, .. } => begins_by(alloc, program, mode, &message.payload),
        Entry::Doubtful { .. } => Ok(false),
    }
}

/// Whether a stretch begins at a used message with this payload.
fn begins_by<A: Allocator + Copy>(
    alloc: A,
    program: &ProgramOver,
    mode: Mode,
    payload: &Payload,
) -> Result<bool, AllocError>
    ensures { IfOk result (λ begins. MatchBool begins (BeginsBy (words_of program.now) mode payload.now)
        (¬ BeginsBy (words_of program.now) mode payload.now)) }
{
    let packet = match unpack(payload.bytes()) {
        Ok(packet) => packet,
        Err(_) => return Ok(false),
    };
    if !is_sync(&packet) {
        return Ok(false);
    }
    match reason_alone(alloc, program, mode, payload, &[])? {
        None => Ok(true),
        Some(_) => Ok(false),
    }
}

/// Whether an entry is used, or this is true of a greater one.
fn used_with(entry: Entry<'_>, used: bool) -> bool
    ensures { result ≡ (used || is_used (entry_of entry.entry)) }
{
    if used {
        return true;
    }
    match entry {
        Entry::Used { .. } => true,
        Entry::Doubtful { .. } => false,
    }
}

/// Whether an entry is used, and its packet closes the trace.
fn closes(entry: Entry<'_>) -> bool
    ensures { result ≡ closes (entry_of entry.entry) }
{
    match entry {
        Entry::Used { message, .. } => message.payload.is_closing(),
        Entry::Doubtful { .. } => false,
    }
}

/// How many messages come up to the end, where these come up to an entry, and `end` says it without that entry. No
/// stretch begins at a greater one, and `used` says whether a greater one is used.
fn end_with(entry: Entry<'_>, used: bool, upto: &[ReceivedMessage<'_>], end: usize) -> usize
    ensures { result ≡ if used && closes (entry_of entry.entry) then length upto.now else end }
{
    if !used {
        return end;
    }
    if closes(entry) { upto.len() } else { end }
}

/// How many of a hart's messages have a number up to that of its end; all, where it has none before its last number.
/// The messages are in the order of their numbers, and this mode is the hart's own.
///
/// It goes back from the last number, and no further than to the last one at which a stretch begins.
pub(crate) fn count_to_end<A: Allocator + Copy>(
    alloc: A,
    program: &ProgramOver,
    mode: Mode,
    came: &[ReceivedMessage<'_>],
) -> Result<usize, AllocError>
    requires { AreRising 0 (map entry_number (entries_by (arrivals_in came.now))) }
    ensures within { IfOk result (λ count. count ≤ length came.now) }
    ensures cut { IfOk result (λ count. AreCutAtEnd (words_of program.now) mode (entries_by (arrivals_in came.now))
        (entries_by (arrivals_in (take count came.now))) (entries_by (arrivals_in (drop count came.now)))) }
{
    let mut end = came.len();
    let mut used = false;
    let mut rest = came;
    while let Some((entry, front)) = last_entry(rest) {
        if begins_stretch(alloc, program, mode, entry)? {
            return Ok(end);
        }
        end = end_with(entry, used, rest, end);
        used = used_with(entry, used);
        rest = &rest[..front];
    }
    Ok(end)
}
