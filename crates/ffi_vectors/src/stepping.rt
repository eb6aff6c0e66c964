//! Calls that go event by event or payload by payload, and so keep a state.

use crate::arguments::Given;
use crate::fields::{Fields, KEPT, Record, kept};
use crate::writing::{Said, put_all, put_list, put_state};
use cases::Case;
use ffi::{EncoderNumbers, EventNumbers, HartNumbers, PacketNumbers, WalkNumbers};

fn push_all(given: &Given<'_>, packets: &mut [PacketNumbers]) -> Said {
    let mut after = given.encoder;
    let (mut first, mut seen) = (KEPT, KEPT);
    let (alloc, pieces, events) = (given.alloc, &given.pieces, &given.events);
    let (state, taken, count) = (&mut after, &mut first, &mut seen);
    let status = ffi::tracebench_push_all(alloc, pieces, state, events, packets, taken, count);
    Said::elements((status, seen), "taken", first, &after)
}

fn finish(given: &Given<'_>, packets: &mut [PacketNumbers]) -> Said {
    let mut seen = KEPT;
    let (alloc, pieces, state, count) = (given.alloc, &given.pieces, &given.encoder, &mut seen);
    let status = ffi::tracebench_finish(alloc, pieces, state, packets, count);
    Said::elements((status, seen), "taken", KEPT, state)
}

/// Pushes the events by a call for each.
fn push_each(given: &Given<'_>, packets: &mut [PacketNumbers]) -> Said {
    let mut state = given.encoder;
    let mut seen: usize = 0;
    let mut taken: u64 = 0;
    for event in &given.events {
        let mut one = 0;
        let mut count = 0;
        let rest = packets.get_mut(seen..).unwrap_or(&mut []);
        let status = ffi::tracebench_push_all(
            given.alloc,
            &given.pieces,
            &mut state,
            &[*event],
            rest,
            &mut one,
            &mut count,
        );
        seen = seen.saturating_add(count.min(2) as usize);
        taken = taken.saturating_add(one.min(1));
        if status != 0 {
            return Said::elements((status, seen as u64), "taken", taken, &state);
        }
    }
    Said::elements((0, seen as u64), "taken", taken, &state)
}

fn feed_all(given: &Given<'_>, events: &mut [EventNumbers]) -> Said {
    let mut hart = given.hart_state;
    let (mut first, mut seen) = (KEPT, KEPT);
    let (alloc, pieces, bytes, ends) = (given.alloc, &given.pieces, &given.joined, &given.ends);
    let (state, taken, count) = (&mut hart.decoder, &mut first, &mut seen);
    let status = ffi::tracebench_feed_all(alloc, pieces, state, bytes, ends, events, taken, count);
    Said::elements((status, seen), "taken", first, &hart)
}

fn receive(given: &Given<'_>, events: &mut [EventNumbers]) -> Said {
    let mut after = given.hart_state;
    let (mut seen, mut lacks) = (KEPT, KEPT);
    let (alloc, pieces, number) = (given.alloc, &given.pieces, given.number("number"));
    let (hart, payload) = (&mut after, given.bytes("payload"));
    let (count, missing) = (&mut seen, &mut lacks);
    let status = ffi::tracebench_receive(
        alloc, pieces, hart, number, payload, events, count, missing,
    );
    Said::elements((status, seen), "missing", lacks, &after)
}

/// Makes the call that a verb names, of those that hand out packets.
fn call_for_packets(verb: &str, given: &Given<'_>, packets: &mut [PacketNumbers]) -> Said {
    match verb {
        "push_all" => push_all(given, packets),
        "push_each" => push_each(given, packets),
        _ => finish(given, packets),
    }
}

/// Makes the call that a verb names, of those that hand out events.
fn call_for_events(verb: &str, given: &Given<'_>, events: &mut [EventNumbers]) -> Said {
    match verb {
        "feed_all" => feed_all(given, events),
        _ => receive(given, events),
    }
}

/// Appends what a call said, the elements that it wrote, and the state if it is another one. Where only some elements
/// are shown, the state is not.
fn put_said<S: Fields, T: Fields>(
    case: &Case,
    (given, name): (&Given<'_>, &str),
    said: &Said,
    before: &S,
    items: &[T],
) {
    said.put(case, false);
    put_list(case, name, given.shown(items), false);
    let all = given.size("show").is_none() && given.size("last").is_none();
    if all {
        put_changed(case, before, &said.state);
    }
}

/// Appends the state after a call, if it is another one.
fn put_changed<S: Fields>(case: &Case, before: &S, after: &Record) {
    if before.record() != *after {
        put_state::<S>(case, after);
    }
}

/// Makes the call that a verb names with a buffer of so many packets, and appends what it said.
pub(crate) fn fill_packets(
    case: &Case,
    verb: &str,
    given: &Given<'_>,
    room: usize,
) -> Option<Said> {
    let mut packets = case.filled(kept::<PacketNumbers>(), room);
    let said = call_for_packets(verb, given, &mut packets);
    put_said(case, (given, "packets"), &said, &given.encoder, &packets);
    Some(said)
}

/// Makes the call that a verb names with a buffer of so many events, and appends what it said.
pub(crate) fn fill_events(case: &Case, verb: &str, given: &Given<'_>, room: usize) -> Option<Said> {
    let mut events = case.filled(kept::<EventNumbers>(), room);
    let said = call_for_events(verb, given, &mut events);
    put_said(case, (given, "events"), &said, &given.hart_state, &events);
    Some(said)
}

/// Pushes events at once, and by a call for each: `same`, the status and how many are taken where both say the same.
pub(crate) fn push_both(case: &Case, given: &Given<'_>) {
    let room = given.room("room");
    let once = case.again();
    let said = fill_packets(&once, "push_all", given, room);
    let each = case.again();
    let _ = fill_packets(&each, "push_each", given, room);
    if let Some(said) = said {
        said.put(case, true);
    }
    case.put_word("same");
    case.join(&once);
    case.put_other("by a call for each", &each, once.taken().as_str());
}

/// A new encoder, and the packet that opens its trace.
pub(crate) fn encoder(case: &Case, given: &Given<'_>) {
    let mut state = kept::<EncoderNumbers>();
    let mut opening = kept::<PacketNumbers>();
    let (period, mode) = (given.low_16("period"), given.low_32("mode"));
    let status = ffi::tracebench_encoder(period, mode, &mut state, &mut opening);
    put_all(case, "status", &[u64::from(status)]);
    put_list(case, "opening", &[opening], false);
    put_list(case, "state", &[state], false);
}

/// A new decoder.
pub(crate) fn decoder(case: &Case) {
    // Each field of the decoder holds another number before.
    let mut hart = kept::<HartNumbers>();
    hart.expected = 0;
    ffi::tracebench_decoder(&mut hart.decoder);
    put_state::<HartNumbers>(case, &hart.record());
}

/// Lets a hart go on at a number.
pub(crate) fn resume(case: &Case, given: &Given<'_>) {
    let mut hart = given.hart_state;
    let status = ffi::tracebench_resume(&mut hart, given.number("number"), given.low_32("mode"));
    put_all(case, "status", &[u64::from(status)]);
    put_changed(case, &given.hart_state, &hart.record());
}

/// The next events of a hart, as many as the buffer has room for.
pub(crate) fn generate_events(case: &Case, given: &Given<'_>) {
    let mut walk = given.walk;
    let mut events = case.filled(kept::<EventNumbers>(), given.room("room"));
    let (alloc, pieces, state) = (given.alloc, &given.pieces, &mut walk);
    let status = ffi::tracebench_generate_events(alloc, pieces, state, &mut events);
    put_all(case, "status", &[u64::from(status)]);
    put_list(case, "events", given.shown(&events), false);
    put_changed(case, &given.walk, &walk.record());
}
