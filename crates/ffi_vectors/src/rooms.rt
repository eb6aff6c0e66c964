//! Calls with buffers of several sizes.

use crate::arguments::Given;
use crate::filling::fill;
use crate::stepping::{fill_events, fill_packets};
use crate::writing::Said;
use cases::Case;

/// Up to so many elements, each smaller buffer is tried.
const FEW: usize = 32;

/// Makes the call that a verb names with a buffer of so many elements, and appends what it said.
fn call(case: &Case, verb: &str, given: &Given<'_>, room: usize) -> Option<Said> {
    match verb {
        "push_all" | "push_each" | "finish" => fill_packets(case, verb, given, room),
        "feed_all" | "receive" => fill_events(case, verb, given, room),
        _ => fill(case, verb, given, room),
    }
}

/// Makes the call with a buffer of so many elements, and appends what it said where that is something else.
fn call_again(case: &Case, verb: &str, given: &Given<'_>, room: usize, due: &str) {
    let again = case.again();
    let _ = call(&again, verb, given, room);
    case.put_other("another room", &again, due);
}

/// Makes the call with buffers that are smaller than so many elements, which all say the same. Appends what they said
/// where that is something else.
fn call_smaller(case: &Case, verb: &str, given: &Given<'_>, count: usize, said: &Said) {
    let least = if count <= FEW {
        1
    } else {
        count.saturating_sub(1)
    };
    let small = case.over("");
    let mut refused = *said;
    refused.status = u64::from(ffi::status::TOO_SMALL);
    refused.put(&small, given.size("tail").is_some());
    case.join(&small);
    let due = small.taken();
    call_again(case, verb, given, 0, due.as_str());
    for room in least..count {
        call_again(case, verb, given, room, due.as_str());
    }
}

/// Makes the call with a buffer that is just large enough, with a larger one, and with smaller ones. Appends what the
/// first said, and what others said that is something else.
fn call_in_all(case: &Case, verb: &str, given: &Given<'_>, count: usize) {
    let exact = case.again();
    let said = call(&exact, verb, given, count);
    case.join(&exact);
    let due = exact.taken();
    case.put(due.as_str());
    call_again(case, verb, given, count.saturating_add(3), due.as_str());
    if let (true, Some(said)) = (count > 0, &said) {
        call_smaller(case, verb, given, count, said);
    }
}

/// Makes the call that a verb names, with a buffer of the size that is given, or else with several.
pub(crate) fn call_in_rooms(case: &Case, verb: &str, given: &Given<'_>) {
    if let Some(room) = given.size("room") {
        if call(case, verb, given, room).is_none() {
            case.unread();
        }
        return;
    }
    let least = case.again();
    match call(&least, verb, given, 0) {
        Some(said) if said.status == u64::from(ffi::status::TOO_SMALL) => {
            call_in_all(case, verb, given, said.size());
        }
        Some(_) => call_in_all(case, verb, given, 0),
        None => case.unread(),
    }
}
