//! What is done with each message of a capture (`salvaging`) where an allocation fails. What is salvaged, in all orders
//! and drawn at random, and what is done with other messages are cases of `vectors`.

use crate::fixtures::{NOPS, program_of};
use crate::same::same_at;
use cases::{Case, Refusing, messages_of};
use message::{Message, NoProgress};
use payload::Mode;
use rvclass::Program;
use salvaging::{Treated, treat_watched};
use std::process::Abort;

/// The messages of two harts in turn, each hart by its own messages alone, and two strangers: of a hart that is not
/// known, and with a number of no hart. What is done with them is a case of `vectors` in `data/treatments.cases`.
const TWO_HARTS: &str =
    "1.0:1f 2.0:1f 0.0:1f 1.2:0a 1.1:7300000020 0.9223372036854775808:7300000020 1.1:7302000020 \
    0.1:7300000020 0.0:1f 0.2:cf00";

/// The messages of the capture.
fn messages<R: Abort + AllocGlobal>(rt: &R) -> Vec<Message> {
    let case = Case::new(rt.alloc(), TWO_HARTS);
    let messages = messages_of(&case);
    let found = (messages.len(), case.is_failed());
    same_at(rt, "messages", found, (10, false));
    messages
}

/// Ends the test unless nothing is kept where the request for memory with this number is refused, and all where none is.
/// Returns whether one is.
fn is_refused<R: Abort + AllocGlobal>(
    rt: &R,
    program: &Program,
    messages: &[Message],
    whole: &[Treated],
    place: u64,
) -> bool {
    let heap = Refusing::new(rt.alloc(), place);
    let mode = Mode::Differential;
    match treat_watched(&heap, program, 2, mode, messages, &NoProgress) {
        Ok(treated) => {
            let found = (treated.as_slice() == whole, heap.has_refused());
            same_at(rt, place, found, (true, false));
        }
        Err(_) => same_at(rt, place, heap.has_refused(), true),
    }
    heap.has_refused()
}

/// Where a request for memory is refused nothing is kept, whichever it is.
#[test]
fn each_request_is_refused(rt: HostRuntime) {
    let (program, messages) = (program_of(&rt, NOPS), messages(&rt));
    let mode = Mode::Differential;
    let whole = treat_watched(rt.alloc(), &program, 2, mode, &messages, &NoProgress);
    let whole = whole.expect(&rt, "memory");
    let mut refused: usize = 0;
    for place in 0..64u64 {
        if is_refused(&rt, &program, &messages, &whole, place) {
            refused = refused.saturating_add(1);
        }
    }
    same_at(&rt, refused, 0 < refused && refused < 64, true);
}
