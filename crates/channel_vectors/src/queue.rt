//! The queue of the funnel in one thread, and the limits of the queue and of the channel.

ghost use Rattle.std.specs.Prelude.{◌≡◌};

use crate::messages::put_message;
use cases::{Case, message_of};
use funnel::{Core, OpenFault, open};

/// A queue, and how many harts it serves.
#[derive(Drop)]
pub(crate) struct Queue {
    core: Core,
    harts: u16,
    ghost serves: { core.harts ≡ harts },
}

/// Why no queue is made, and why no channel.
type Faults = (Option<OpenFault>, Option<OpenFault>);

/// The first number of a range `FIRST-LAST/STEP`, the one after the last and the step; one number is a range too.
fn range_of(case: &Case, word: &str) -> (u64, u64, usize) {
    let (word, step) = word.split_once('/').unwrap_or((word, "1"));
    let (first, last) = word.split_once('-').unwrap_or((word, word));
    let step = case.decimal(step) as usize;
    let (first, last) = (case.decimal(first), case.decimal(last));
    (first, last.saturating_add(1), step)
}

/// Appends why there is none of something, or that it is made.
fn put_made(case: &Case, fault: Option<OpenFault>) {
    match fault {
        Some(fault) => case.put_part(fault),
        None => case.put_part("made"),
    }
}

/// Appends why no queue and why no channel of these numbers are made, where that is not as before.
fn put_limits(case: &Case, harts: u64, capacity: u64, before: &mut Option<Faults>) {
    let (Ok(harts), Ok(capacity)) = (u16::try_from(harts), u32::try_from(capacity)) else {
        return case.unread();
    };
    let of_queue = Core::new(case.alloc, harts, capacity).err();
    let of_channel = open(case.alloc, harts, capacity).err();
    if *before != Some((of_queue, of_channel)) {
        put_made(case, of_queue);
        put_made(case, of_channel);
    }
    *before = Some((of_queue, of_channel));
}

/// `limits HARTS CAPACITIES`, each a number or a range: why no queue and why no channel of them is made, once for all
/// that are alike and come one after the other.
pub(crate) fn limits(case: &Case) {
    let (harts, capacities) = (case.word(), case.word());
    let (first, end, step) = range_of(case, harts);
    let (low, high, by) = range_of(case, capacities);
    let mut before = None;
    for harts in (first..end).step_by(step.max(1)) {
        for capacity in (low..high).step_by(by.max(1)) {
            put_limits(case, harts, capacity, &mut before);
        }
    }
}

/// `queue HARTS CAPACITY`: a new queue.
pub(crate) fn begin(case: &Case) -> Option<Queue> {
    let (harts, capacity) = (case.word(), case.word());
    let harts = case.short(harts);
    case.sets();
    let Ok(capacity) = capacity.parse::<u32>() else {
        case.unread();
        return None;
    };
    match Core::new(case.alloc, harts, capacity) {
        Ok(core) => Some(Queue { core, harts }),
        Err(_) => {
            case.unread();
            None
        }
    }
}

/// `offer MESSAGE`: whether the queue takes the message, or gives it back.
pub(crate) fn offer(case: &Case, queue: &mut Option<Queue>) {
    let word = case.text();
    let message = message_of(case, word);
    let Some(queue) = queue.as_mut() else {
        return case.unread();
    };
    let Some(message) = message else {
        return;
    };
    if message.hart >= queue.harts {
        return case.unread();
    }
    match queue.core.offer(message) {
        Ok(()) => case.put_part("taken"),
        Err(back) => {
            case.put_part("back");
            put_message(case, &back);
        }
    }
}

/// `take`: the front message, which is taken.
pub(crate) fn take(case: &Case, queue: &mut Option<Queue>) {
    let Some(queue) = queue.as_mut() else {
        return case.unread();
    };
    match queue.core.take() {
        Some(message) => put_message(case, &message),
        None => case.put_part("none"),
    }
}
