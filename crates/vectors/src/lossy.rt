//! Cases of messages of which some are lost (`losses`) or damaged (`salvaging`).

use crate::captured::Captured;
use crate::encoding::{legal_log, settings_of, sourced};
use captures::read_messages;
use cases::{Case, add_message, bytes_of, cut, messages_of, next_mode, put_rows};
use losses::{HartPieces, LossyFault, Part, collect_lossy};
use message::{Message, NoProgress};
use payload::{Mode, Payload};
use retire::Event;
use salvaging::{
    FarNumber, FarTreatment, Part as Salvage, Reason, Salvaged, SalvagedHart, Treated, Treatment,
    far_numbers, salvage, treat_watched,
};

/// Where events are in a log, at this place or after it.
fn position_of(log: &[Event], events: &[Event], from: usize) -> Option<usize> {
    for place in from..log.len() {
        if let Some(rest) = log.get(place..) {
            if rest.starts_with(events) {
                return Some(place);
            }
        }
    }
    None
}

/// Appends a place, with two digits at least.
fn put_place(case: &Case, place: usize) {
    if place < 10 {
        case.put("0");
    }
    case.put_shown(place);
}

/// Appends the places that events have in a log, from the first up to the one after the last; or the events where they
/// are not there. Returns the place after them.
pub(crate) fn put_places(case: &Case, log: &[Event], events: &[Event], from: usize) -> usize {
    match position_of(log, events, from) {
        Some(first) => {
            let end = first.saturating_add(events.len());
            put_place(case, first);
            case.put("-");
            put_place(case, end);
            end
        }
        None => {
            put_rows(case, events);
            from
        }
    }
}

/// Appends whether a hart is closed.
pub(crate) fn put_end(case: &Case, closed: bool) {
    case.put_word(if closed { "closed" } else { "open" });
}

/// Appends the parts of a hart, each stretch by its places in the log, and whether the hart is closed.
fn put_pieces(case: &Case, log: &[Event], pieces: &HartPieces) {
    let mut from = 0;
    for part in pieces.parts.as_slice() {
        match part {
            Part::Gap(lost) => {
                case.put_word("gap");
                case.put_word(*lost);
            }
            Part::Stretch(events) => {
                case.put_word("");
                from = put_places(case, log, events.as_slice(), from);
            }
        }
    }
    put_end(case, pieces.closed);
}

/// Appends the text of harts that are alike, from the first to before the end.
fn put_alike(case: &Case, first: usize, end: usize, text: &str) {
    let last = end.saturating_sub(1);
    if first > 0 {
        case.put("; ");
    }
    case.put_shown(first);
    if first < last {
        case.put_filled("-#", &[last as u64]);
    }
    case.put(": ");
    case.put(text);
}

/// Names harts with the same text together, where the text of each came in a line since the case kept what came before.
pub(crate) fn join_harts(case: &Case) {
    let lines = case.taken();
    let texts = lines.as_str().trim_end_matches('\n');
    let (mut first, mut count) = (0usize, 0usize);
    for (text, next) in texts.split('\n').zip(texts.split('\n').skip(1)) {
        count = count.saturating_add(1);
        if text != next {
            put_alike(case, first, count, text);
            first = count;
        }
    }
    let last = texts.rsplit_once('\n').unwrap_or(("", texts)).1;
    if !last.is_empty() {
        put_alike(case, first, count.saturating_add(1), last);
    }
}

/// Appends why nothing is collected.
fn put_fault(case: &Case, fault: LossyFault) {
    if let LossyFault::Demux(place, _) | LossyFault::Decode(place, _) = fault {
        case.put_filled("message #: ", &[place as u64]);
    }
    case.put_shown(fault);
}

/// Appends what is left of the logs of harts.
fn put_collected(case: &Case, log: &[Event], collected: &[HartPieces]) {
    case.keep();
    for pieces in collected {
        put_pieces(case, log, pieces);
        case.put("\n");
    }
    join_harts(case);
}

/// Whether the message with this number is lost: it is one of these digits, or for `R/M` leaves the rest R by M.
pub(crate) fn is_lost(case: &Case, lost: &str, number: u64) -> bool {
    if let Some((rest, by)) = lost.split_once('/') {
        let (rest, by) = (case.decimal(rest), case.decimal(by));
        return by > 0 && number % by == rest;
    }
    for digit in lost.bytes() {
        if u64::from(digit.wrapping_sub(b'0')) == number {
            return true;
        }
    }
    false
}

/// The messages of hart 0 with these payloads, but for those that are lost.
fn messages_but(case: &Case, payloads: &[Payload], lost: &str) -> Vec<Message> {
    let mut messages = Vec::new(case.alloc);
    for (number, payload) in payloads.iter().enumerate() {
        let number = number as u64;
        if !is_lost(case, lost, number) {
            add_message(case, &mut messages, (0, number), payload.bytes());
        }
    }
    messages
}

/// Appends why a message is bad.
fn put_why(case: &Case, why: Reason) {
    case.put("(");
    case.put_shown(why);
    case.put(")");
}

/// Appends a far number, and what is done with its message where that is not decoded.
fn put_far(case: &Case, far: FarNumber) {
    case.put_filled("far #@#", &[far.number, far.place as u64]);
    match far.treatment {
        FarTreatment::Taken => {}
        FarTreatment::Passed => case.put_word("passed"),
        FarTreatment::Bad => case.put_word("bad"),
    }
}

/// Appends what is reported of the gap at this place among those of a hart, after so many far numbers: how many numbers are
/// missing, or the next far number. Returns how many far numbers there are then.
fn put_gap(case: &Case, hart: &SalvagedHart, at: usize, before: usize) -> usize {
    match hart.gaps.as_slice().get(at) {
        Some(missing) if *missing > 0 => {
            case.put_filled("gap #", &[*missing]);
            before
        }
        _ => {
            if let Some(far) = hart.far.as_slice().get(before) {
                put_far(case, *far);
            }
            before.saturating_add(1)
        }
    }
}

/// Appends a part of what is salvaged but a gap, and returns the place in the log after it.
fn put_part(case: &Case, log: &[Event], part: &Salvage, from: usize) -> usize {
    match part {
        Salvage::Gap(_) => {}
        Salvage::Stretch {
            first,
            last,
            events,
        } => {
            case.put_filled("#-#=", &[*first, *last]);
            return put_places(case, log, events.as_slice(), from);
        }
        Salvage::Bad { number, place, why } => {
            case.put_filled("bad #@# ", &[*number, *place as u64]);
            put_why(case, *why);
        }
        Salvage::Doubtful {
            number,
            first,
            second,
        } => {
            case.put_filled("doubtful #@#@#", &[*number, *first as u64, *second as u64]);
        }
        Salvage::Alone { number, place } => {
            case.put_filled("alone #@#", &[*number, *place as u64]);
        }
    }
    from
}

/// Appends how many messages are of a kind, if there are some.
fn put_count(case: &Case, kind: &str, count: u64) {
    if count > 0 {
        case.put_word(kind);
        case.put_word(count);
    }
}

/// Appends what is salvaged of a hart: the numbers of each stretch with its places in the log, what else is left, how
/// many messages are copies and late, and whether the hart is closed.
fn put_hart(case: &Case, log: &[Event], hart: &SalvagedHart) {
    let mut from = 0;
    let mut gaps: usize = 0;
    let mut far = 0;
    for part in hart.parts.as_slice() {
        case.put_word("");
        if let Salvage::Gap(_) = part {
            far = put_gap(case, hart, gaps, far);
            gaps = gaps.saturating_add(1);
        }
        from = put_part(case, log, part, from);
    }
    put_count(case, "copies", hart.copies as u64);
    put_count(case, "late", hart.late as u64);
    put_end(case, hart.closed);
}

/// Appends what is salvaged.
fn put_salvaged(case: &Case, log: &[Event], salvaged: &Salvaged) {
    case.keep();
    for hart in salvaged.harts.as_slice() {
        put_hart(case, log, hart);
        case.put("\n");
    }
    join_harts(case);
    if salvaged.strangers > 0 {
        case.put_filled("; # strangers", &[salvaged.strangers as u64]);
    }
}

/// The messages of a capture, in their order or `turned`, the last one first.
fn messages_in(case: &Case, bytes: &[u8]) -> Vec<Message> {
    let mut messages = Vec::new(case.alloc);
    let read = read_messages(case.alloc, bytes);
    let Some(read) = case.read(read) else {
        return messages;
    };
    let is_turned = case.text() == "turned";
    let count = read.messages.len();
    for place in 0..count {
        let turned = count.saturating_sub(place.saturating_add(1));
        let place = if is_turned { turned } else { place };
        if let Some(message) = read.messages.get(place) {
            let own = (message.hart, message.number);
            add_message(case, &mut messages, own, message.payload.bytes());
        }
    }
    messages
}

/// The messages of two harts, `HART.NUMBER`, that each have the payload with their number.
fn messages_drawn(case: &Case, payloads: &[Payload]) -> Vec<Message> {
    let mut messages = Vec::new(case.alloc);
    for word in case.text().split_whitespace() {
        let (hart, number) = cut(word, '.');
        let place = (case.short(hart), case.decimal(number));
        match payloads.get(place.1 as usize) {
            Some(payload) => add_message(case, &mut messages, place, payload.bytes()),
            None => case.unread(),
        }
    }
    messages
}

/// Appends what is done with a message.
fn put_treated(case: &Case, treated: &Treated) {
    if treated.far {
        case.put_word("far");
    }
    if treated.late {
        case.put_word("late");
    }
    match treated.treatment {
        Treatment::Stranger => case.put_word("stranger"),
        Treatment::Copy => case.put_word("copy"),
        Treatment::Doubtful => case.put_word("doubtful"),
        Treatment::Bad(why) => {
            case.put_word("bad");
            put_why(case, why);
        }
        Treatment::Alone => case.put_word("alone"),
        Treatment::Passed => case.put_word("passed"),
        Treatment::Taken(added) => {
            let (count, first, last) = (added.count, added.first, added.last);
            case.put_word(count);
            if count > 0 || first > 0 || last > 0 {
                case.put("=");
                case.put_hex(first);
                case.put("-");
                case.put_hex(last);
            }
        }
    }
}

/// What is done with messages.
#[derive(Clone, Copy)]
pub(crate) enum Done {
    Collected,
    Salvaged,
    Treated,
}

/// Appends what is done with messages of so many harts, by places in the log.
fn put_done(
    case: &Case,
    captured: Captured<'_>,
    (harts, mode): (u16, Mode),
    messages: &[Message],
    done: Done,
) {
    let (alloc, program, log) = (case.alloc, captured.program, captured.log);
    match done {
        Done::Collected => match collect_lossy(alloc, program, harts, mode, messages) {
            Ok(collected) => put_collected(case, log, collected.as_slice()),
            Err(fault) => put_fault(case, fault),
        },
        Done::Salvaged => match salvage(alloc, program, harts, mode, messages) {
            Ok(salvaged) => put_salvaged(case, log, &salvaged),
            Err(_) => case.no_memory(),
        },
        Done::Treated => match treat_watched(alloc, program, harts, mode, messages, &NoProgress) {
            Ok(all) => {
                for treated in all.as_slice() {
                    put_treated(case, treated);
                }
            }
            Err(_) => case.no_memory(),
        },
    }
}

/// `collect HARTS MODE MESSAGES`: what is left of the logs of harts; `salvage`: what is salvaged of the messages; both by
/// places in the log. `treat`: what is done with each message. One that is taken adds so many events, from a place to
/// another one.
pub(crate) fn messages_case(case: &Case, captured: Captured<'_>, done: Done) {
    let settings = (case.next_short(), next_mode(case));
    let messages = messages_of(case);
    put_done(case, captured, settings, messages.as_slice(), done);
}

/// `collect-capture HARTS MODE`, `salvage-capture HARTS MODE`, or with `turned` after it: the same of the messages of the
/// capture.
pub(crate) fn capture_case(case: &Case, captured: Captured<'_>, done: Done) {
    let settings = (case.next_short(), next_mode(case));
    let messages = messages_in(case, captured.bytes);
    put_done(case, captured, settings, messages.as_slice(), done);
}

/// `lossy PERIOD MODE LOST`: how many messages the log has, and what is left of it where these are lost. `drawn PERIOD MODE
/// MESSAGES`: what is salvaged of messages of two harts, `HART.NUMBER`, that each have the payload with their number of
/// the log.
pub(crate) fn log_case(case: &Case, captured: Captured<'_>, done: Done) {
    let settings = settings_of(case);
    let Some(legal) = legal_log(case, captured.program, captured.log) else {
        return;
    };
    let payloads = sourced(case, &legal, settings);
    if let Done::Collected = done {
        let lost = case.text();
        let messages = messages_but(case, payloads.as_slice(), lost);
        case.put_filled("of #: ", &[payloads.len() as u64]);
        put_done(case, captured, (1, settings.1), messages.as_slice(), done);
    } else {
        let messages = messages_drawn(case, payloads.as_slice());
        put_done(case, captured, (2, settings.1), messages.as_slice(), done);
    }
}

/// The messages of a hart with these numbers: `N`, or `A-B` for all from A to B. The payload is 00, or the one after a `:`.
fn numbered_messages(case: &Case) -> Vec<Message> {
    let mut messages = Vec::new(case.alloc);
    for word in case.text().split_whitespace() {
        let (numbers, digits) = cut(word, ':');
        let (first, last) = numbers.split_once('-').unwrap_or((numbers, numbers));
        let (first, last) = (case.decimal(first), case.decimal(last));
        let payload = bytes_of(case, if digits.is_empty() { "00" } else { digits });
        for number in first..last.saturating_add(1) {
            add_message(case, &mut messages, (0, number), payload.as_slice());
        }
    }
    messages
}

/// `far NUMBERS`: the far numbers of a hart whose messages come in this order.
pub(crate) fn far_case(case: &Case) {
    let messages = numbered_messages(case);
    let numbers = far_numbers(case.alloc, messages.as_slice());
    if let Some(numbers) = case.granted(numbers) {
        for number in numbers.as_slice() {
            case.put_word(*number);
        }
    }
}
