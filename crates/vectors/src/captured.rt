//! Cases of whole captures: what is read, decoded (`captures`), received (`receiver`) and written (`parallel_decode`)
//! of them.

use crate::lossy::{join_harts, put_end, put_places};
use crate::told::Told;
use captures::{CaptureFault, CaptureOutcome, decode_capture, read_front, read_messages};
use cases::{Case, bytes_of};
use message::{HartRange, Header, Message};
use parallel_decode::{DecodedHarts, Selection, Sharing, write_decoded_side_by_side};
use payload::Mode;
use receiver::Receiver;
use retire::{Event, write_log};
use rvclass::Program;
use std::cell::Cell;
use std::io::Write;
use std::thread::Threads;

/// A capture, the program of its harts, and the log by whose places events are named.
#[derive(Clone, Copy)]
pub(crate) struct Captured<'a> {
    pub(crate) program: &'a Program,
    pub(crate) log: &'a [Event],
    pub(crate) bytes: &'a [u8],
}

/// Appends a header, if there is one, and messages.
fn put_messages(case: &Case, header: Option<Header>, messages: &[Message]) {
    if let Some(header) = header {
        case.put(match header.mode {
            Mode::Differential => "diff",
            Mode::Full => "full",
        });
        let numbers = [u64::from(header.period), u64::from(header.harts)];
        case.put_filled(" # #", &numbers);
    }
    for message in messages {
        case.put_word(message.hart);
        case.put_filled(".#:", &[message.number]);
        case.put_digits(message.payload.bytes());
    }
}

/// `read-capture`: the header and the messages of the capture, read as those of a complete one and up to the first fault.
pub(crate) fn read_capture_case(case: &Case, bytes: &[u8]) {
    let read = read_messages(case.alloc, bytes);
    if let Some(read) = case.read(read) {
        put_messages(case, read.header, read.messages.as_slice());
    }
    case.end_first_way();
    let read = read_front(case.alloc, bytes);
    if let Some(read) = case.granted(read) {
        put_messages(case, read.header, read.messages.as_slice());
        if read.stop.is_some() {
            case.put_word("stops");
        }
    }
    case.end_way("up to a fault");
}

/// Appends at which message decoding stopped, and why, if it did.
pub(crate) fn put_fault(case: &Case, fault: Option<(u64, CaptureFault)>) {
    if let Some((number, fault)) = fault {
        case.put_filled("; message #: ", &[number]);
        case.put_shown(fault);
    }
}

/// Appends the events of harts, by places in the log, and which of them are closed, with this after each.
fn put_each(case: &Case, log: &[Event], harts: &[Vec<Event>], closed: &[bool], end: &str) {
    for (events, closed) in harts.iter().zip(closed.iter()) {
        put_places(case, log, events.as_slice(), 0);
        put_end(case, *closed);
        case.put(end);
    }
}

/// Appends the events of harts and which of them are closed. Harts that are alike are named together.
fn put_decoded(case: &Case, log: &[Event], harts: &[Vec<Event>], closed: &[bool]) {
    case.keep();
    put_each(case, log, harts, closed, "\n");
    join_harts(case);
    if harts.len() != closed.len() {
        case.put(", flags of other harts");
    }
}

/// The text of the logs of harts.
fn text_of(case: &Case, harts: &[Vec<Event>]) -> Vec<u8> {
    let mut text = Vec::new(case.alloc);
    for (hart, log) in harts.iter().enumerate() {
        let begun = write!(&mut text, "hart {hart}\n");
        case.granted(begun);
        let written = write_log(case.alloc, &mut text, log.as_slice());
        case.granted(written);
    }
    text
}

/// What one thread writes of a capture, and how decoding ends, if memory is there. The first pass has to tell of each
/// message that is received, and that it ended, once.
fn written<R: Threads + Sync>(
    case: &Case,
    rt: &R,
    captured: Captured<'_>,
    harts: u16,
) -> Option<(Vec<u8>, DecodedHarts)> {
    let told = Told {
        messages: Cell::new(0),
        ends: Cell::new(0),
    };
    let mut text = Vec::new(case.alloc);
    let sharing = Sharing {
        threads: 1,
        text: 0,
    };
    let asked = Selection {
        program: captured.program,
        harts,
        range: HartRange::ALL,
        bytes: captured.bytes,
    };
    let ended = write_decoded_side_by_side(case.alloc, rt, sharing, &asked, &told, &mut text);
    let ended = case.granted(ended)?;
    if let Some((number, _)) = ended.fault {
        if told.messages.get() < number {
            case.put(", other messages are told of");
        }
    }
    if told.ends.get() != 1 {
        case.put(", the end is not told of once");
    }
    Some((text, ended))
}

/// Appends what is written of a capture that is not what it is decoded to.
fn put_other_written<R: Threads + Sync>(
    case: &Case,
    rt: &R,
    captured: Captured<'_>,
    harts: u16,
    outcome: &CaptureOutcome,
) {
    let whole = text_of(case, outcome.harts.as_slice());
    let Some((text, ended)) = written(case, rt, captured, harts) else {
        return;
    };
    let is_text = text.as_slice() == whole.as_slice();
    let is_end = ended.closed.as_slice() == outcome.closed.as_slice();
    if !is_text || !is_end || ended.fault != outcome.fault {
        let sizes = [captured.bytes.len() as u64, u64::from(harts)];
        case.put_filled(", other logs of # bytes and # harts", &sizes);
    }
}

/// Receives the messages of a capture. Appends why one is not received.
fn receive_all(case: &Case, captured: Captured<'_>, receiver: &mut Receiver) {
    let read = read_messages(case.alloc, captured.bytes);
    let Some(read) = case.read(read) else {
        return;
    };
    let announced = match read.header {
        Some(header) => Some(header.mode),
        None => None,
    };
    for message in &read.messages {
        if let Err(fault) = receiver.receive(captured.program, announced, message) {
            case.put_word(fault);
        }
    }
}

/// `receive HARTS`, `receive HARTS EVENTS OWN`: the events of harts by a receiver, which first takes memory for so many
/// events of each of its own harts.
pub(crate) fn receive_case(case: &Case, captured: Captured<'_>) {
    let harts = case.next_short();
    let has_own = !case.text().is_empty();
    let total = if has_own { case.next_decimal() } else { 0 };
    let receiver = Receiver::new(case.alloc, harts);
    let Some(mut receiver) = case.granted(receiver) else {
        return;
    };
    for word in case.text().split_whitespace() {
        let hart = case.short(word);
        if usize::from(hart) < receiver.lists().len() {
            let done = receiver.reserve(hart, total as usize);
            case.note(done);
        } else {
            case.unread();
        }
    }
    receive_all(case, captured, &mut receiver);
    let (lists, closed) = receiver.into_parts();
    put_decoded(case, captured.log, lists.as_slice(), closed.as_slice());
}

/// `decode-capture HARTS`: the events of the harts of the capture, by places in the log, and where decoding stops. What is
/// written of the same bytes has to be the same.
pub(crate) fn decode_capture_case<R: Threads + Sync>(case: &Case, rt: &R, captured: Captured<'_>) {
    let harts = case.next_short();
    let outcome = decode_capture(case.alloc, captured.program, harts, captured.bytes);
    let Some(outcome) = case.granted(outcome) else {
        return;
    };
    let (lists, closed) = (outcome.harts.as_slice(), outcome.closed.as_slice());
    put_decoded(case, captured.log, lists, closed);
    put_fault(case, outcome.fault);
    put_other_written(case, rt, captured, harts, &outcome);
}

/// `write-decoded HARTS`: the text that is written of the capture, which harts are closed, and where decoding stops.
pub(crate) fn write_decoded_case<R: Threads + Sync>(case: &Case, rt: &R, captured: Captured<'_>) {
    let harts = case.next_short();
    let Some((text, ended)) = written(case, rt, captured, harts) else {
        return;
    };
    case.put_text(text.as_slice());
    for closed in &ended.closed {
        put_end(case, *closed);
    }
    put_fault(case, ended.fault);
}

/// Appends what is written of a capture that is not what it is decoded to.
fn compare<R: Threads + Sync>(case: &Case, rt: &R, captured: Captured<'_>, harts: u16) {
    let outcome = decode_capture(case.alloc, captured.program, harts, captured.bytes);
    if let Some(outcome) = case.granted(outcome) {
        put_other_written(case, rt, captured, harts, &outcome);
    }
}

/// `decode-fronts HARTS`: of how many fronts of the capture the same is written as they are decoded to, each with so many
/// harts and all counts below.
pub(crate) fn decode_fronts_case<R: Threads + Sync>(case: &Case, rt: &R, captured: Captured<'_>) {
    let harts = case.next_short();
    let mut count: u64 = 0;
    let others = case.over("");
    for place in 0..captured.bytes.len().saturating_add(1) {
        let bytes = captured.bytes.get(..place).unwrap_or(&[]);
        for harts in 0..harts.saturating_add(1) {
            compare(&others, rt, Captured { bytes, ..captured }, harts);
            count = count.saturating_add(1);
        }
    }
    case.put_shown(count);
    case.put_first(&others);
}

/// Sets the byte at a place.
fn set(bytes: &mut [u8], place: usize, value: u8) {
    if let Some(byte) = bytes.get_mut(place) {
        *byte = value;
    }
}

/// `decode-changes HARTS BYTES`: of how many captures with a byte changed to one of these the same is written as they are
/// decoded to.
pub(crate) fn decode_changes_case<R: Threads + Sync>(case: &Case, rt: &R, captured: Captured<'_>) {
    let harts = case.next_short();
    let digits = case.text();
    let values = bytes_of(case, digits);
    let mut count: u64 = 0;
    let others = case.over("");
    let mut changed = case.copied(captured.bytes);
    for (place, byte) in captured.bytes.iter().enumerate() {
        for value in values.as_slice() {
            set(&mut changed, place, *value);
            let bytes = changed.as_slice();
            compare(&others, rt, Captured { bytes, ..captured }, harts);
            count = count.saturating_add(1);
        }
        set(&mut changed, place, *byte);
    }
    case.put_shown(count);
    case.put_first(&others);
}

/// Appends what bytes decode to as the capture of one hart.
fn put_decoding(case: &Case, captured: Captured<'_>, bytes: &[u8]) {
    let outcome = decode_capture(case.alloc, captured.program, 1, bytes);
    if let Some(outcome) = case.granted(outcome) {
        let (lists, closed) = (outcome.harts.as_slice(), outcome.closed.as_slice());
        put_each(case, captured.log, lists, closed, "");
        put_fault(case, outcome.fault);
    }
}

/// `changes PLACE`: what the capture of one hart decodes to where the byte at a place has each value, values with the same
/// text together.
pub(crate) fn changes_case(case: &Case, captured: Captured<'_>) {
    let place = case.next_decimal() as usize;
    let mut bytes = case.copied(captured.bytes);
    for value in 0..=255u8 {
        set(&mut bytes, place, value);
        put_decoding(case, captured, bytes.as_slice());
        case.put("\n");
    }
    join_harts(case);
}
