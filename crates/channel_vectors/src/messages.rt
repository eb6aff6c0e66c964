//! Messages, headers and captures, written and read.

use cases::{Case, bytes_of, message_of, mode_of};
use funnel::OpenFault;
use message::{
    DemuxFault, Header, Message, MessageFault, Messages, Start, read_message, read_start,
    write_header, write_message,
};
use payload::{Mode, PackFault};

/// Appends a message, as a part.
pub(crate) fn put_message(case: &Case, message: &Message) {
    let (hart, number) = (message.hart, message.number);
    case.put_part(hart);
    case.put(".");
    case.put_shown(number);
    case.put(":");
    case.put_digits(message.payload.bytes());
}

/// Appends a header: its mode, its period and its count of harts.
fn put_header(case: &Case, header: Header) {
    let mode = match header.mode {
        Mode::Differential => "header diff",
        Mode::Full => "header full",
    };
    case.put_part(mode);
    case.put_word(header.period);
    case.put_word(header.harts);
}

/// `message MESSAGE`: the bytes as which it is written. Each way of reading them returns the message.
pub(crate) fn written(case: &Case) {
    let word = case.text();
    let sent = message_of(case, word);
    let mut bytes = Vec::new(case.alloc);
    if let Some(message) = &sent {
        if write_message(&mut bytes, message).is_err() {
            return case.no_memory();
        }
    }
    case.put_digits(bytes.as_slice());
    let read = read_message(&mut bytes.as_slice());
    let next = Messages::new(bytes.as_slice()).next();
    let is_read = matches!(&read, Ok(read) if *read == sent);
    let is_next = matches!(&next, Ok(next) if *next == sent);
    let is_start =
        matches!(read_start(&mut bytes.as_slice()), Ok(Start::Version1(start)) if start == sent);
    if !is_read || !is_next || !is_start {
        case.put_part("another is read");
    }
}

/// `header MODE PERIOD HARTS`: the bytes as which it is written. Each way of reading them returns the header.
pub(crate) fn header_written(case: &Case) {
    let (mode, period, harts) = (case.word(), case.word(), case.word());
    let header = Header {
        mode: mode_of(case, mode),
        period: case.short(period),
        harts: case.short(harts),
    };
    let mut bytes = Vec::new(case.alloc);
    if write_header(&mut bytes, &header).is_err() {
        return case.no_memory();
    }
    case.put_digits(bytes.as_slice());
    let found = Messages::new(bytes.as_slice()).header();
    let start = read_start(&mut bytes.as_slice());
    if found != Ok(Some(header)) || start != Ok(Start::Version2(header)) {
        case.put_part("another is read");
    }
}

/// Appends what reading a message returns; whether reading may go on.
fn put_read(case: &Case, read: Result<Option<Message>, MessageFault>) -> bool {
    match read {
        Ok(Some(message)) => {
            put_message(case, &message);
            return true;
        }
        Ok(None) => case.put_part("end"),
        Err(fault) => case.put_part(fault),
    }
    false
}

/// Appends what a call for a header returns; whether reading may go on.
fn put_header_read(case: &Case, read: Result<Option<Header>, MessageFault>) -> bool {
    match read {
        Ok(Some(header)) => put_header(case, header),
        Ok(None) => case.put_part("no header"),
        Err(fault) => {
            case.put_part(fault);
            return false;
        }
    }
    true
}

/// `memory BYTES`: what two calls for a header return, and where none failed the messages up to the end or a fault, with
/// what one more call returns then. All of it by `Messages`.
pub(crate) fn in_memory(case: &Case) {
    let digits = case.text();
    let bytes = bytes_of(case, digits);
    let mut messages = Messages::new(bytes.as_slice());
    let first = put_header_read(case, messages.header());
    let second = put_header_read(case, messages.header());
    let mut ended = if first && second { 0 } else { 2 };
    for _ in 0..bytes.len().saturating_add(2) {
        if ended < 2 && !put_read(case, messages.next()) {
            ended += 1;
        }
    }
}

/// Appends the messages that are left up to a fault or the end, which comes again.
fn put_rest(case: &Case, mut rest: &[u8]) {
    for _ in 0..rest.len().saturating_add(1) {
        let read = read_message(&mut rest);
        let is_end = matches!(&read, Ok(None));
        if !put_read(case, read) {
            if is_end {
                put_read(case, read_message(&mut rest));
            }
            return;
        }
    }
    case.put_part("no end");
}

/// `stream BYTES`: what `read_start` returns, then messages by `read_message` up to a fault or the end. `messages BYTES`:
/// those from the first byte on.
pub(crate) fn from_stream(case: &Case, verb: &str) {
    let digits = case.text();
    let bytes = bytes_of(case, digits);
    let mut rest = bytes.as_slice();
    if verb == "stream" {
        match read_start(&mut rest) {
            Ok(Start::Version2(header)) => put_header(case, header),
            Ok(Start::Version1(Some(message))) => put_message(case, &message),
            Ok(Start::Version1(None)) => case.put_part("no message"),
            Err(fault) => return case.put_part(fault),
        }
    }
    put_rest(case, rest);
}

/// `fault NAME`: the text of a fault that no other case has.
pub(crate) fn fault(case: &Case) {
    match case.text() {
        "read" => case.put_part(MessageFault::Read),
        "write" => case.put_part(MessageFault::Write),
        "pad" => case.put_part(DemuxFault::Packet(PackFault::BadPad)),
        "memory" => case.put_part(OpenFault::Memory),
        _ => case.unread(),
    }
}
