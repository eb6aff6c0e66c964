//! What a live audit writes of messages that come (`live`).

ghost use Rattle.std.specs.Prelude.{⊤};

use crate::audits::messages_in;
use crate::paths::by_of;
use crate::windows::Listed;
use auditing::{Finding, Lost};
use cases::{Case, bytes_of};
use frames::Span;
use live::{Arrived, LiveAudit, LiveLines, LiveRows, Received, SentMessage};
use log_streams::{FileFault, FileReader};
use message::Message;
use retire::Given;
use std::collections::VecDeque;
use std::io::{Cursor, Read};

/// Keeps each line that is written in a case of its own, and counts the lines. Nothing is promised of it.
#[derive(Drop)]
struct Put {
    own: Case,
    rows: LiveRows,
}

impl Put {
    /// Appends the place of a message, its hart, and its number.
    fn put_one(&self, one: &Arrived) {
        self.own.put_shown(one.place);
        self.own.put(": ");
        self.own.put_shown(one.message.hart);
        self.own.put(".");
        self.own.put_shown(one.message.number);
    }
}

impl LiveLines for Put {
    ghost Told = { λ _ _ _. ⊤ };

    fn decided(&mut self, one: &Arrived, finding: Finding, sent: Option<&[u8]>) {
        self.rows.decided(one, finding, sent);
        if !finding.is_plain() {
            self.put_one(one);
            self.own.put(" ");
            self.own.put_debug(finding);
            if let Some(sent) = sent {
                self.own.put(", sent ");
                self.own.put_digits(sent);
            }
            self.own.put("\n");
        }
    }

    fn too_late(&mut self, one: &Arrived) {
        self.rows.too_late(one);
        self.put_one(one);
        self.own.put(" too late\n");
    }

    fn given_up(&mut self, slot: &SentMessage) {
        self.rows.given_up(slot);
    }

    fn missing(&mut self, hart: u16, lost: Lost) {
        self.rows.missing(hart, lost);
        self.own.put_shown(hart);
        self.own
            .put_filled(": # to # lost\n", &[lost.first, lost.last]);
    }

    ghost nothing = { λ _. tt };

    ghost joined = { λ _ _ _ _ _ _ _. tt };
}

/// RECEIVED's bytes in memory.
#[derive(Drop)]
struct Came {
    rest: Cursor<Vec<u8>>,
    given: Given,
}

impl FileReader for Came {
    ghost given = { λ file. file.given.bytes };

    fn read(&mut self, buffer: &mut [u8]) -> Result<usize, FileFault> {
        match self.rest.read(buffer) {
            Ok(count) => {
                self.given.put(&buffer[..count]);
                Ok(count)
            }
            Err(_) => Err(FileFault::CannotRead),
        }
    }
}

/// Takes messages, one after the other.
fn take_messages(
    case: &Case,
    audit: &mut LiveAudit,
    sent: &mut Listed,
    lines: &mut Put,
    messages: Vec<Message>,
) {
    let mut came = VecDeque::from_vec(messages);
    for place in 0..came.len() {
        if let Some(message) = came.pop_front() {
            let place = place as u64;
            let taken = audit.take(Arrived { place, message }, sent, lines);
            case.read(taken);
        }
    }
}

/// Takes the messages of RECEIVED's bytes, after its header if it has one, and appends the runs of other bytes.
fn take_bytes(
    case: &Case,
    audit: &mut LiveAudit,
    sent: &mut Listed,
    lines: &mut Put,
    mut received: Received,
    bytes: Vec<u8>,
) {
    let mut came = Came {
        rest: Cursor::new(bytes),
        given: Given::new(),
    };
    let begun = received.begin(&mut came);
    case.read(begun);
    let mut place: u64 = 0;
    for _ in 0..u64::MAX {
        let next = audit.next_received(&mut received, &mut came, sent);
        match case.read(next) {
            Some(Some(Span::Frame { message, .. })) => {
                let taken = audit.take(Arrived { place, message }, sent, lines);
                case.read(taken);
                place = place.saturating_add(1);
            }
            Some(Some(Span::Bytes { offset, count })) => {
                lines
                    .own
                    .put_filled("bytes # at #\n", &[count as u64, offset as u64]);
            }
            _ => return,
        }
    }
}

/// Appends what is counted of each hart, and how many messages came of harts that are not known.
fn put_rows(case: &Case, rows: &LiveRows) {
    for hart in 0..rows.harts() {
        case.put_debug(rows.row(hart));
        case.put("\n");
    }
    case.put_filled("others #", &[rows.others()]);
}

/// What a live audit writes of messages that come, beside those that were sent.
pub(crate) fn live(case: &Case) {
    let window = case.small("window", 0);
    let harts = case.small("harts", 2);
    let by = by_of(case);
    let audit = LiveAudit::new(case.alloc, u32::from(window), harts, by);
    let Some(mut audit) = case.granted(audit) else {
        return;
    };
    let rows = LiveRows::new(case.alloc, harts);
    let Some(rows) = case.granted(rows) else {
        return;
    };
    let left = VecDeque::from_vec(messages_in(case, "sent"));
    let mut sent = Listed { left };
    let mut lines = Put {
        own: Case::new(case.alloc, ""),
        rows,
    };
    if let Some(bytes) = case.value("bytes") {
        let received = Received::new(case.alloc, harts);
        let Some(received) = case.granted(received) else {
            return;
        };
        let bytes = bytes_of(case, bytes);
        take_bytes(case, &mut audit, &mut sent, &mut lines, received, bytes);
    } else {
        let came = messages_in(case, "came");
        take_messages(case, &mut audit, &mut sent, &mut lines, came);
    }
    let ended = audit.end(&mut sent, &mut lines);
    case.read(ended);
    case.put_first(&lines.own);
    put_rows(case, &lines.rows);
}
