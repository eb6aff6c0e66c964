//! The verbs of cases.

use crate::captured::{
    Captured, changes_case, decode_capture_case, decode_changes_case, decode_fronts_case,
    read_capture_case, receive_case, write_decoded_case,
};
use crate::capturing::{
    encode_capture_case, encodes_capture_case, hand_in_alike_case, hand_in_case, hex_lines_case,
    payload_lines_case,
};
use crate::decoding::{Asked, decode_case};
use crate::encoding::{encode_alike_case, encode_case};
use crate::leaping::leap_case;
use crate::listed::{audit_capture_case, dump_capture_case, list_capture_case};
use crate::lossy::{Done, capture_case, far_case, log_case, messages_case};
use crate::measures::{count_alike_case, count_case, measure_case};
use crate::packets::{outcomes_case, pack_case, payload_case, unpack_case};
use crate::paths::{check_case, explain_case, explain_types_case, successor_case};
use crate::programs::{memory_case, program_case};
use cases::{Case, bytes_of, events_of};
use retire::Event;
use rvclass::Program;
use std::alloc::Global;
use std::thread::Threads;

/// What the cases before leave: a program, a log by which stretches are named, and a capture.
#[derive(Drop)]
pub(crate) struct Vectors {
    program: Option<Program>,
    log: Vec<Event>,
    capture: Vec<u8>,
}

/// The case of a verb over a log in its arguments, or none.
fn ask_arguments(case: &Case, program: &Program, verb: &str) {
    match verb {
        "check" => check_case(case, program),
        "successor" => successor_case(case, program),
        "explain" => explain_case(case, program),
        "explain-types" => explain_types_case(case, program),
        "encode" => encode_case(case, program),
        "encode-alike" => encode_alike_case(case, program),
        "count" => count_case(case, program),
        "count-alike" => count_alike_case(case, program),
        "measure" | "measure-counted" => measure_case(case, program, verb),
        "leap" => leap_case(case, program),
        _ => case.unread(),
    }
}

/// The case of a verb over packets and messages.
fn ask_messages(case: &Case, captured: Captured<'_>, verb: &str) {
    match verb {
        "decode" => decode_case(case, captured.program, Asked::Rows),
        "answers" => decode_case(case, captured.program, Asked::Answers),
        "collect" => messages_case(case, captured, Done::Collected),
        "salvage" => messages_case(case, captured, Done::Salvaged),
        "treat" => messages_case(case, captured, Done::Treated),
        "collect-capture" => capture_case(case, captured, Done::Collected),
        "salvage-capture" => capture_case(case, captured, Done::Salvaged),
        "lossy" => log_case(case, captured, Done::Collected),
        "drawn" => log_case(case, captured, Done::Salvaged),
        _ => ask_arguments(case, captured.program, verb),
    }
}

/// The case of a verb over the log or the capture of the cases before.
fn ask_captured(case: &Case, captured: Captured<'_>, verb: &str) {
    match verb {
        "read-capture" => read_capture_case(case, captured.bytes),
        "receive" => receive_case(case, captured),
        "dump-capture" => dump_capture_case(case, captured.bytes),
        "list-capture" => list_capture_case(case, captured),
        "audit-capture" => audit_capture_case(case, captured.bytes),
        "payload-lines" => payload_lines_case(case, captured.bytes),
        "changes" => changes_case(case, captured),
        "hand-in" => hand_in_case(case, captured),
        "hand-in-alike" => hand_in_alike_case(case, captured),
        "hex-lines" => hex_lines_case(case, captured),
        "encodes-capture" => encodes_capture_case(case, captured),
        _ => ask_messages(case, captured, verb),
    }
}

impl Vectors {
    /// No program yet, and an empty log and capture.
    pub(crate) fn new(alloc: Global) -> Vectors {
        Vectors {
            program: None,
            log: Vec::new(alloc),
            capture: Vec::new(alloc),
        }
    }

    /// Sets the capture of the log.
    fn encode(&mut self, case: &Case) {
        let made = match &self.program {
            Some(program) => encode_capture_case(case, (program, self.log.as_slice())),
            None => return case.unread(),
        };
        self.capture = made;
    }

    /// The case of a verb by the program of the cases before.
    fn ask<R: Threads + Sync>(&self, rt: &R, case: &Case, verb: &str) {
        let Some(program) = &self.program else {
            return case.unread();
        };
        let captured = Captured {
            program,
            log: self.log.as_slice(),
            bytes: self.capture.as_slice(),
        };
        match verb {
            "decode-capture" => decode_capture_case(case, rt, captured),
            "write-decoded" => write_decoded_case(case, rt, captured),
            "decode-fronts" => decode_fronts_case(case, rt, captured),
            "decode-changes" => decode_changes_case(case, rt, captured),
            _ => ask_captured(case, captured, verb),
        }
    }

    /// Appends what a case gives. Where there is no such verb, or its arguments are not read, that is noted.
    pub(crate) fn answer<R: Threads + Sync>(&mut self, rt: &R, case: &Case) {
        let verb = case.word();
        match verb {
            "log" => {
                case.sets();
                self.log = events_of(case);
            }
            "capture" => {
                case.sets();
                let digits = case.text();
                self.capture = bytes_of(case, digits);
            }
            "encode-capture" => self.encode(case),
            "program" => self.program = program_case(case),
            "memory" => memory_case(case),
            "pack" => pack_case(case),
            "unpack" => unpack_case(case),
            "payload" => payload_case(case),
            "outcomes" => outcomes_case(case),
            "far" => far_case(case),
            _ => self.ask(rt, case, verb),
        }
    }
}
