//! The phases over one log: over its text, its events, packets and payloads, and its captures.

use crate::fault::Fault;
use crate::least::Phase;
use auditing::{Audit, Fate};
use captures::{CaptureOutcome, decode_capture, encode_capture, read_messages};
use decoder::Decoder;
use encoder::Source;
use legalpath::{LegalLog, check};
use losses::{HartPieces, collect_lossy};
use message::{Messages, Version};
use payload::{Mode, Packet, Payload, pack, unpack};
use retire::{Event, MOST_ROWS, read_log_from_slice, write_log};
use rvclass::Program;
use std::alloc::Global;
use std::io::sink;
use std::slice;

/// How many retirements there are from one periodic synchronisation to the next.
pub(crate) const PERIOD: u16 = 1024;

/// The same in the capture that is audited.
const DENSE_PERIOD: u16 = 64;

/// Packets name addresses by differences.
pub(crate) const MODE: Mode = Mode::Differential;

/// A phase over a log.
#[derive(Clone, Copy)]
pub(crate) enum Step {
    /// From the text to the events.
    Reading,
    /// From the events to a text, which nothing keeps.
    Writing,
    /// From the events to whether they are legal.
    Checking,
    /// From the events to the payloads of the packets.
    Encoding,
    /// From the payloads to the events, in a list that grows.
    Decoding,
    /// From the packets to their payloads.
    Packing,
    /// From the payloads to their packets.
    Unpacking,
    /// From the events to a capture.
    CaptureWriting,
    /// From the capture to the events, in a list that grows.
    CaptureDecoding,
    /// From the capture to its stretches, read so that messages may be lost.
    LossyDecoding,
    /// From a capture with many synchronisations to what became of its messages, where just these came.
    Auditing,
}

/// The phases in their order, with their names.
pub(crate) const STEPS: [(&str, Step); 11] = [
    ("log reading", Step::Reading),
    ("log writing", Step::Writing),
    ("legality check", Step::Checking),
    ("encode and pack", Step::Encoding),
    ("unpack and decode", Step::Decoding),
    ("pack", Step::Packing),
    ("unpack", Step::Unpacking),
    ("capture writing", Step::CaptureWriting),
    ("capture decoding", Step::CaptureDecoding),
    ("lossy decoding", Step::LossyDecoding),
    ("audit", Step::Auditing),
];

/// A log in all its forms, and what the last run of a phase made of it.
#[derive(Drop)]
pub(crate) struct LogPhases<'a, 'p> {
    pub(crate) step: Step,
    alloc: Global,
    text: &'a [u8],
    log: &'a LegalLog<'p>,
    packets: Vec<Packet>,
    payloads: Vec<Payload>,
    capture: Vec<u8>,
    /// The capture with many synchronisations, and how many messages it has.
    dense: Vec<u8>,
    dense_messages: u64,
    /// A capture that is written again at each run.
    written: Vec<u8>,
    events: Vec<Event>,
    outcome: Option<CaptureOutcome<Global>>,
    pieces: Vec<HartPieces<Global>>,
}

/// Adds the payloads of a log's packets.
fn add_payloads(payloads: &mut Vec<Payload>, log: &LegalLog<'_>) -> Result<(), Fault> {
    let mut source = Source::new(log, PERIOD, MODE);
    for _ in 0..log.events().len() + 2 {
        let Some(payload) = source.next() else {
            break;
        };
        if payloads.push(payload).is_err() {
            return Err(Fault::Memory);
        }
    }
    Ok(())
}

/// Adds the packets of payloads.
fn add_packets(packets: &mut Vec<Packet>, payloads: &[Payload]) -> Result<(), Fault> {
    for payload in payloads {
        let Ok(packet) = unpack(payload.bytes()) else {
            return Err(Fault::Log);
        };
        if packets.push(packet).is_err() {
            return Err(Fault::Memory);
        }
    }
    Ok(())
}

/// Writes the capture of a log at a period, as messages alone, in place of another one.
fn write_capture(capture: &mut Vec<u8>, log: &LegalLog<'_>, period: u16) -> Result<(), Fault> {
    capture.clear();
    let logs = slice::from_ref(log);
    match encode_capture(logs, period.max(1), MODE, Version::One, capture) {
        Ok(()) => Ok(()),
        Err(_) => Err(Fault::Log),
    }
}

impl<'a, 'p> LogPhases<'a, 'p> {
    /// A log with its text, and nothing else yet.
    pub(crate) fn new(alloc: Global, text: &'a [u8], log: &'a LegalLog<'p>) -> LogPhases<'a, 'p> {
        LogPhases {
            step: Step::Reading,
            alloc,
            text,
            log,
            packets: Vec::new(alloc),
            payloads: Vec::new(alloc),
            capture: Vec::new(alloc),
            dense: Vec::new(alloc),
            dense_messages: 0,
            written: Vec::new(alloc),
            events: Vec::new(alloc),
            outcome: None,
            pieces: Vec::new(alloc),
        }
    }

    /// Makes the other forms of the log.
    pub(crate) fn fill(&mut self) -> Result<(), Fault> {
        add_payloads(&mut self.payloads, self.log)?;
        add_packets(&mut self.packets, self.payloads.as_slice())?;
        write_capture(&mut self.capture, self.log, PERIOD)?;
        write_capture(&mut self.dense, self.log, DENSE_PERIOD)?;
        self.dense_messages = self.audit()?;
        Ok(())
    }

    /// How many items the time of the phase is shared among: packets, payloads or messages, or else events.
    pub(crate) fn items(&self) -> usize {
        match self.step {
            Step::Packing => self.packets.len(),
            Step::Unpacking => self.payloads.len(),
            Step::Auditing => self.dense_messages as usize,
            _ => self.log.events().len(),
        }
    }

    fn read(&mut self) -> Result<u64, Fault> {
        match read_log_from_slice(self.alloc, self.alloc, self.text) {
            Ok(events) => {
                self.events = events;
                Ok(self.events.len() as u64)
            }
            Err(_) => Err(Fault::Log),
        }
    }

    fn write(&self) -> Result<u64, Fault> {
        let events = self.log.events();
        match write_log(self.alloc, &mut sink(), events) {
            Ok(()) => Ok(events.len() as u64),
            Err(_) => Err(Fault::Log),
        }
    }

    /// The number is the first illegal row.
    fn check(&self) -> Result<u64, Fault> {
        match check(self.log.program(), self.log.events()) {
            Ok(()) => Ok(0),
            Err(fault) => Ok(u64::from(fault.row)),
        }
    }

    /// The number is that of the payloads' bytes.
    fn encode(&self) -> u64 {
        let mut source = Source::new(self.log, PERIOD, MODE);
        let mut bytes = 0u64;
        for _ in 0..self.log.events().len() + 2 {
            let Some(payload) = source.next() else {
                break;
            };
            bytes = bytes.wrapping_add(payload.bytes().len() as u64);
        }
        bytes
    }

    fn decode(&mut self) -> Result<u64, Fault> {
        let mut decoder = Decoder::new();
        let program = self.log.program();
        for payload in &self.payloads {
            let Ok(packet) = unpack(payload.bytes()) else {
                return Err(Fault::Log);
            };
            if decoder.feed(program, &packet, &mut self.events).is_err() {
                return Err(Fault::Log);
            }
        }
        Ok(self.events.len() as u64)
    }

    /// The number is that of the payloads' bytes.
    fn pack(&self) -> u64 {
        let mut bytes = 0u64;
        for packet in &self.packets {
            if packet.in_profile() {
                bytes = bytes.wrapping_add(pack(packet).bytes().len() as u64);
            }
        }
        bytes
    }

    /// The number is that of the payloads of a packet.
    fn unpack(&self) -> u64 {
        let mut good = 0u64;
        for payload in &self.payloads {
            if unpack(payload.bytes()).is_ok() {
                good = good.wrapping_add(1);
            }
        }
        good
    }

    /// The number is that of the bytes.
    fn write_capture(&mut self) -> Result<u64, Fault> {
        write_capture(&mut self.written, self.log, PERIOD)?;
        Ok(self.written.len() as u64)
    }

    fn decode_capture(&mut self) -> Result<u64, Fault> {
        let capture = self.capture.as_slice();
        let Ok(outcome) = decode_capture(self.alloc, self.log.program(), 1, capture) else {
            return Err(Fault::Memory);
        };
        let mut events = 0u64;
        for list in &outcome.harts {
            events = events.wrapping_add(list.len() as u64);
        }
        self.outcome = Some(outcome);
        Ok(events)
    }

    /// The number is that of the stretches.
    fn decode_lossy(&mut self) -> Result<u64, Fault> {
        let Ok(read) = read_messages(self.alloc, self.capture.as_slice()) else {
            return Err(Fault::Log);
        };
        let program = self.log.program();
        match collect_lossy(self.alloc, program, 1, MODE, read.messages.as_slice()) {
            Ok(pieces) => self.pieces = pieces,
            Err(_) => return Err(Fault::Log),
        }
        let mut parts = 0u64;
        for hart in &self.pieces {
            parts = parts.wrapping_add(hart.parts.len() as u64);
        }
        Ok(parts)
    }

    /// The number is that of the messages that came in order.
    fn audit(&self) -> Result<u64, Fault> {
        let capture = self.dense.as_slice();
        let Ok(mut audit) = Audit::new(self.alloc, capture) else {
            return Err(Fault::Log);
        };
        let mut left = Messages::new(capture);
        let _ = left.header();
        let mut in_order = 0u64;
        for _ in 0..capture.len() {
            let Ok(Some(message)) = left.next() else {
                break;
            };
            if let Fate::InOrder = audit.take(&message) {
                in_order = in_order.wrapping_add(1);
            }
        }
        Ok(in_order)
    }
}

impl Phase for LogPhases<'_, '_> {
    fn run(&mut self) -> Result<u64, Fault> {
        match self.step {
            Step::Reading => self.read(),
            Step::Writing => self.write(),
            Step::Checking => self.check(),
            Step::Encoding => Ok(self.encode()),
            Step::Decoding => self.decode(),
            Step::Packing => Ok(self.pack()),
            Step::Unpacking => Ok(self.unpack()),
            Step::CaptureWriting => self.write_capture(),
            Step::CaptureDecoding => self.decode_capture(),
            Step::LossyDecoding => self.decode_lossy(),
            Step::Auditing => self.audit(),
        }
    }

    fn free(&mut self) {
        self.events = Vec::new(self.alloc);
        self.outcome = None;
        self.pieces = Vec::new(self.alloc);
    }
}

/// The log of this text, which is legal.
pub(crate) fn log_of<'p>(
    alloc: Global,
    program: &'p Program,
    text: &[u8],
) -> Result<LegalLog<'p>, Fault> {
    let Ok(events) = read_log_from_slice(alloc, alloc, text) else {
        return Err(Fault::Log);
    };
    if events.len() > MOST_ROWS as usize {
        return Err(Fault::Log);
    }
    match LegalLog::new(program, events) {
        Ok(log) => Ok(log),
        Err(_) => Err(Fault::Log),
    }
}
