//! The structs of the library as rows of numbers, with the names of their fields.

use ffi::{
    Arrival, ByteRun, DecoderNumbers, EncoderNumbers, EventNumbers, ExplainEnd, HartEnd,
    HartNumbers, HartRowNumbers, HartTally, HeaderNumbers, LogPlace, LostRun, PacketNumbers,
    PathEnd, SentPlace, TextEnd, WalkNumbers,
};

/// The numbers of a struct, in the order of its names, and then 0.
pub(crate) type Record = [u64; 21];

/// All numbers are 0.
pub(crate) const NO_FIELDS: Record = [0; 21];

/// What each number is before a call.
pub(crate) const KEPT: u64 = 0x5a5a_5a5a_5a5a_5a5a;

/// The same of 32 and of 16 bits.
pub(crate) const KEPT_32: u32 = 0x5a5a_5a5a;

pub(crate) const KEPT_16: u16 = 0x5a5a;

/// A struct of numbers.
pub(crate) trait Fields: Copy + Drop {
    /// The names of its fields, with a blank between each two.
    const NAMES: &'static str;

    /// The struct with these numbers, of which each has the low bits that its field has place for.
    fn of(numbers: &Record) -> Self;

    /// Its numbers.
    fn record(&self) -> Record;
}

/// The struct that no call wrote.
pub(crate) fn kept<T: Fields>() -> T {
    T::of(&[KEPT; 21])
}

/// Numbers, and then 0.
pub(crate) fn padded(numbers: &[u64]) -> Record {
    let mut record = NO_FIELDS;
    for (to, number) in record.iter_mut().zip(numbers) {
        *to = *number;
    }
    record
}

/// The low 32 bits.
pub(crate) fn low_32(number: u64) -> u32 {
    (number & 0xffff_ffff) as u32
}

/// The low 16 bits.
pub(crate) fn low_16(number: u64) -> u16 {
    (number & 0xffff) as u16
}

/// The low 8 bits.
fn low_8(number: u64) -> u8 {
    (number & 0xff) as u8
}

/// The numbers from a place on, and then 0.
fn after(from: usize, numbers: &Record) -> Record {
    let mut own = NO_FIELDS;
    for (to, number) in own.iter_mut().zip(numbers.iter().skip(from)) {
        *to = *number;
    }
    own
}

/// Sets the numbers from this place on to those of an event, and then to 0.
fn set_event(record: &mut Record, from: usize, event: &EventNumbers) {
    for (to, number) in record.iter_mut().skip(from).zip(&event.record()) {
        *to = *number;
    }
}

impl Fields for PacketNumbers {
    const NAMES: &'static str =
        "kind taken privilege cause interrupt handler mode report outcomes map address tval";

    fn of(numbers: &Record) -> PacketNumbers {
        PacketNumbers {
            kind: low_32(numbers[0]),
            taken: low_32(numbers[1]),
            privilege: low_32(numbers[2]),
            cause: low_32(numbers[3]),
            interrupt: low_32(numbers[4]),
            handler: low_32(numbers[5]),
            mode: low_32(numbers[6]),
            report: low_32(numbers[7]),
            outcomes: low_32(numbers[8]),
            map: low_32(numbers[9]),
            address: numbers[10],
            tval: numbers[11],
        }
    }

    fn record(&self) -> Record {
        padded(&[
            u64::from(self.kind),
            u64::from(self.taken),
            u64::from(self.privilege),
            u64::from(self.cause),
            u64::from(self.interrupt),
            u64::from(self.handler),
            u64::from(self.mode),
            u64::from(self.report),
            u64::from(self.outcomes),
            u64::from(self.map),
            self.address,
            self.tval,
        ])
    }
}

impl Fields for EventNumbers {
    const NAMES: &'static str = "kind itype privilege cause interrupt address tval";

    fn of(numbers: &Record) -> EventNumbers {
        EventNumbers {
            kind: low_32(numbers[0]),
            itype: low_8(numbers[1]),
            privilege: low_8(numbers[2]),
            cause: low_8(numbers[3]),
            interrupt: low_8(numbers[4]),
            address: numbers[5],
            tval: numbers[6],
        }
    }

    fn record(&self) -> Record {
        padded(&[
            u64::from(self.kind),
            u64::from(self.itype),
            u64::from(self.privilege),
            u64::from(self.cause),
            u64::from(self.interrupt),
            self.address,
            self.tval,
        ])
    }
}

impl Fields for EncoderNumbers {
    const NAMES: &'static str =
        "between left mode holds due outcomes map reported held_kind held_itype \
        held_privilege held_cause held_interrupt held_address held_tval";

    fn of(numbers: &Record) -> EncoderNumbers {
        EncoderNumbers {
            between: low_16(numbers[0]),
            left: low_16(numbers[1]),
            mode: low_32(numbers[2]),
            holds: low_32(numbers[3]),
            due: low_32(numbers[4]),
            outcomes: low_32(numbers[5]),
            map: low_32(numbers[6]),
            reported: numbers[7],
            held: EventNumbers::of(&after(8, numbers)),
        }
    }

    fn record(&self) -> Record {
        let mut record = padded(&[
            u64::from(self.between),
            u64::from(self.left),
            u64::from(self.mode),
            u64::from(self.holds),
            u64::from(self.due),
            u64::from(self.outcomes),
            u64::from(self.map),
            self.reported,
        ]);
        set_event(&mut record, 8, &self.held);
        record
    }
}

impl Fields for HartNumbers {
    const NAMES: &'static str =
        "phase mode is_announced announced has_last waits outcomes map delta reported \
        last_kind last_itype last_privilege last_cause last_interrupt last_address last_tval expected";

    fn of(numbers: &Record) -> HartNumbers {
        HartNumbers {
            decoder: DecoderNumbers {
                phase: low_32(numbers[0]),
                mode: low_32(numbers[1]),
                is_announced: low_32(numbers[2]),
                announced: low_32(numbers[3]),
                has_last: low_32(numbers[4]),
                waits: low_32(numbers[5]),
                outcomes: low_32(numbers[6]),
                map: low_32(numbers[7]),
                delta: numbers[8],
                reported: numbers[9],
                last: EventNumbers::of(&after(10, numbers)),
            },
            expected: numbers[17],
        }
    }

    fn record(&self) -> Record {
        let decoder = &self.decoder;
        let mut record = padded(&[
            u64::from(decoder.phase),
            u64::from(decoder.mode),
            u64::from(decoder.is_announced),
            u64::from(decoder.announced),
            u64::from(decoder.has_last),
            u64::from(decoder.waits),
            u64::from(decoder.outcomes),
            u64::from(decoder.map),
            decoder.delta,
            decoder.reported,
        ]);
        set_event(&mut record, 10, &decoder.last);
        record[17] = self.expected;
        record
    }
}

impl Fields for WalkNumbers {
    const NAMES: &'static str = "seed random at mix hart privilege next";

    fn of(numbers: &Record) -> WalkNumbers {
        WalkNumbers {
            seed: numbers[0],
            random: numbers[1],
            at: numbers[2],
            mix: low_32(numbers[3]),
            hart: low_16(numbers[4]),
            privilege: low_8(numbers[5]),
            next: low_8(numbers[6]),
        }
    }

    fn record(&self) -> Record {
        let (mix, hart) = (u64::from(self.mix), u64::from(self.hart));
        let (privilege, next) = (u64::from(self.privilege), u64::from(self.next));
        padded(&[self.seed, self.random, self.at, mix, hart, privilege, next])
    }
}

impl Fields for HartEnd {
    const NAMES: &'static str = "end closed";

    fn of(numbers: &Record) -> HartEnd {
        HartEnd {
            end: numbers[0],
            closed: low_32(numbers[1]),
        }
    }

    fn record(&self) -> Record {
        padded(&[self.end, u64::from(self.closed)])
    }
}

impl Fields for HeaderNumbers {
    const NAMES: &'static str = "mode period harts";

    fn of(numbers: &Record) -> HeaderNumbers {
        HeaderNumbers {
            mode: low_32(numbers[0]),
            period: low_16(numbers[1]),
            harts: low_16(numbers[2]),
        }
    }

    fn record(&self) -> Record {
        padded(&[
            u64::from(self.mode),
            u64::from(self.period),
            u64::from(self.harts),
        ])
    }
}

impl Fields for ExplainEnd {
    const NAMES: &'static str = "row fault";

    fn of(numbers: &Record) -> ExplainEnd {
        ExplainEnd {
            row: numbers[0],
            fault: low_32(numbers[1]),
        }
    }

    fn record(&self) -> Record {
        padded(&[self.row, u64::from(self.fault)])
    }
}

/// How a text about a capture ends, whether a payload is bad, and the log, or the line of a text, that is at fault.
#[derive(Clone, Copy)]
pub(crate) struct Ends {
    pub(crate) text: TextEnd,
    pub(crate) bad: u32,
    pub(crate) place: LogPlace,
    pub(crate) line: u64,
}

impl Fields for Ends {
    const NAMES: &'static str = "harts unclosed place fault whole bad log row line";

    fn of(numbers: &Record) -> Ends {
        Ends {
            text: TextEnd {
                harts: numbers[0],
                unclosed: numbers[1],
                place: numbers[2],
                fault: low_32(numbers[3]),
                whole: low_32(numbers[4]),
            },
            bad: low_32(numbers[5]),
            place: LogPlace {
                log: numbers[6],
                row: numbers[7],
            },
            line: numbers[8],
        }
    }

    fn record(&self) -> Record {
        let (text, place) = (&self.text, &self.place);
        padded(&[
            text.harts,
            text.unclosed,
            text.place,
            u64::from(text.fault),
            u64::from(text.whole),
            u64::from(self.bad),
            place.log,
            place.row,
            self.line,
        ])
    }
}

impl Fields for HartRowNumbers {
    const NAMES: &'static str =
        "sent came lost repeated late changed whole strange extra runs longest latest \
        exchanged exchanged_hart";

    fn of(numbers: &Record) -> HartRowNumbers {
        HartRowNumbers {
            tally: HartTally {
                sent: numbers[0],
                came: numbers[1],
                lost: numbers[2],
                repeated: numbers[3],
                late: numbers[4],
                changed: numbers[5],
                whole: low_32(numbers[6]),
            },
            strange: numbers[7],
            extra: numbers[8],
            runs: numbers[9],
            longest: numbers[10],
            latest: numbers[11],
            exchanged: numbers[12],
            exchanged_hart: numbers[13],
        }
    }

    fn record(&self) -> Record {
        let tally = &self.tally;
        padded(&[
            tally.sent,
            tally.came,
            tally.lost,
            tally.repeated,
            tally.late,
            tally.changed,
            u64::from(tally.whole),
            self.strange,
            self.extra,
            self.runs,
            self.longest,
            self.latest,
            self.exchanged,
            self.exchanged_hart,
        ])
    }
}

impl Fields for Arrival {
    const NAMES: &'static str = "hart number fate by offset";

    fn of(numbers: &Record) -> Arrival {
        Arrival {
            hart: low_16(numbers[0]),
            number: numbers[1],
            fate: low_32(numbers[2]),
            by: numbers[3],
            offset: numbers[4],
        }
    }

    fn record(&self) -> Record {
        let (hart, fate) = (u64::from(self.hart), u64::from(self.fate));
        padded(&[hart, self.number, fate, self.by, self.offset])
    }
}

impl Fields for LostRun {
    const NAMES: &'static str = "first last hart";

    fn of(numbers: &Record) -> LostRun {
        LostRun {
            first: numbers[0],
            last: numbers[1],
            hart: numbers[2],
        }
    }

    fn record(&self) -> Record {
        padded(&[self.first, self.last, self.hart])
    }
}

impl Fields for ByteRun {
    const NAMES: &'static str = "offset count";

    fn of(numbers: &Record) -> ByteRun {
        ByteRun {
            offset: numbers[0],
            count: numbers[1],
        }
    }

    fn record(&self) -> Record {
        padded(&[self.offset, self.count])
    }
}

impl Fields for SentPlace {
    const NAMES: &'static str = "message expected";

    fn of(numbers: &Record) -> SentPlace {
        SentPlace {
            message: numbers[0],
            expected: numbers[1],
        }
    }

    fn record(&self) -> Record {
        padded(&[self.message, self.expected])
    }
}

impl Fields for PathEnd {
    const NAMES: &'static str =
        "harts messages lost_runs byte_runs bytes strangers first has_sent_header \
        has_received_header header_fault headers_differ has_first whole sent_mode sent_period sent_harts \
        received_mode received_period received_harts";

    fn of(numbers: &Record) -> PathEnd {
        PathEnd {
            harts: numbers[0],
            messages: numbers[1],
            lost_runs: numbers[2],
            byte_runs: numbers[3],
            bytes: numbers[4],
            strangers: numbers[5],
            first: numbers[6],
            has_sent_header: low_32(numbers[7]),
            has_received_header: low_32(numbers[8]),
            header_fault: low_32(numbers[9]),
            headers_differ: low_32(numbers[10]),
            has_first: low_32(numbers[11]),
            whole: low_32(numbers[12]),
            sent_header: HeaderNumbers::of(&after(13, numbers)),
            received_header: HeaderNumbers::of(&after(16, numbers)),
        }
    }

    fn record(&self) -> Record {
        let (sent, received) = (&self.sent_header, &self.received_header);
        padded(&[
            self.harts,
            self.messages,
            self.lost_runs,
            self.byte_runs,
            self.bytes,
            self.strangers,
            self.first,
            u64::from(self.has_sent_header),
            u64::from(self.has_received_header),
            u64::from(self.header_fault),
            u64::from(self.headers_differ),
            u64::from(self.has_first),
            u64::from(self.whole),
            u64::from(sent.mode),
            u64::from(sent.period),
            u64::from(sent.harts),
            u64::from(received.mode),
            u64::from(received.period),
            u64::from(received.harts),
        ])
    }
}
