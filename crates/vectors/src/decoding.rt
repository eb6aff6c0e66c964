//! Cases of decoders (`decoder`), each in all ways of feeding.

use cases::{Case, bytes_of, mode_of, outcomes_of, put_rows};
use decoder::{DecodeFault, Decoder, StraightRuns};
use payload::{Packet, unpack};
use retire::Event;
use rvclass::Program;
use std::alloc::Global;

/// How a decoder is fed.
#[derive(Clone, Copy)]
enum Way {
    /// Into a list whose capacity is its length: a walk is measured before it is written.
    Full,
    /// Into a list with capacity: a walk is written as it is found.
    Ample,
    /// Along skips.
    Skips,
    /// Into pieces with capacity for so many events.
    Pieces(usize),
    /// Into such pieces, along skips.
    SkipsInPieces(usize),
}

/// For how many events pieces have capacity.
const ROOMS: [usize; 15] = [0, 1, 2, 3, 4, 5, 6, 7, 30, 31, 32, 33, 998, 999, 1_000];

/// An event that is in each piece before others are handed out.
const OLD: Event = Event::Retire {
    addr: 2,
    itype: 0,
    privilege: 0,
};

/// How a program is walked: by itself, and along its lines without skips and with them.
#[derive(Clone, Copy)]
struct Walks<'p> {
    program: &'p Program,
    plain: &'p StraightRuns<'p, Global>,
    skips: &'p StraightRuns<'p, Global>,
}

/// A list with capacity for so many events after an old one.
fn piece_for(case: &Case, room: usize) -> Vec<Event> {
    let piece = Vec::with_capacity(case.alloc, room.saturating_add(1));
    let mut piece = case.granted(piece).unwrap_or(Vec::new(case.alloc));
    case.push(&mut piece, OLD);
    piece
}

/// Moves the events of a piece after its old one to a list.
fn move_over(case: &Case, piece: &mut Vec<Event>, log: &mut Vec<Event>) {
    case.extend(log, piece.as_slice().get(1..).unwrap_or(&[]));
    piece.truncate(1);
}

/// Whether a packet's events are all in its first piece, or none since there are more of them than it has capacity for.
fn is_first_piece(count: usize, piece: usize, room: usize) -> bool {
    count == 0 || count > room && piece == 1
}

/// Feeds a packet in pieces with capacity for so many events. What pieces without capacity leave is handed out at once.
/// `None` is where a piece does not have as many events as it has to.
fn feed_in_pieces(
    case: &Case,
    lines: &StraightRuns<'_, Global>,
    decoder: &mut Decoder,
    packet: &Packet,
    log: &mut Vec<Event>,
    room: usize,
) -> Option<Result<(), DecodeFault>> {
    let mut piece = piece_for(case, room);
    let mut left = match decoder.feed_in_pieces(lines.paths(), packet, &mut piece) {
        Ok(left) => left,
        Err(fault) => return (piece.as_slice() == [OLD].as_slice()).then_some(Err(fault)),
    };
    let count = left.len();
    let mut right = is_first_piece(count, piece.len(), room) && left.is_empty() == (count == 0);
    move_over(case, &mut piece, log);
    for _ in 0..count {
        let before = left.len();
        left.next_piece(&mut piece);
        let handed = before.min(room);
        right &= piece.len() == handed.saturating_add(1);
        right &= left.len() == before.saturating_sub(handed);
        move_over(case, &mut piece, log);
    }
    let mut last = piece_for(case, left.len());
    left.next_piece(&mut last);
    move_over(case, &mut last, log);
    (right && left.is_empty()).then_some(Ok(()))
}

/// Feeds a packet. `None` is where the call breaks its promise.
fn feed(
    case: &Case,
    walks: Walks<'_>,
    decoder: &mut Decoder,
    packet: &Packet,
    log: &mut Vec<Event>,
    way: Way,
) -> Option<Result<(), DecodeFault>> {
    match way {
        Way::Full => {
            *log = case.copied(log.as_slice());
            Some(decoder.feed(walks.program, packet, log))
        }
        Way::Ample => {
            let done = log.reserve(64);
            case.note(done);
            Some(decoder.feed(walks.program, packet, log))
        }
        Way::Skips => Some(decoder.feed_by(walks.skips.paths(), packet, log)),
        Way::Pieces(room) => feed_in_pieces(case, walks.plain, decoder, packet, log, room),
        Way::SkipsInPieces(room) => feed_in_pieces(case, walks.skips, decoder, packet, log, room),
    }
}

/// What decoders give: after each packet how many events the list has or the fault, and the events.
#[derive(Drop)]
struct Given {
    answers: Case,
    rows: Case,
}

/// Appends how many events the list has after a packet, or its fault. A fault leaves all as it was. A packet that
/// closes the trace closes the decoder, and no other packet does.
fn put_answer(
    answers: &Case,
    packet: &Packet,
    answer: Result<(), DecodeFault>,
    (before, decoder): (&Decoder, &Decoder),
    (count, length): (usize, usize),
) {
    let late = answer == Err(DecodeFault::AfterClose);
    let closes = late || packet.is_closing() && answer.is_ok();
    match answer {
        Ok(()) => answers.put_word(length),
        Err(fault) => {
            answers.put_word("");
            answers.put_debug(fault);
            if count != length || decoder.state() != before.state() {
                answers.put_word("changed");
            }
        }
    }
    if before.is_closed() != late || decoder.is_closed() != closes {
        answers.put_word("not closed right");
    }
}

impl Given {
    /// Begins a stretch after packets that are lost.
    fn lose(&self, log: &mut Vec<Event>) {
        put_rows(&self.rows, log.as_slice());
        self.rows.put_word("|");
        self.answers.put_word("|");
        *log = Vec::new(self.rows.alloc);
    }

    /// Takes the answer of a packet.
    fn feed(
        &self,
        walks: Walks<'_>,
        decoder: &mut Decoder,
        packet: &Packet,
        log: &mut Vec<Event>,
        way: Way,
    ) {
        let before = *decoder;
        let count = log.len();
        let answers = &self.answers;
        match feed(answers, walks, decoder, packet, log, way) {
            Some(answer) => {
                let counts = (count, log.len());
                put_answer(answers, packet, answer, (&before, &*decoder), counts);
            }
            None => answers.put_word("other pieces"),
        }
    }
}

/// The packet of an argument: `map:OUTCOMES`, or the payload of a packet.
fn packet_in(case: &Case, word: &str) -> Option<Packet> {
    if let Some(digits) = word.strip_prefix("map:") {
        return Some(Packet::Map(outcomes_of(digits)));
    }
    let packet = unpack(bytes_of(case, word).as_slice());
    case.read(packet)
}

/// What is given in one way. `lost=MODE` begins a stretch.
fn fed(case: &Case, walks: Walks<'_>, way: Way) -> Given {
    let given = Given {
        answers: case.over(""),
        rows: case.over(""),
    };
    let mut decoder = Decoder::new();
    let mut log = Vec::new(case.alloc);
    for word in case.text().split_whitespace() {
        if let Some(name) = word.strip_prefix("lost=") {
            decoder.resume(mode_of(&given.rows, name));
            given.lose(&mut log);
        } else if let Some(packet) = packet_in(&given.rows, word) {
            given.feed(walks, &mut decoder, &packet, &mut log, way);
        }
    }
    put_rows(&given.rows, log.as_slice());
    if decoder.is_closed() {
        given.rows.put_word("closed");
    }
    given
}

/// Appends what is given in another way, if it is something else.
fn put_other(case: &Case, walks: Walks<'_>, (answers, rows): (&str, &str), way: Way) {
    let other = fed(case, walks, way);
    let name = match way {
        Way::Full => "full",
        Way::Ample => "ample",
        Way::Skips => "skips",
        Way::Pieces(_) => "pieces",
        Way::SkipsInPieces(_) => "skips in pieces",
    };
    case.put_other(name, &other.answers, answers);
    case.put_other(name, &other.rows, rows);
}

/// What is given of packets: their answers, or else their events.
#[derive(Clone, Copy)]
pub(crate) enum Asked {
    Answers,
    Rows,
}

/// `decode PAYLOADS`: the events of packets, and whether they close the trace. `lost=MODE` begins a stretch. `answers
/// PAYLOADS`: how many events the list has after each packet, or its fault. In which other ways something else is given
/// comes after that.
pub(crate) fn decode_case(case: &Case, program: &Program, asked: Asked) {
    let plain = StraightRuns::new(case.alloc, &*program);
    let mut skips = StraightRuns::new(case.alloc, &*program);
    let done = skips.find(case.alloc);
    case.note(done);
    let walks = Walks {
        program,
        plain: &plain,
        skips: &skips,
    };
    let first = fed(case, walks, Way::Full);
    case.join(&first.answers);
    case.join(&first.rows);
    let (answers, rows) = (first.answers.taken(), first.rows.taken());
    let first = (answers.as_str(), rows.as_str());
    case.put(match asked {
        Asked::Answers => first.0,
        Asked::Rows => first.1,
    });
    put_other(case, walks, first, Way::Ample);
    put_other(case, walks, first, Way::Skips);
    for room in ROOMS {
        put_other(case, walks, first, Way::Pieces(room));
        put_other(case, walks, first, Way::SkipsInPieces(room));
    }
}
