//! What the lines and the rows of a report on what is salvaged say.

ghost use Rattle.std.specs.Prelude.{◌≡◌, Some};
ghost use Rattle.output.specs.Fields.{fields_line};
ghost use Rattle.salvaging.specs.PartsIn.{part_of};
ghost use Rattle.salvage_reports.specs.SalvagedItems.{closed_text, columns, counted_of, counted_text, item_fields};
ghost use Rattle.salvage_reports.specs.SalvagedItems.{item_line, item_of, mode_text, reason_field, run_of, said_line};
ghost use Rattle.salvage_reports.specs.SalvagedItems.{said_of, strangers_of, total_piece, total_text};

use crate::offsets::offset_at;
use captures::Offset;
use frames::Span;
use message::Header;
use payload::Mode;
use salvaging::{Part, Reason};
use std::fmt;
use std::fmt::Display;

/// Which messages of a hart are counted.
#[derive(Clone, Copy)]
pub(crate) enum Counted {
    /// Those that are missing in a gap.
    Gap,
    /// Its copies.
    Copies,
    /// Its late messages.
    Late,
}

/// What is counted of all harts that a report is on.
#[derive(Clone, Copy)]
pub(crate) enum Total {
    /// The rows of the stretches.
    Rows,
    /// The messages that are decoded.
    Decoded,
    /// The messages that are passed over.
    Passed,
    /// The far messages.
    Far,
    /// The bad messages.
    Bad,
    /// The messages that stand alone.
    Alone,
    /// The messages of doubtful numbers, without copies.
    Doubtful,
    /// The copies.
    Copies,
    /// The strangers.
    Strangers,
    /// The late messages.
    Late,
    /// The bytes that belong to no frame.
    Bytes,
}

/// What a line or a row says.
#[derive(Clone, Copy)]
pub(crate) enum Item {
    /// A hart, the mode in which it is read, and whether it is closed.
    Hart {
        hart: usize,
        mode: Mode,
        closed: bool,
    },
    /// The mode that the header says, which is not the hart's.
    Said {
        hart: usize,
        said: Mode,
    },
    /// A stretch of this many events, with its first number and its last.
    Stretch {
        hart: usize,
        first: u64,
        last: u64,
        count: usize,
    },
    /// A count of a hart's messages.
    Messages {
        hart: usize,
        what: Counted,
        count: u64,
    },
    /// A bad number, where its message is, and why it is bad.
    Bad {
        hart: usize,
        number: u64,
        offset: u64,
        why: Reason,
    },
    /// A doubtful number, where its first message is, and the first one after it that has another payload.
    Doubtful {
        hart: usize,
        number: u64,
        first: u64,
        second: u64,
    },
    /// A number that stands alone, and where its message is.
    Alone {
        hart: usize,
        number: u64,
        offset: u64,
    },
    /// A far number, and where its message is.
    Far {
        hart: usize,
        number: u64,
        offset: u64,
    },
    /// A run of bytes that belong to no frame: where the first is, and how many there are.
    Run {
        offset: u64,
        count: u64,
    },
    /// How many messages are strangers.
    Strangers {
        count: u64,
    },
    /// A count of all harts that a report is on, which are so many and have so many messages.
    All {
        what: Total,
        count: u64,
        harts: usize,
        messages: usize,
    },
}

/// The name of a mode.
fn mode_text(mode: Mode) -> &'static str
    ensures { result.now ≡ mode_text mode }
{
    match mode {
        Mode::Differential => "differential",
        Mode::Full => "full",
    }
}

/// The line of a hart that is read in another mode than this one, which the header says.
fn said_line(said: Mode) -> &'static str
    ensures { result.now ≡ said_line said }
{
    match said {
        Mode::Differential => "mode: full, the header says differential\n",
        Mode::Full => "mode: differential, the header says full\n",
    }
}

/// Whether a hart is closed.
fn closed_text(closed: bool) -> &'static str
    ensures { result.now ≡ closed_text closed }
{
    if closed { "yes" } else { "no" }
}

/// The name of what is counted.
fn counted_text(what: Counted) -> &'static str
    ensures { result.now ≡ counted_text what }
{
    match what {
        Counted::Gap => "gap",
        Counted::Copies => "copies",
        Counted::Late => "late",
    }
}

/// The name of what is counted of all harts.
fn total_text(what: Total) -> &'static str
    ensures { result.now ≡ total_text what }
{
    match what {
        Total::Rows => "rows",
        Total::Decoded => "decoded",
        Total::Passed => "passed",
        Total::Far => "far",
        Total::Bad => "bad",
        Total::Alone => "alone",
        Total::Doubtful => "doubtful",
        Total::Copies => "copies",
        Total::Strangers => "strangers",
        Total::Late => "late",
        Total::Bytes => "bytes",
    }
}

/// A count of all harts, as a piece of their line.
#[derive(Clone, Copy)]
struct TotalPiece {
    what: Total,
    count: u64,
    harts: usize,
    messages: usize,
}

impl fmt::Display for TotalPiece {
    ghost output = { λ one. Some (total_piece one.what one.count one.harts one.messages) };

    fn fmt<W: fmt::Write>(&self, f: &mut fmt::Formatter<W>) -> fmt::Result {
        let TotalPiece {
            what,
            count,
            harts,
            messages,
        } = *self;
        match what {
            Total::Rows => write!(f, "all: {count} rows"),
            Total::Decoded => write!(f, " of {harts} harts, {messages} messages: {count} decoded"),
            Total::Late => write!(f, "; {count} late"),
            Total::Bytes => write!(f, ", {count} bytes\n"),
            other => {
                let name = total_text(other);
                write!(f, ", {count} {name}")
            }
        }
    }
}

/// The line of an item.
#[derive(Clone, Copy)]
pub(crate) struct ItemLine(pub(crate) Item);

impl fmt::Display for ItemLine {
    ghost output = { λ line. Some (item_line line.0) };

    fn fmt<W: fmt::Write>(&self, f: &mut fmt::Formatter<W>) -> fmt::Result {
        let item = self.0;
        match item {
            Item::Hart { hart, .. } => write!(f, "hart {hart}\n"),
            Item::Said { said, .. } => f.write_str(said_line(said)),
            Item::Stretch {
                first,
                last,
                count,
                ..
            } => write!(f, "stretch: {count} events, numbers {first} to {last}"),
            Item::Messages { what, count, .. } => {
                let name = counted_text(what);
                write!(f, "{name}: {count} messages\n")
            }
            Item::Bad {
                number,
                offset,
                why,
                ..
            } => {
                let at = Offset(offset);
                write!(f, "bad: number {number} at {at}: {why}\n")
            }
            Item::Doubtful {
                number,
                first,
                second,
                ..
            } => {
                let one = Offset(first);
                let other = Offset(second);
                write!(f, "doubtful: number {number} at {one} and {other}\n")
            }
            Item::Alone { number, offset, .. } => {
                let at = Offset(offset);
                write!(f, "alone: number {number} at {at}\n")
            }
            Item::Far { number, offset, .. } => {
                let at = Offset(offset);
                write!(f, "far: number {number} at {at}\n")
            }
            Item::Run { offset, count } => {
                let at = Offset(offset);
                write!(f, "bytes: {count} at {at}\n")
            }
            Item::Strangers { count } => write!(f, "strangers: {count} messages\n"),
            Item::All {
                what,
                count,
                harts,
                messages,
            } => {
                let piece = TotalPiece {
                    what,
                    count,
                    harts,
                    messages,
                };
                piece.fmt(f)
            }
        }
    }
}

/// The line of the names of the columns.
#[derive(Clone, Copy)]
pub(crate) struct Columns;

impl fmt::Display for Columns {
    ghost output = { λ names. Some (fields_line columns) };

    fn fmt<W: fmt::Write>(&self, f: &mut fmt::Formatter<W>) -> fmt::Result {
        f.write_str("kind,hart,number,last,count,offset,second,mode,closed,reason\n")
    }
}

/// Why a message is bad, between quotes where the reason has a comma.
#[derive(Clone, Copy)]
pub(crate) struct ReasonField(pub(crate) Reason);

impl fmt::Display for ReasonField {
    ghost output = { λ why. Some (reason_field why.0) };

    fn fmt<W: fmt::Write>(&self, f: &mut fmt::Formatter<W>) -> fmt::Result {
        let why = self.0;
        match why {
            Reason::Closing { .. } => write!(f, "\"{why}\""),
            Reason::Packet(_) | Reason::Decode(_) => why.fmt(f),
        }
    }
}

/// The row of an item.
#[derive(Clone, Copy)]
pub(crate) struct ItemRow(pub(crate) Item);

impl fmt::Display for ItemRow {
    ghost output = { λ row. Some (fields_line (item_fields reason_field row.0)) };

    fn fmt<W: fmt::Write>(&self, f: &mut fmt::Formatter<W>) -> fmt::Result {
        let item = self.0;
        match item {
            Item::Hart { hart, mode, closed } => {
                let mode = mode_text(mode);
                let closed = closed_text(closed);
                write!(f, "hart,{hart},,,,,,{mode},{closed},\n")
            }
            Item::Said { hart, said } => {
                let said = mode_text(said);
                write!(f, "mode,{hart},,,,,,{said},,\n")
            }
            Item::Stretch {
                hart,
                first,
                last,
                count,
            } => write!(f, "stretch,{hart},{first},{last},{count},,,,,\n"),
            Item::Messages { hart, what, count } => {
                let kind = counted_text(what);
                write!(f, "{kind},{hart},,,{count},,,,,\n")
            }
            Item::Bad {
                hart,
                number,
                offset,
                why,
            } => {
                let at = Offset(offset);
                let why = ReasonField(why);
                write!(f, "bad,{hart},{number},,,{at},,,,{why}\n")
            }
            Item::Doubtful {
                hart,
                number,
                first,
                second,
            } => {
                let one = Offset(first);
                let other = Offset(second);
                write!(f, "doubtful,{hart},{number},,,{one},{other},,,\n")
            }
            Item::Alone {
                hart,
                number,
                offset,
            } => {
                let at = Offset(offset);
                write!(f, "alone,{hart},{number},,,{at},,,,\n")
            }
            Item::Far {
                hart,
                number,
                offset,
            } => {
                let at = Offset(offset);
                write!(f, "far,{hart},{number},,,{at},,,,\n")
            }
            Item::Run { offset, count } => {
                let at = Offset(offset);
                write!(f, "bytes,,,,{count},{at},,,,\n")
            }
            Item::Strangers { count } => write!(f, "strangers,,,,{count},,,,,\n"),
            Item::All { what, count, .. } => {
                let name = total_text(what);
                write!(f, "all,,,,{count},,,,,{name}\n")
            }
        }
    }
}

/// What is said of a part of a hart's log.
pub(crate) fn item_of(hart: usize, offsets: &[usize], part: &Part) -> Item
    ensures { result ≡ item_of hart offsets.now (part_of part.now) }
{
    match part {
        Part::Gap(missing) => Item::Messages {
            hart,
            what: Counted::Gap,
            count: *missing,
        },
        Part::Stretch {
            first,
            last,
            events,
        } => Item::Stretch {
            hart,
            first: *first,
            last: *last,
            count: events.len(),
        },
        Part::Bad { number, place, why } => Item::Bad {
            hart,
            number: *number,
            offset: offset_at(offsets, *place),
            why: *why,
        },
        Part::Doubtful {
            number,
            first,
            second,
        } => Item::Doubtful {
            hart,
            number: *number,
            first: offset_at(offsets, *first),
            second: offset_at(offsets, *second),
        },
        Part::Alone { number, place } => Item::Alone {
            hart,
            number: *number,
            offset: offset_at(offsets, *place),
        },
    }
}

/// What is said of the mode of a hart, where the header says another one.
pub(crate) fn said_of(hart: usize, header: Option<Header>, own: Mode) -> Option<Item>
    ensures { result ≡ said_of hart header own }
{
    let Some(header) = header else {
        return None;
    };
    let said = header.mode;
    match (said, own) {
        (Mode::Differential, Mode::Full) => Some(Item::Said { hart, said }),
        (Mode::Full, Mode::Differential) => Some(Item::Said { hart, said }),
        _ => None,
    }
}

/// What is said of a count of a hart's messages, where there are any.
pub(crate) fn counted_of(hart: usize, what: Counted, count: usize) -> Option<Item>
    ensures { result ≡ counted_of hart what count }
{
    if count == 0 {
        return None;
    }
    let count = count as u64;
    Some(Item::Messages { hart, what, count })
}

/// What is said of the count of strangers, where there are any.
pub(crate) fn strangers_of(count: usize) -> Option<Item>
    ensures { result ≡ strangers_of count }
{
    if count == 0 {
        return None;
    }
    let count = count as u64;
    Some(Item::Strangers { count })
}

/// What is said of bytes that belong to no frame; of a frame nothing.
pub(crate) fn run_of(span: &Span) -> Option<Item>
    ensures { result ≡ run_of span.now }
{
    match span {
        Span::Frame { .. } => None,
        Span::Bytes { offset, count } => Some(Item::Run {
            offset: *offset as u64,
            count: *count as u64,
        }),
    }
}
