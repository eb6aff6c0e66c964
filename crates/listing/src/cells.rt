//! The fields of a message before and after those of its packet.

ghost use Rattle.std.specs.Prelude.{◌≡◌, Some};
ghost use Rattle.output.specs.Fields.{fields_line};
ghost use Rattle.listing.specs.Packets.{packet_fields};
ghost use Rattle.listing.specs.Rows.{begin_fields, columns, first_of, flag_field, incomplete_row, last_of};
ghost use Rattle.listing.specs.Rows.{place_field};
ghost use Rattle.listing.specs.Cells.{cells, message_cells};
ghost use Rattle.listing.specs.steps.Writing.{tail_cells};

use crate::packet_cells::PacketCells;
use crate::settled_rows::{RowCells, SettledRows};
use captures::Offset;
use message::Message;
use payload::{Mode, PackFault, Packet};
use std::fmt;

/// The line of the names of the columns.
#[derive(Clone, Copy)]
pub(crate) struct Columns;

impl fmt::Display for Columns {
    ghost output = { λ names. Some (fields_line columns) };

    fn fmt<W: fmt::Write>(&self, f: &mut fmt::Formatter<W>) -> fmt::Result {
        f.write_str(
            "kind,place,offset,hart,number,packet,addr,diff,priv,branch,trap,cause,tval,handler,epc,map,report,mode,\
            ended,bad,waits,closed,treatment,reason,late,bytes,added,first_row,last_row,first,last,first_symbol,\
            first_distance,last_symbol,last_distance\n",
        )
    }
}

/// The fields of a message up to those of its packet, with a comma after each.
#[derive(Clone, Copy)]
pub struct MessageCells<'a> {
    /// The kind of its row.
    pub kind: &'static str,
    /// The mode by which its address field is an address or a difference.
    pub mode: Mode,
    /// How many messages come before it.
    pub at: u64,
    /// The offset of its first byte in the capture.
    pub offset: u64,
    /// The message.
    pub message: &'a Message,
    /// What its payload unpacks to.
    pub read: &'a Result<Packet, PackFault>,
}

impl fmt::Display for MessageCells<'_> {
    ghost output = { λ head. Some
        (message_cells head.kind.now head.mode head.at head.offset head.message.now head.read.now) };

    fn fmt<W: fmt::Write>(&self, f: &mut fmt::Formatter<W>) -> fmt::Result {
        let kind = self.kind;
        let at = self.at;
        let offset = Offset(self.offset);
        let hart = self.message.hart;
        let number = self.message.number;
        let packet = PacketCells {
            mode: self.mode,
            read: self.read,
        };
        write!(f, "{kind},{at},{offset},{hart},{number},{packet}")
    }
}

/// The fields of an effect before the names of its places, with a comma after each.
#[derive(Clone, Copy)]
pub(crate) struct TailCells {
    /// Whether the packet waits for the one that follows it.
    pub(crate) waits: bool,
    /// Whether it closes its hart.
    pub(crate) closes: bool,
    /// How many events the message adds, and which rows they are.
    pub(crate) settled: SettledRows,
    /// The place of the first of them.
    pub(crate) first: Option<u64>,
    /// The place of the last of them.
    pub(crate) last: Option<u64>,
}

impl fmt::Display for TailCells {
    ghost output = { λ tail. Some
        (tail_cells tail.waits tail.closes tail.settled.rows tail.settled.added tail.first tail.last) };

    fn fmt<W: fmt::Write>(&self, f: &mut fmt::Formatter<W>) -> fmt::Result {
        let waits = flag_field(self.waits);
        let closes = flag_field(self.closes);
        let added = self.settled.added;
        let rows = RowCells(self.settled);
        let first = Place(self.first);
        let last = Place(self.last);
        write!(f, "{waits},{closes},,,,,{added},{rows},{first},{last},")
    }
}

/// Whether this is so, as a field: `yes` or `no`.
pub fn flag_field(flag: bool) -> &'static str
    ensures { result.now ≡ flag_field flag }
{
    if flag { "yes" } else { "no" }
}

/// A place or a distance in hexadecimal, where there is one.
#[derive(Clone, Copy)]
pub struct Place(pub Option<u64>);

impl fmt::Display for Place {
    ghost output = { λ place. Some (place_field place.0) };

    fn fmt<W: fmt::Write>(&self, f: &mut fmt::Formatter<W>) -> fmt::Result {
        match self.0 {
            Some(place) => write!(f, "{place:x}"),
            None => f.write_str(""),
        }
    }
}

/// The row of a place at which there is no complete message.
#[derive(Clone, Copy)]
pub(crate) struct IncompleteRow {
    /// How many messages come before it.
    pub(crate) at: u64,
    pub(crate) offset: u64,
}

impl fmt::Display for IncompleteRow {
    ghost output = { λ row. Some (incomplete_row row.at row.offset) };

    fn fmt<W: fmt::Write>(&self, f: &mut fmt::Formatter<W>) -> fmt::Result {
        let at = self.at;
        let offset = Offset(self.offset);
        write!(
            f,
            "incomplete,{at},{offset},,,,,,,,,,,,,,,,,,,,,,,,,,,,,,,,\n"
        )
    }
}
