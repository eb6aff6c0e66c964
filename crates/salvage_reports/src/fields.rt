//! The fields of what salvaging does with a message.

ghost use Rattle.std.specs.Prelude.{◌≡◌, Some};
ghost use Rattle.listing.specs.Cells.{cells};
ghost use Rattle.output.specs.Quoted.{quoted_field};
ghost use Rattle.salvage_reports.specs.Fields.{count_field, done_fields, first_place, last_place, place_if};
ghost use Rattle.salvage_reports.specs.Fields.{taken_flag, treatment_field, why_field};

use crate::hart_rows::{TreatedInRows, taken_by};
use crate::salvaged_items::ReasonField;
use listing::{Place, RowCells, SettledRows, flag_field, read_closes, read_waits};
use payload::{PackFault, Packet};
use salvaging::Treatment;
use std::fmt;

/// The fields of a message after those of its packet and before the names of places, with a comma after each.
#[derive(Clone, Copy)]
pub(crate) struct DoneCells<'a> {
    /// What its payload unpacks to.
    pub(crate) read: &'a Result<Packet, PackFault>,
    /// What is done with it, and which rows it settles.
    pub(crate) one: &'a TreatedInRows,
}

impl fmt::Display for DoneCells<'_> {
    ghost output = { λ done. Some (cells (done_fields quoted_field done.read.now done.one.now)) };

    fn fmt<W: fmt::Write>(&self, f: &mut fmt::Formatter<W>) -> fmt::Result {
        let treatment = &self.one.treated.treatment;
        let waits = taken_flag(read_waits(self.read), treatment);
        let closes = taken_flag(read_closes(self.read), treatment);
        let word = treatment_field(treatment);
        let why = WhyField(treatment);
        let far = flag_field(self.one.treated.far);
        let late = flag_field(self.one.treated.late);
        let count = CountField(treatment);
        let rows = RowCells(SettledRows {
            rows: self.one.rows,
            added: taken_by(treatment),
        });
        let first = Place(first_place(treatment));
        let last = Place(last_place(treatment));
        write!(
            f,
            "{waits},{closes},{word},{why},{far},{late},,{count},{rows},{first},{last},"
        )
    }
}

/// The word for what is done with a message.
fn treatment_field(treatment: &Treatment) -> &'static str
    ensures { result.now ≡ treatment_field treatment.now }
{
    match treatment {
        Treatment::Stranger => "stranger",
        Treatment::Copy => "copy",
        Treatment::Doubtful => "doubtful",
        Treatment::Bad(_) => "bad",
        Treatment::Alone => "alone",
        Treatment::Passed => "passed",
        Treatment::Taken(_) => "taken",
    }
}

/// Whether this is so, of a message that is taken.
fn taken_flag(flag: bool, treatment: &Treatment) -> &'static str
    ensures { result.now ≡ taken_flag flag treatment.now }
{
    match treatment {
        Treatment::Taken(_) => flag_field(flag),
        _ => "",
    }
}

/// Why a message is bad, between quotes where the reason has a comma.
#[derive(Clone, Copy)]
struct WhyField<'a>(&'a Treatment);

impl fmt::Display for WhyField<'_> {
    ghost output = { λ why. Some (why_field quoted_field why.0.now) };

    fn fmt<W: fmt::Write>(&self, f: &mut fmt::Formatter<W>) -> fmt::Result {
        match self.0 {
            Treatment::Bad(why) => write!(f, "{}", ReasonField(*why)),
            _ => f.write_str(""),
        }
    }
}

/// How many events a message adds that is taken.
#[derive(Clone, Copy)]
struct CountField<'a>(&'a Treatment);

impl fmt::Display for CountField<'_> {
    ghost output = { λ count. Some (count_field count.0.now) };

    fn fmt<W: fmt::Write>(&self, f: &mut fmt::Formatter<W>) -> fmt::Result {
        match self.0 {
            Treatment::Taken(added) => write!(f, "{}", added.count),
            _ => f.write_str(""),
        }
    }
}

/// The place of the first event that a message adds, if it adds one.
pub(crate) fn first_place(treatment: &Treatment) -> Option<u64>
    ensures { result ≡ first_place treatment.now }
{
    match treatment {
        Treatment::Taken(added) => place_if(added.count, added.first),
        _ => None,
    }
}

/// The place of the last event that a message adds, if it adds one.
pub(crate) fn last_place(treatment: &Treatment) -> Option<u64>
    ensures { result ≡ last_place treatment.now }
{
    match treatment {
        Treatment::Taken(added) => place_if(added.count, added.last),
        _ => None,
    }
}

/// A place, if there is an event.
fn place_if(count: usize, place: u64) -> Option<u64>
    ensures { result ≡ place_if count place }
{
    if count == 0 { None } else { Some(place) }
}
