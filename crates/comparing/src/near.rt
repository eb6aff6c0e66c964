//! The rows about the place where a log and what is decoded of its hart first differ.

ghost use Rattle.std.specs.Prelude.{◌≡◌, ◌-◌, slice_get};
ghost use Rattle.comparing.specs.steps.Moved.{IsMoved};

use retire::Event;

/// The rows of a log and of what is decoded of its hart at the first place where they differ or one of them has ended,
/// and up to three rows before it, which both have.
#[derive(Clone, Copy)]
pub struct NearRows {
    /// The row of the log at the place, if there is one.
    pub log: Option<Event>,
    /// The decoded row at the place, if there is one.
    pub decoded: Option<Event>,
    /// The row before the place, if there is one.
    pub one_before: Option<Event>,
    /// The row that comes two before the place, if there is one.
    pub two_before: Option<Event>,
    /// The row that comes three before the place, if there is one.
    pub three_before: Option<Event>,
}

impl NearRows {
    /// The rows about the place that comes so many after this one, where these rows come next of both lists.
    pub(crate) fn moved(&self, decoded: &[Event], events: &[Event], more: usize) -> NearRows
        ensures log { result.log ≡ slice_get events.now more }
        ensures decoded { result.decoded ≡ slice_get decoded.now more }
        ensures one { IsMoved 1 more decoded.now self.now result.one_before }
        ensures two { IsMoved 2 more decoded.now self.now result.two_before }
        ensures three { IsMoved 3 more decoded.now self.now result.three_before }
    {
        NearRows {
            log: event_at(events, more),
            decoded: event_at(decoded, more),
            one_before: self.moved_row(decoded, more, 1),
            two_before: self.moved_row(decoded, more, 2),
            three_before: self.moved_row(decoded, more, 3),
        }
    }

    /// The row that comes so many before the place that comes so many after this one: one of the next rows, or one that
    /// is held.
    fn moved_row(&self, rows: &[Event], more: usize, many: usize) -> Option<Event>
        ensures { IsMoved many more rows.now self.now result }
    {
        if many <= more {
            return event_at(rows, more - many);
        }
        self.held(many - more)
    }

    /// The row that comes one, two or three before the place.
    fn held(&self, many: usize) -> Option<Event>
        ensures one { many ≡ 1 → result ≡ self.now.one_before }
        ensures two { many ≡ 2 → result ≡ self.now.two_before }
        ensures three { many ≡ 3 → result ≡ self.now.three_before }
    {
        if many == 1 {
            return self.one_before;
        }
        if many == 2 {
            return self.two_before;
        }
        self.three_before
    }
}

/// The event at a place of a list, if there is one.
fn event_at(events: &[Event], place: usize) -> Option<Event>
    ensures { result ≡ slice_get events.now place }
{
    events.get(place).copied()
}
