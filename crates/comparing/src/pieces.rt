//! A log and what is decoded of its hart, which are compared piece by piece.

ghost use Rattle.std.specs.Prelude.{◌≡◌, ◌≤◌, ◌+◌, ◌-◌, ◌^◌, ◌++◌, ◌==◌, ◌&&◌, List, [], length, min};
ghost use Rattle.bench.specs.Verdict.{count_alike, verdict};
ghost use Rattle.comparing.specs.Compared.{AreNext, HasCompared};
ghost use Rattle.comparing.specs.RowsAbout.{near_rows};
ghost use Rattle.comparing.specs.Verdicts.{verdict_at};
ghost use Rattle.retire.specs.Log.{most_long_rows};
ghost use Rattle.retire.specs.declared.event.Event.{Event as AnyEvent};

use crate::alike_events::count_alike;
use crate::near::NearRows;
use bench::Verdict;
use retire::Event;

/// How far the events of a log are those that were decoded of its hart. Both come piece by piece, side by side.
#[derive(Clone, Copy)]
pub struct Comparing {
    /// How many events of the log came.
    pub(crate) events: usize,
    /// How many decoded events came, or 2^64 - 1 if there were more.
    pub(crate) decoded: usize,
    /// How many of the first are alike.
    pub(crate) alike: usize,
    /// The rows about the first that are not.
    pub(crate) near: NearRows,
}

impl Comparing {
    /// No event of the log came, and no decoded one.
    pub fn new() -> Comparing
        ensures { HasCompared [] [] result }
    {
        Comparing {
            events: 0,
            decoded: 0,
            alike: 0,
            near: NearRows {
                log: None,
                decoded: None,
                one_before: None,
                two_before: None,
                three_before: None,
            },
        }
    }

    /// How many events of the log came.
    pub fn events(&self) -> usize
        ensures { (decoded seen : List AnyEvent) → HasCompared decoded seen self.now → result ≡ length seen }
    {
        let Comparing { events, .. } = *self;
        events
    }

    /// How many decoded events came, or 18,446,744,073,709,551,615 if there were more.
    pub fn decoded(&self) -> usize
        ensures { (decoded seen : List AnyEvent) → HasCompared decoded seen self.now
            → result ≡ min (length decoded) (2 ^ 64 - 1) }
    {
        let Comparing { decoded, .. } = *self;
        decoded
    }

    /// The first row, counted from 1, in which the log and the decoded events differ; where one of both has ended
    /// before that, the row after its last.
    pub fn row(&self) -> usize
        ensures { (decoded seen : List AnyEvent) → HasCompared decoded seen self.now → length seen ≤ most_long_rows
            → result ≡ count_alike decoded seen + 1 }
    {
        self.alike.saturating_add(1)
    }

    /// The rows about that one.
    pub fn near(&self) -> NearRows
        ensures { (decoded seen : List AnyEvent) → HasCompared decoded seen self.now
            → result ≡ near_rows decoded seen }
    {
        let Comparing { near, .. } = *self;
        near
    }

    /// Compares the next decoded events with the next events of the log. As many of both came before, or of the one that
    /// was shorter none comes any more. A log has at most 4,294,967,295 events. After the first difference all are only
    /// counted.
    pub fn add(&mut self, decoded: &[Event], events: &[Event])
        ensures { (before seen : List AnyEvent) → HasCompared before seen self.old
            → AreNext before seen decoded.now events.now → length (seen ++ events.now) ≤ most_long_rows
            → HasCompared (before ++ decoded.now) (seen ++ events.now) self.new }
    {
        let alike = self.alike_with(decoded, events);
        self.near = self.near_with(decoded, events, alike);
        self.alike = alike;
        self.events = self.events.saturating_add(events.len());
        self.decoded = self.decoded.saturating_add(decoded.len());
    }

    /// How many of the first events are alike, with the next ones of both.
    fn alike_with(&self, decoded: &[Event], events: &[Event]) -> usize
        ensures { (before seen : List AnyEvent) → HasCompared before seen self.now
            → AreNext before seen decoded.now events.now → length (seen ++ events.now) ≤ most_long_rows
            → result ≡ count_alike (before ++ decoded.now) (seen ++ events.now) }
    {
        if !self.are_alike() {
            return self.alike;
        }
        self.alike.saturating_add(count_alike(decoded, events))
    }

    /// The rows about the first difference, with the next events of both. So many of the first are alike then.
    fn near_with(&self, decoded: &[Event], events: &[Event], alike: usize) -> NearRows
        ensures { (before seen : List AnyEvent) → HasCompared before seen self.now
            → AreNext before seen decoded.now events.now → length (seen ++ events.now) ≤ most_long_rows
            → alike ≡ count_alike (before ++ decoded.now) (seen ++ events.now)
            → result ≡ near_rows (before ++ decoded.now) (seen ++ events.now) }
    {
        if !self.are_alike() {
            return self.near;
        }
        self.near
            .moved(decoded, events, alike.saturating_sub(self.alike))
    }

    /// Whether all that came of both is alike.
    fn are_alike(&self) -> bool
        ensures { result ≡ (self.now.alike == self.now.events && self.now.alike == self.now.decoded) }
    {
        self.alike == self.events && self.alike == self.decoded
    }

    /// How what was decoded of a hart compares with its log, all of which came. The hart is closed or not.
    pub fn verdict(&self, closed: bool) -> Verdict
        ensures { (decoded seen : List AnyEvent) → HasCompared decoded seen self.now
            → length seen ≤ most_long_rows → result ≡ verdict closed decoded seen }
    {
        verdict_at(closed, self.alike, self.decoded, self.events)
    }
}

/// The verdict on a hart of which so many events were decoded, where the log has so many, and so many of the first are
/// alike.
fn verdict_at(closed: bool, alike: usize, decoded: usize, events: usize) -> Verdict
    ensures { alike ≤ decoded → result ≡ verdict_at closed alike decoded events }
{
    if closed && alike == decoded && alike == events {
        return Verdict::Whole;
    }
    if alike >= decoded {
        return Verdict::Beginning;
    }
    Verdict::Differs(alike as u64 + 1)
}
