//! What an audit keeps of a hart.

ghost use Rattle.std.specs.Prelude.{◌≡◌, [], IfOk, OnOk, length, map, option_map, slice_get};
ghost use Rattle.auditing.specs.Ledger.{HartLedger};
ghost use Rattle.auditing.specs.Seen.{sight_by};
ghost use Rattle.auditing.specs.steps.Indexing.{fresh, longer};
ghost use Rattle.auditing.specs.steps.Moving.{has_in};
ghost use Rattle.auditing.specs.steps.Taking.{counted, fate_in, finding_in, hart_after, row_in, tally_in};

use crate::exchange::first_exchanged;
use crate::fate::Fate;
use crate::finding::{Finding, finding_at, lateness};
use crate::lost::run_lengths;
use crate::row::HartRow;
use crate::tally::{Counts, Tally};
use frames::Sight;
use payload::{By, same};
use std::alloc::{AllocError, Allocator};
use std::marker::Model;

/// The messages that SENT has of a hart, and which of them came so far.
#[derive(Drop)]
pub(crate) struct HartAudit<'a, A: Allocator> {
    /// The payload of each message, by its number.
    pub(crate) payloads: Vec<&'a [u8], A>,
    /// Whether a true message came, by its number.
    pub(crate) came: Vec<bool, A>,
    /// The number after the greatest of the true messages that came, 0 where none came.
    pub(crate) past: u64,
    /// The most by which a message was late, 0 where none was.
    pub(crate) latest: u64,
    pub(crate) counts: Counts,
}

impl<'a, A: Allocator> Model for HartAudit<'a, A> {
    ghost Value = { HartLedger };

    ghost view = { λ h. record {
      payloads = map (λ payload. payload.now) h.payloads.items;
      came = h.came.items;
      past = h.past;
      latest = h.latest;
      counts = h.counts;
    } };

    ghost invariant = { λ h. length h.came.items ≡ length h.payloads.items };
}

impl<'a, A: Allocator + Copy> HartAudit<'a, A> {
    /// The state before the first message of SENT, with a capacity for so many messages.
    pub(crate) fn new(alloc: A, count: usize) -> Result<HartAudit<'a, A>, AllocError>
        ensures { IfOk result (λ own. own ≡ fresh []) }
    {
        Ok(HartAudit {
            payloads: Vec::with_capacity(alloc, count)?,
            came: Vec::with_capacity(alloc, count)?,
            past: 0,
            latest: 0,
            counts: Counts::NONE,
        })
    }
}

impl<'a, A: Allocator> HartAudit<'a, A> {
    /// Keeps the payload of the next message of SENT.
    pub(crate) fn add(&mut self, payload: &'a [u8]) -> Result<(), AllocError>
        ensures { OnOk result (self.new ≡ longer self.old payload.entry.now) }
    {
        self.payloads.reserve(1)?;
        self.came.reserve(1)?;
        self.payloads.push_reserved(payload);
        self.came.push_reserved(false);
        Ok(())
    }

    /// The fate of the hart's message with this number and this payload, by what payloads are compared by.
    fn fate(&self, number: u64, payload: &[u8], by: By) -> Fate
        ensures { result ≡ fate_in by self.now number payload.now }
    {
        let place = number as usize;
        match self.payloads.get(place) {
            None => Fate::Stranger,
            Some(own) => {
                if !same(own, payload, by) {
                    Fate::Changed
                } else if self.came[place] {
                    Fate::Repeat
                } else if number + 1 < self.past {
                    Fate::Late
                } else {
                    Fate::InOrder
                }
            }
        }
    }

    /// Takes the hart's message with this number and this payload, and returns what is found of it.
    pub(crate) fn take(&mut self, number: u64, payload: &[u8], by: By) -> Finding
        ensures finding { result ≡ finding_in by self.old number payload.now }
        ensures after { self.new ≡ hart_after self.old number (fate_in by self.old number payload.now) }
    {
        let fate = self.fate(number, payload, by);
        let place = number as usize;
        let past = self.past;
        self.counts = counted(self.counts, fate);
        match fate {
            Fate::Late => {
                self.came[place] = true;
                self.latest = self.latest.max(lateness(past, number));
            }
            Fate::InOrder => {
                self.came[place] = true;
                self.past = number + 1;
            }
            _ => {}
        }
        finding_at(fate, past, number)
    }

    /// What is known of the hart's message with this number and this payload.
    pub(crate) fn sight(&self, number: u64, payload: &[u8], by: By) -> Sight
        ensures { result ≡ sight_by by (slice_get self.now.payloads number) payload.now }
    {
        match self.payloads.get(number as usize) {
            None => Sight::Strange,
            Some(own) => {
                if same(own, payload, by) {
                    Sight::Same
                } else {
                    Sight::Numbered
                }
            }
        }
    }

    /// The payload that SENT has with this number, if it has one.
    pub(crate) fn payload(&self, number: u64) -> Option<&'a [u8]>
        ensures { option_map (λ payload. payload.now) result ≡ slice_get self.now.payloads number }
    {
        self.payloads.get(number as usize).copied()
    }

    /// Whether the hart has a message with this number and this payload.
    pub(crate) fn has(&self, number: u64, payload: &[u8], by: By) -> bool
        ensures { result ≡ has_in by number payload.now self.now }
    {
        match self.payloads.get(number as usize) {
            None => false,
            Some(own) => same(own, payload, by),
        }
    }

    /// What is found of the hart, where so many of its messages that are not true are of each hart.
    pub(crate) fn row(&self, moved: &[u64]) -> HartRow
        ensures { result ≡ row_in self.now moved.now }
    {
        let lengths = run_lengths(self.came.as_slice());
        let untrue = u128::from(self.counts.changed) + u128::from(self.counts.strange);
        HartRow {
            tally: self.tally(),
            strange: self.counts.strange,
            runs: lengths.runs,
            longest: lengths.longest,
            latest: self.latest,
            exchanged: first_exchanged(moved, untrue),
        }
    }

    /// What became of the hart's messages.
    pub(crate) fn tally(&self) -> Tally
        ensures { result ≡ tally_in self.now }
    {
        let lost = self.came.iter().filter(|came| !**came).count() as u64;
        let counts = self.counts;
        Tally {
            sent: self.came.len() as u64,
            came: counts.came,
            lost,
            repeated: counts.repeated,
            late: counts.late,
            changed: counts.changed,
            whole: lost == 0
                && counts.strange == 0
                && counts.changed == 0
                && counts.repeated == 0
                && counts.late == 0,
        }
    }
}

/// The counts after one more message of this fate.
fn counted(counts: Counts, fate: Fate) -> Counts
    ensures { result ≡ counted counts fate }
{
    let mut counts = counts;
    counts.came = counts.came.saturating_add(1);
    match fate {
        Fate::Stranger => counts.strange = counts.strange.saturating_add(1),
        Fate::Changed => counts.changed = counts.changed.saturating_add(1),
        Fate::Repeat => counts.repeated = counts.repeated.saturating_add(1),
        Fate::Late => counts.late = counts.late.saturating_add(1),
        Fate::InOrder => {}
    }
    counts
}
