//! What is counted of the lines of a live audit.

ghost use Rattle.std.specs.Prelude.{◌≡◌, ◌<◌, [], IfOk, List, is_some, length, slice_get};
ghost use Rattle.live.specs.CountsMore.{counts_joined, counts_nothing};
ghost use Rattle.live.specs.Lines.{Line};
ghost use Rattle.live.specs.Rows.{Counts, CountsMore, LineRows, found_counts, given_counts, late_counts, row_by};
ghost use Rattle.live.specs.Rows.{row_in, others_in};
ghost use Rattle.live.specs.steps.Counting.{with_counts};

use crate::arrived::Arrived;
use crate::held::SentMessage;
use crate::lines::LiveLines;
use auditing::{Finding, HartRow, Lost, Tally};
use std::alloc::{AllocError, Allocator, Global};
use std::marker::Model;

/// What a live audit finds of a hart.
#[derive(Clone, Copy, Debug)]
pub struct LiveRow {
    /// What an audit finds, as far as lines were handed over. The messages of SENT are those that came or were given up. The
    /// hart is whole if nothing is lost and each message that came is in order. Runs of lost numbers are complete runs,
    /// whatever lines they have. No hart is exchanged for another.
    pub row: HartRow,
    /// How many messages of the hart came too late.
    pub too_late: u64,
}

/// What is counted of a hart. A count of 2^64 - 1 stays.
#[derive(Clone, Copy)]
pub(crate) struct LineCounts {
    /// How many messages of SENT came or were given up.
    pub(crate) sent: u64,
    /// How many messages came.
    pub(crate) came: u64,
    /// How many messages of SENT were given up and did not come.
    pub(crate) lost: u64,
    /// How many that came are repeats.
    pub(crate) repeated: u64,
    /// How many that came are late.
    pub(crate) late: u64,
    /// How many that came are changed.
    pub(crate) changed: u64,
    /// How many that came are strangers.
    pub(crate) strange: u64,
    /// How many that came are too late.
    pub(crate) too_late: u64,
    /// In how many longest runs of numbers the lost ones are.
    pub(crate) runs: u64,
    /// How many numbers the longest of them has.
    pub(crate) longest: u64,
    /// The most by which a message is late.
    pub(crate) latest: u64,
    /// How many numbers the run has that goes on, 0 where none does.
    pub(crate) run: u64,
}

impl LineCounts {
    /// Before the first line.
    pub(crate) const NONE: LineCounts = LineCounts {
        sent: 0,
        came: 0,
        lost: 0,
        repeated: 0,
        late: 0,
        changed: 0,
        strange: 0,
        too_late: 0,
        runs: 0,
        longest: 0,
        latest: 0,
        run: 0,
    };

    /// After a message of which this is found.
    fn found(self, finding: Finding) -> LineCounts
        ensures { result ≡ found_counts finding self }
    {
        let mut own = self;
        own.came = own.came.saturating_add(1);
        match finding {
            Finding::Stranger => own.strange = own.strange.saturating_add(1),
            Finding::Changed => own.changed = own.changed.saturating_add(1),
            Finding::Repeat => own.repeated = own.repeated.saturating_add(1),
            Finding::Late { by } => {
                own.sent = own.sent.saturating_add(1);
                own.late = own.late.saturating_add(1);
                own.latest = own.latest.max(by);
            }
            Finding::InOrder { .. } => own.sent = own.sent.saturating_add(1),
        }
        own
    }

    /// After a message that is too late.
    fn too_late(self) -> LineCounts
        ensures { result ≡ late_counts self }
    {
        LineCounts {
            came: self.came.saturating_add(1),
            too_late: self.too_late.saturating_add(1),
            ..self
        }
    }

    /// After a message of SENT is given up, which came or not.
    fn given_up(self, came: bool) -> LineCounts
        ensures { result ≡ given_counts came self }
    {
        if came {
            return LineCounts { run: 0, ..self };
        }
        let run = self.run.saturating_add(1);
        LineCounts {
            sent: self.sent.saturating_add(1),
            lost: self.lost.saturating_add(1),
            runs: if self.run == 0 {
                self.runs.saturating_add(1)
            } else {
                self.runs
            },
            longest: self.longest.max(run),
            run,
            ..self
        }
    }

    /// The row of the hart.
    fn row(self) -> LiveRow
        ensures { result ≡ row_by self }
    {
        LiveRow {
            row: HartRow {
                tally: Tally {
                    sent: self.sent,
                    came: self.came,
                    lost: self.lost,
                    repeated: self.repeated,
                    late: self.late,
                    changed: self.changed,
                    whole: self.lost == 0
                        && self.strange == 0
                        && self.changed == 0
                        && self.repeated == 0
                        && self.late == 0
                        && self.too_late == 0,
                },
                strange: self.strange,
                runs: self.runs,
                longest: self.longest,
                latest: self.latest,
                exchanged: None,
            },
            too_late: self.too_late,
        }
    }
}

/// Counts a message of a hart of which this is found. Returns whether the hart is known.
fn count_found<A: Allocator>(counts: &mut Vec<LineCounts, A>, hart: u16, finding: Finding) -> bool
    ensures counts { counts.new.items
        ≡ with_counts (found_counts finding) counts.old.items hart (slice_get counts.old.items hart) }
    ensures known { result ≡ is_some (slice_get counts.old.items hart) }
{
    match counts.get_mut(usize::from(hart)) {
        Some(own) => {
            *own = own.found(finding);
            true
        }
        None => false,
    }
}

/// Counts a message of a hart that is too late.
fn count_late<A: Allocator>(counts: &mut Vec<LineCounts, A>, hart: u16)
    ensures { counts.new.items ≡ with_counts late_counts counts.old.items hart (slice_get counts.old.items hart) }
{
    if let Some(own) = counts.get_mut(usize::from(hart)) {
        *own = own.too_late();
    }
}

/// Counts a message of SENT of a hart that is given up, which came or not.
fn count_given<A: Allocator>(counts: &mut Vec<LineCounts, A>, hart: u16, came: bool)
    ensures { counts.new.items
        ≡ with_counts (given_counts came) counts.old.items hart (slice_get counts.old.items hart) }
{
    if let Some(own) = counts.get_mut(usize::from(hart)) {
        *own = own.given_up(came);
    }
}

/// Counts the lines of a live audit by hart. As a [`LiveLines`] it is handed them, by an audit or by who is handed them
/// itself. Counts are not above 2^64 - 1.
#[derive(Drop)]
pub struct LiveRows<A: Allocator = Global> {
    /// What is counted of each hart.
    counts: Vec<LineCounts, A>,
    /// How many messages came of harts that are not known.
    others: u64,
}

impl<A: Allocator> Model for LiveRows<A> {
    ghost Value = { LineRows };

    ghost view = { λ rows. record { counts = rows.counts.items; others = rows.others } };
}

impl<A: Allocator> LiveRows<A> {
    /// Before the first line, where there are so many harts. Memory is taken once, 96 bytes for each. No other call takes
    /// any.
    pub fn new(alloc: A, harts: u16) -> Result<LiveRows<A>, AllocError>
        ensures none { IfOk result (λ own. Counts [] own) }
        ensures harts { IfOk result (λ own. length own.counts ≡ harts) }
    {
        Ok(LiveRows {
            counts: vec![in alloc; LineCounts::NONE; usize::from(harts)]?,
            others: 0,
        })
    }

    /// How many harts there are.
    pub fn harts(&self) -> usize
        ensures { result ≡ length self.now.counts }
    {
        self.counts.len()
    }

    /// What is counted of a hart.
    pub fn row(&self, hart: usize) -> LiveRow
        requires known { hart < length self.now.counts }
        ensures { (lines : List Line) → Counts lines self.now → result ≡ row_in lines hart }
    {
        self.counts[hart].row()
    }

    /// How many messages came of harts that are not known. Each is a stranger.
    pub fn others(&self) -> u64
        ensures { (lines : List Line) → Counts lines self.now → result ≡ others_in (length self.now.counts) lines }
    {
        self.others
    }
}

impl<A: Allocator> LiveLines for LiveRows<A> {
    ghost Told = { λ old lines new. CountsMore old lines new };

    fn decided(&mut self, one: &Arrived, finding: Finding, _sent: Option<&[u8]>) {
        if count_found(&mut self.counts, one.message.hart, finding) {
            return;
        }
        self.others = self.others.saturating_add(1);
    }

    fn too_late(&mut self, one: &Arrived) {
        count_late(&mut self.counts, one.message.hart);
    }

    fn given_up(&mut self, slot: &SentMessage) {
        count_given(&mut self.counts, slot.message.hart, slot.came);
    }

    fn missing(&mut self, _hart: u16, _lost: Lost) {}

    ghost nothing = { λ lines. counts_nothing lines };

    ghost joined = { λ first between last before after one two. counts_joined first between last before after one two };
}
