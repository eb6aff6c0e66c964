//! What an audit finds of all harts together.

ghost use Rattle.std.specs.Prelude.{◌≡◌};
ghost use Rattle.path_commands.specs.AuditText.{counted_total, with_too_late};
ghost use Rattle.path_commands.specs.steps.Summing.{added, none_added};

use auditing::HartRow;

/// The sums of what the rows of harts count, and whether all are whole.
#[derive(Clone, Copy)]
pub(crate) struct Total {
    pub(crate) sent: u128,
    pub(crate) came: u128,
    pub(crate) lost: u128,
    pub(crate) repeated: u128,
    pub(crate) late: u128,
    pub(crate) changed: u128,
    pub(crate) strange: u128,
    /// How many messages were too late, in a live audit.
    pub(crate) too_late: Option<u128>,
    pub(crate) whole: bool,
}

impl Total {
    /// The sums of no rows.
    pub(crate) fn new() -> Total
        ensures { result ≡ none_added }
    {
        Total {
            sent: 0,
            came: 0,
            lost: 0,
            repeated: 0,
            late: 0,
            changed: 0,
            strange: 0,
            too_late: None,
            whole: true,
        }
    }

    /// What one row counts.
    pub(crate) fn of(row: HartRow) -> Total
        ensures { result ≡ counted_total row }
    {
        Total {
            sent: u128::from(row.tally.sent),
            came: u128::from(row.tally.came),
            lost: u128::from(row.tally.lost),
            repeated: u128::from(row.tally.repeated),
            late: u128::from(row.tally.late),
            changed: u128::from(row.tally.changed),
            strange: u128::from(row.strange),
            too_late: None,
            whole: row.tally.whole,
        }
    }

    /// The sums with one row more.
    pub(crate) fn add(self, row: HartRow) -> Total
        ensures { result ≡ added self row }
    {
        Total {
            sent: self.sent.saturating_add(u128::from(row.tally.sent)),
            came: self.came.saturating_add(u128::from(row.tally.came)),
            lost: self.lost.saturating_add(u128::from(row.tally.lost)),
            repeated: self.repeated.saturating_add(u128::from(row.tally.repeated)),
            late: self.late.saturating_add(u128::from(row.tally.late)),
            changed: self.changed.saturating_add(u128::from(row.tally.changed)),
            strange: self.strange.saturating_add(u128::from(row.strange)),
            too_late: self.too_late,
            whole: self.whole && row.tally.whole,
        }
    }

    /// The same, of a live audit in which so many messages more were too late.
    pub(crate) fn with_too_late(self, count: u64) -> Total
        ensures { result ≡ with_too_late self count }
    {
        let before = self.too_late.unwrap_or(0);
        let too_late = before.saturating_add(u128::from(count));
        Total {
            too_late: Some(too_late),
            ..self
        }
    }
}
