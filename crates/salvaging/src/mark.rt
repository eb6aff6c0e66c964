//! What is kept of what is done with the messages of each number.

ghost use Rattle.std.specs.Prelude.{◌≡◌};
ghost use Rattle.salvaging.specs.steps.Marks.{verdict_of};

use crate::treatment::Treatment;

/// What is kept of what is done with the messages of a number: all of it, or only a verdict.
pub(crate) trait Mark: Copy + Drop {
    ghost use Rattle.salvaging.specs.declared.treatment.Treatment.{Treatment};

    /// What is kept of this.
    ghost kept: { Treatment → Self };

    /// Keeps what is done with the messages of a number.
    fn of(treatment: Treatment) -> Self
        ensures { result ≡ kept treatment };
}

impl Mark for Treatment {
    ghost kept = { λ treatment. treatment };

    fn of(treatment: Treatment) -> Treatment {
        treatment
    }
}

/// What is said of the messages of a number, in a byte.
#[derive(Clone, Copy)]
pub(crate) enum Verdict {
    /// The number is doubtful.
    Doubtful,
    /// Its message is used, but it is bad or stands alone.
    NotGood,
    /// Its message is passed over.
    Passed,
    /// Its message is decoded.
    Taken,
}

impl Mark for Verdict {
    ghost kept = { verdict_of };

    fn of(treatment: Treatment) -> Verdict {
        match treatment {
            Treatment::Taken(_) => Verdict::Taken,
            Treatment::Passed => Verdict::Passed,
            Treatment::Bad(_) | Treatment::Alone => Verdict::NotGood,
            _ => Verdict::Doubtful,
        }
    }
}
