//! What became of a message that came.

ghost use Rattle.std.specs.Prelude.{Some};
ghost use Rattle.auditing.specs.FateText.{fate_text};

use std::fmt;

/// What became of a message of RECEIVED: the first of these that applies. A message is true where SENT has its hart and
/// number with just its payload.
#[derive(Clone, Copy, Debug, PartialEq, Eq)]
pub enum Fate {
    /// SENT has no message of its hart and number.
    Stranger,
    /// It is not true: SENT has its hart and number with another payload.
    Changed,
    /// An earlier true message of RECEIVED has its hart and number.
    Repeat,
    /// An earlier true message of RECEIVED of its hart has a greater number.
    Late,
    /// None of these.
    InOrder,
}

impl fmt::Display for Fate {
    ghost output = { λ fate. Some (fate_text fate) };

    fn fmt<W: fmt::Write>(&self, f: &mut fmt::Formatter<W>) -> fmt::Result {
        f.write_str(match *self {
            Fate::Stranger => "stranger",
            Fate::Changed => "changed",
            Fate::Repeat => "repeat",
            Fate::Late => "late",
            Fate::InOrder => "in order",
        })
    }
}
