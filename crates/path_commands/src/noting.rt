//! What is found of the messages of some harts of RECEIVED.

ghost use Rattle.std.specs.Prelude.{◌≡◌};
ghost use Rattle.path_commands.specs.steps.Noting.{noted_after, noted_at, noted_with, strangers_after};

use auditing::Finding;

/// What is found of the messages of the harts that are asked for, as far as RECEIVED is read.
#[derive(Clone, Copy)]
pub(crate) struct Noted {
    /// How many of them are strangers.
    pub(crate) strangers: u64,
    /// The place of the first of them that is not in order or skips a number, if there is one.
    pub(crate) first: Option<u64>,
}

impl Noted {
    /// Before the first message.
    pub(crate) const NONE: Noted = Noted {
        strangers: 0,
        first: None,
    };

    /// After one message more, of which this is found at this place.
    #[inline(always)]
    pub(crate) fn after(self, place: u64, finding: Finding) -> Noted
        ensures { result ≡ noted_after self place finding }
    {
        let first = if self.first.is_some() || finding.is_plain() {
            self.first
        } else {
            Some(place)
        };
        Noted {
            strangers: strangers_after(self.strangers, finding),
            first,
        }
    }

    /// After one message more of a live audit, of which this is found at this place. They come in any order.
    pub(crate) fn with(self, place: u64, finding: Finding) -> Noted
        ensures { result ≡ noted_with self place finding }
    {
        let noted = Noted {
            strangers: strangers_after(self.strangers, finding),
            first: self.first,
        };
        if finding.is_plain() {
            noted
        } else {
            noted.with_place(place)
        }
    }

    /// After one message more that has a line, at this place.
    pub(crate) fn with_place(self, place: u64) -> Noted
        ensures { result ≡ noted_at self place }
    {
        let first = match self.first {
            Some(other) => other.min(place),
            None => place,
        };
        Noted {
            strangers: self.strangers,
            first: Some(first),
        }
    }
}

/// How many strangers came, after one message more.
#[inline(always)]
fn strangers_after(count: u64, finding: Finding) -> u64
    ensures { result ≡ strangers_after count finding }
{
    match finding {
        Finding::Stranger => count.saturating_add(1),
        _ => count,
    }
}
