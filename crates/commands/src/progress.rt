//! How much of some files is read, or how many of their messages are worked through, in words, and how often that is
//! written.

ghost use Rattle.std.specs.Prelude.{◌≡◌, Some};
ghost use Rattle.commands.specs.Progress.{amount_of, amount_text, is_due, is_looked_at};

use std::fmt;

/// The clock is looked at once for so many messages, so that most of them do not cost what it takes.
pub(crate) const MESSAGES_A_LOOK: u64 = 64;

/// At least so many milliseconds are between two writes of the line.
pub(crate) const PERIOD_MILLIS: u64 = 100;

/// How much of some files is read, or how many of their messages are worked through.
#[derive(Clone, Copy)]
pub enum Amount {
    /// So many hundredths of all their bytes, or of all messages.
    Share(u64),
    /// So many bytes, where it is not known how many there are.
    Bytes(u64),
}

impl Amount {
    /// How much it is where so many bytes were read of so many, or so many messages were worked through. The total is 0
    /// where it is not known.
    pub fn of(read: u64, total: u64) -> Amount
        ensures { result ≡ amount_of read total }
    {
        if total == 0 {
            return Amount::Bytes(read);
        }
        if read >= total {
            return Amount::Share(100);
        }
        let share = u128::from(read) * 100 / u128::from(total);
        Amount::Share(share as u64)
    }
}

impl fmt::Display for Amount {
    ghost output = { λ amount. Some (amount_text amount) };

    fn fmt<O: fmt::Write>(&self, f: &mut fmt::Formatter<O>) -> fmt::Result {
        match self {
            Amount::Share(share) => write!(f, "{share} percent"),
            Amount::Bytes(bytes) => write!(f, "{bytes} bytes"),
        }
    }
}

/// Whether the time is looked at where so many messages were worked through, and so many are now.
pub fn is_looked_at(before: u64, now: u64) -> bool
    ensures { result ≡ is_looked_at before now }
{
    before / MESSAGES_A_LOOK != now / MESSAGES_A_LOOK
}

/// Whether the line may be written again at this time, where it was written last at that one. Times are milliseconds.
pub fn is_due(last: u64, now: u64) -> bool
    ensures { result ≡ is_due last now }
{
    now.saturating_sub(last) >= PERIOD_MILLIS
}
