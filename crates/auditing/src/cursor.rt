//! How far the messages of a hart are taken.

ghost use Rattle.std.specs.Prelude.{◌≡◌, ◌<◌, ◌+◌, ◌^◌, Some, length};
ghost use Rattle.std.specs.List.{position_or_len};
ghost use Rattle.auditing.specs.Cursor.{Cursor as AnyCursor};

use crate::arrivals::Arrival;
use std::marker::Model;

/// How far the messages of a hart are taken. A clause sees what is left of them.
#[derive(Drop)]
pub struct Cursor<'a> {
    /// The number of SENT that follows the last one matched.
    number: u64,
    /// The flags of SENT from there on.
    sent: &'a [bool],
    /// The flags of the messages that are still to come.
    came: &'a [bool],
}

impl<'a> Model for Cursor<'a> {
    ghost Value = { AnyCursor };

    ghost view = { λ own. record { number = own.number; sent = own.sent.now; came = own.came.now } };

    ghost invariant = { λ own. own.number + length own.sent.now < 2 ^ 64 };
}

impl<'a> Cursor<'a> {
    ghost use Rattle.auditing.specs.Arrivals.{after, arrival_of};

    /// The state before the first message.
    pub(crate) fn new(sent: &'a [bool], came: &'a [bool]) -> Cursor<'a>
        ensures { result ≡ record { number = 0; sent = sent.entry.now; came = came.entry.now } }
    {
        Cursor {
            number: 0,
            sent,
            came,
        }
    }

    /// Takes the next message, and returns what became of it.
    pub(crate) fn next(&mut self) -> Arrival
        ensures arrival { result ≡ arrival_of (Some self.old) }
        ensures after { self.new ≡ after self.old (arrival_of (Some self.old)) }
    {
        let came = self.came;
        let Some((flag, behind)) = came.split_first() else {
            return Arrival::Extra;
        };
        self.came = behind;
        if !*flag {
            return Arrival::Extra;
        }
        let sent = self.sent;
        let skips = first_set(sent);
        if skips >= sent.len() {
            return Arrival::Extra;
        }
        let number = self.number + skips as u64;
        self.number = number + 1;
        self.sent = &sent[skips + 1..];
        Arrival::Matched {
            number,
            skips: skips as u64,
        }
    }
}

/// The place of the first flag that is set, or the count of flags where none is set.
pub(crate) fn first_set(flags: &[bool]) -> usize
    ensures { result ≡ position_or_len (λ flag. flag) flags.now }
{
    for (place, flag) in flags.iter().enumerate() {
        if *flag {
            return place;
        }
    }
    flags.len()
}
