//! A word of a schedule, read byte by byte.

ghost use Rattle.std.specs.Prelude.{◌≡◌};
ghost use Rattle.funnel.specs.steps.Words.{turn_at, with_byte, with_digit};

use crate::Turn;
use crate::schedule_fault::ScheduleFault;

/// The most turns of a schedule.
const MOST_TURNS: usize = 16_777_216;

/// What a word is, by its bytes so far.
#[derive(Clone, Copy)]
pub(crate) enum Word {
    /// It has no byte.
    Empty,
    /// It is `c`: the front message is taken.
    Collect,
    /// It is this number: the hart with this number sends.
    Hart(u16),
    /// No turn's word begins so.
    Wrong,
}

impl Word {
    /// What the word is with one byte more, where the harts are those below `harts`.
    pub(crate) fn with_byte(self, harts: u16, byte: u8) -> Word
        ensures { result ≡ with_byte harts byte self }
    {
        match self {
            Word::Empty => {
                if byte == b'c' {
                    Word::Collect
                } else {
                    with_digit(harts, byte, 0)
                }
            }
            Word::Hart(number) => with_digit(harts, byte, number),
            Word::Collect => Word::Wrong,
            Word::Wrong => Word::Wrong,
        }
    }

    /// The turn of the whole word, which has this number, counted from 1; `None` where it is empty.
    pub(crate) fn turn(self, number: usize) -> Result<Option<Turn>, ScheduleFault>
        ensures { result ≡ turn_at number self }
    {
        let turn = match self {
            Word::Empty => return Ok(None),
            Word::Collect => Some(Turn::Collect),
            Word::Hart(hart) => Some(Turn::Hart(hart)),
            Word::Wrong => None,
        };
        if number > MOST_TURNS {
            return Err(ScheduleFault::TooLong);
        }
        match turn {
            Some(turn) => Ok(Some(turn)),
            None => Err(ScheduleFault::Word(number as u32)),
        }
    }
}

/// What a word of digits that make this number is with one byte more after them.
fn with_digit(harts: u16, byte: u8, number: u16) -> Word
    ensures { result ≡ with_digit harts byte number }
{
    let Some(digit) = char::from(byte).to_digit(10) else {
        return Word::Wrong;
    };
    let longer = u32::from(number) * 10 + digit;
    if longer < u32::from(harts) {
        Word::Hart(longer as u16)
    } else {
        Word::Wrong
    }
}
