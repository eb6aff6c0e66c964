//! A row of the table.

ghost use Rattle.std.specs.Prelude.{Some};
ghost use Rattle.captures.specs.Table.{bits_per_retirement, measure_row};
ghost use Rattle.captures.specs.steps.Name.{name_text};

use crate::measures::Measures;
use std::fmt;
use std::fmt::Display;

/// Whose measures a row has.
#[derive(Clone, Copy)]
pub(crate) enum Name {
    /// Those of the hart of this number.
    Hart(usize),
    /// Those of all harts together.
    All,
}

impl fmt::Display for Name {
    ghost output = { λ name. Some (name_text name) };

    fn fmt<W: fmt::Write>(&self, f: &mut fmt::Formatter<W>) -> fmt::Result {
        match *self {
            Name::Hart(hart) => hart.fmt(f),
            Name::All => write!(f, "all"),
        }
    }
}

/// How many bits of payload bytes a retirement takes.
#[derive(Clone, Copy)]
struct BitsPerRetirement {
    payload_bytes: u64,
    retirements: u64,
}

impl fmt::Display for BitsPerRetirement {
    ghost output = { λ bits. Some (bits_per_retirement bits.payload_bytes bits.retirements) };

    fn fmt<W: fmt::Write>(&self, f: &mut fmt::Formatter<W>) -> fmt::Result {
        if self.retirements == 0 {
            return Ok(());
        }
        let n = 8000 * u128::from(self.payload_bytes) / u128::from(self.retirements);
        write!(f, "{}.{}{}{}", n / 1000, n / 100 % 10, n / 10 % 10, n % 10)
    }
}

/// A row, with the end of its line.
#[derive(Clone, Copy)]
pub(crate) struct Row {
    pub(crate) name: Name,
    pub(crate) measures: Measures,
}

impl fmt::Display for Row {
    ghost output = { λ row. Some (measure_row (name_text row.name) row.measures) };

    fn fmt<W: fmt::Write>(&self, f: &mut fmt::Formatter<W>) -> fmt::Result {
        let name = self.name;
        let Measures {
            events,
            retirements,
            traps,
            branches,
            packets,
            support,
            sync,
            trap,
            address,
            map,
            notify,
            updiscon,
            payload_bytes,
            longest,
        } = self.measures;
        let bits = BitsPerRetirement {
            payload_bytes,
            retirements,
        };
        write!(f, "{name},{events},{retirements},{traps},{branches},")?;
        write!(f, "{packets},{support},{sync},{trap},{address},{map},")?;
        write!(f, "{notify},{updiscon},{payload_bytes},{longest},{bits}\n")
    }
}
