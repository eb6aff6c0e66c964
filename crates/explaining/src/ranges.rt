//! The ranges of addresses at which a program's image has bytes.

ghost use Rattle.std.specs.Prelude.{◌≡◌, ◌-◌, ◌+◌, ◌^◌, ◌<◌, IfSome, Some, length, slice_get};
ghost use Rattle.rvclass.specs.Memory.{in_order};
ghost use Rattle.explaining.specs.Ranges.{image_text, range_text, ranges_of};
ghost use Rattle.explaining.specs.steps.JoinedRanges.{carried, passed};
ghost use Rattle.explaining.specs.steps.RangeTexts.{more_text, next_text};

use rvclass::ProgramOver;
use std::fmt;

/// A range of addresses.
#[derive(Clone, Copy)]
pub(crate) struct Range {
    /// The first address.
    pub(crate) first: u64,
    /// The address after the last.
    pub(crate) end: u64,
}

/// The ranges of an image: the first four, and how many more there are.
#[derive(Clone, Copy)]
pub(crate) struct ImageRanges<'a>(pub(crate) &'a ProgramOver<'a>);

impl fmt::Display for ImageRanges<'_> {
    ghost output = { λ text. Some (image_text text.0.now) };

    fn fmt<W: fmt::Write>(&self, f: &mut fmt::Formatter<W>) -> fmt::Result {
        let program = self.0;
        match range_at(program, 0) {
            None => f.write_str("the image is empty"),
            Some(range) => {
                let first = RangeText(range);
                let second = NextRange { program, number: 1 };
                let third = NextRange { program, number: 2 };
                let fourth = NextRange { program, number: 3 };
                let more = MoreRanges(program);
                write!(f, "the image is {first}{second}{third}{fourth}{more}")
            }
        }
    }
}

/// The first and the last address of a range.
#[derive(Clone, Copy)]
struct RangeText(Range);

impl fmt::Display for RangeText {
    ghost output = { λ text. Some (range_text text.0) };

    fn fmt<W: fmt::Write>(&self, f: &mut fmt::Formatter<W>) -> fmt::Result {
        let first = self.0.first;
        let last = self.0.end.saturating_sub(1);
        write!(f, "{first:x} to {last:x}")
    }
}

/// The range with a number, if there is one, after a comma.
#[derive(Clone, Copy)]
struct NextRange<'a> {
    program: &'a ProgramOver<'a>,
    number: usize,
}

impl fmt::Display for NextRange<'_> {
    ghost output = { λ text. Some (next_text (slice_get (ranges_of (in_order text.program.now)) text.number)) };

    fn fmt<W: fmt::Write>(&self, f: &mut fmt::Formatter<W>) -> fmt::Result {
        match range_at(self.program, self.number) {
            None => Ok(()),
            Some(range) => write!(f, ", {}", RangeText(range)),
        }
    }
}

/// How many ranges there are after the first four, if there are more.
#[derive(Clone, Copy)]
struct MoreRanges<'a>(&'a ProgramOver<'a>);

impl fmt::Display for MoreRanges<'_> {
    ghost output = { λ text. Some (more_text (length (ranges_of (in_order text.0.now)) - 4)) };

    fn fmt<W: fmt::Write>(&self, f: &mut fmt::Formatter<W>) -> fmt::Result {
        let more = range_count(self.0).saturating_sub(4);
        if more == 0 {
            Ok(())
        } else {
            write!(f, ", and {more} more")
        }
    }
}

/// The range with a number, in order of addresses, if there is one.
fn range_at(program: &ProgramOver, number: usize) -> Option<Range>
    ensures { result ≡ slice_get (ranges_of (in_order program.now)) number }
{
    let mut range = None;
    let mut left = number;
    for piece in 0..program.piece_count() {
        let extent = program.extent(piece);
        if let Some(one) = passed(range, extent) {
            if left == 0 {
                return Some(one);
            }
            left -= 1;
        }
        range = carried(range, extent);
    }
    if left == 0 { range } else { None }
}

/// The number of ranges.
fn range_count(program: &ProgramOver) -> usize
    ensures { result ≡ length (ranges_of (in_order program.now)) }
{
    let mut range = None;
    let mut count = 0;
    for piece in 0..program.piece_count() {
        let extent = program.extent(piece);
        if passed(range, extent).is_some() {
            count += 1;
        }
        range = carried(range, extent);
    }
    if range.is_some() { count + 1 } else { count }
}

/// The range that ends before a piece with this base and number of bytes.
fn passed(range: Option<Range>, extent: Option<(u64, usize)>) -> Option<Range>
    ensures { result ≡ passed range extent }
{
    match (range, extent) {
        (Some(range), Some((base, length))) => {
            if length == 0 || base == range.end {
                None
            } else {
                Some(range)
            }
        }
        _ => None,
    }
}

/// The range that goes on up to the end of a piece with this base and number of bytes.
fn carried(range: Option<Range>, extent: Option<(u64, usize)>) -> Option<Range>
    requires { IfSome extent (λ extent. extent.0 + extent.1 < 2 ^ 64) }
    ensures { result ≡ carried range extent }
{
    let Some((base, length)) = extent else {
        return range;
    };
    if length == 0 {
        return range;
    }
    let end = base + length as u64;
    let first = match range {
        Some(range) => if base == range.end { range.first } else { base },
        None => base,
    };
    Some(Range { first, end })
}
