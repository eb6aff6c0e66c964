//! From lines of text to a capture.

ghost use Rattle.std.specs.Prelude.{◌≡◌, ◌≤◌, IfSome, Some};
ghost use Rattle.message.specs.Version.{most_harts};
ghost use Rattle.ffi.specs.OfLines.{IsOfLines, ReportsOfLines, count_asked, settings_named, settings_with};

use crate::encoding::{mode_of, version_of};
use crate::fault::Fault;
use crate::handing::hand_out;
use captures::{LinesFault, Settings, write_capture};
use message::Version;
use payload::Mode;
use std::alloc::Global;

/// Writes the capture of the lines of a text to a buffer, one message a line, in the order of the lines: what
/// `tracebench capture` writes. The version is [`VERSION_ONE`](crate::VERSION_ONE) or
/// [`VERSION_TWO`](crate::VERSION_TWO), the mode [`DIFFERENTIAL`](crate::DIFFERENTIAL) or [`FULL`](crate::FULL), and
/// the period 1 or more. The header counts so many harts, at most 1,024 and in version 1 at most 64; with 0 those up to
/// the highest of the lines. A line's field counts so many `numbers`, 2 or more, and then begins again at 0, as with
/// `--number-bits`; with 0 it has the message's own number.
///
/// The status is [`DONE`](crate::status::DONE), [`TOO_SMALL`](crate::status::TOO_SMALL),
/// [`OUT_OF_RANGE`](crate::status::OUT_OF_RANGE) where one of these numbers is out of its range,
/// [`MEMORY`](crate::status::MEMORY), or says what is wrong with the first line that has a fault, which is tested in this
/// order: [`LINE_FIELDS`](crate::status::LINE_FIELDS), [`LINE_HART_ONE`](crate::status::LINE_HART_ONE) or
/// [`LINE_HART_TWO`](crate::status::LINE_HART_TWO), [`LINE_NUMBER`](crate::status::LINE_NUMBER),
/// [`LINE_BYTES`](crate::status::LINE_BYTES), [`LINE_ABOVE`](crate::status::LINE_ABOVE). `line` is then that line,
/// counted from 1, and else 0.
pub fn tracebench_capture_of_lines(
    alloc: Global,
    text: &[u8],
    version: u32,
    mode: u32,
    period: u16,
    harts: u16,
    numbers: u64,
    buffer: &mut [u8],
    wanted: &mut u64,
    line: &mut u64,
) -> u32
    ensures { ReportsOfLines (settings_named version mode period harts numbers) text.now result line.new wanted.old
        wanted.new buffer.old buffer.new }
{
    let settings = settings_named(version, mode, period, harts, numbers);
    match capture_of(alloc, text, settings) {
        Ok(capture) => {
            *line = 0;
            hand_out(capture.as_slice(), buffer, wanted)
        }
        Err(why) => {
            *line = why.row();
            why.status()
        }
    }
}

/// The settings that numbers name, where all are in their ranges.
fn settings_named(
    version: u32,
    mode: u32,
    period: u16,
    harts: u16,
    numbers: u64,
) -> Option<Settings>
    ensures value { result ≡ settings_named version mode period harts numbers }
    ensures period { IfSome result (λ own. 1 ≤ own.period) }
    ensures harts { IfSome result (λ own. IfSome own.harts (λ harts. (1 ≤ harts) × (harts ≤ most_harts own.version))) }
    ensures numbers { IfSome result (λ own. IfSome own.numbers (λ numbers. 2 ≤ numbers)) }
{
    let Some(version) = version_of(version) else {
        return None;
    };
    let Some(mode) = mode_of(mode) else {
        return None;
    };
    settings_with(version, mode, period, harts, numbers)
}

/// The settings in this version and mode, where the other numbers are in their ranges.
fn settings_with(
    version: Version,
    mode: Mode,
    period: u16,
    harts: u16,
    numbers: u64,
) -> Option<Settings>
    ensures value { result ≡ settings_with (Some version) (Some mode) period harts numbers }
    ensures period { IfSome result (λ own. 1 ≤ own.period) }
    ensures harts { IfSome result (λ own. IfSome own.harts (λ harts. (1 ≤ harts) × (harts ≤ most_harts own.version))) }
    ensures numbers { IfSome result (λ own. IfSome own.numbers (λ numbers. 2 ≤ numbers)) }
{
    if period >= 1 && harts <= version.most_harts() && numbers != 1 {
        Some(Settings {
            version,
            mode,
            period,
            harts: harts_asked(harts),
            numbers: numbers_asked(numbers),
        })
    } else {
        None
    }
}

/// The count of harts that is asked for: none with 0.
fn harts_asked(harts: u16) -> Option<u16>
    ensures value { result ≡ count_asked harts }
    ensures same { IfSome result (λ count. (1 ≤ count) × (count ≡ harts)) }
{
    if harts == 0 { None } else { Some(harts) }
}

/// The count of numbers that a field has: none with 0.
fn numbers_asked(numbers: u64) -> Option<u64>
    ensures value { result ≡ count_asked numbers }
    ensures same { IfSome result (λ count. (1 ≤ count) × (count ≡ numbers)) }
{
    if numbers == 0 { None } else { Some(numbers) }
}

/// The capture of the lines of a text, or why there is none.
fn capture_of(alloc: Global, text: &[u8], settings: Option<Settings>) -> Result<Vec<u8>, Fault>
    requires period { IfSome settings (λ own. 1 ≤ own.period) }
    requires harts { IfSome settings (λ own.
        IfSome own.harts (λ harts. (1 ≤ harts) × (harts ≤ most_harts own.version))) }
    requires numbers { IfSome settings (λ own. IfSome own.numbers (λ numbers. 2 ≤ numbers)) }
    ensures { IsOfLines settings text.now result }
{
    let Some(settings) = settings else {
        return Err(Fault::Range);
    };
    let mut capture = Vec::new(alloc);
    match write_capture(settings, text, &mut capture) {
        Ok(()) => Ok(capture),
        Err(LinesFault::Line { line, why }) => Err(Fault::Line(line, why)),
        Err(LinesFault::Write) => Err(Fault::Memory),
    }
}
