//! The capture of a text's lines.

ghost use Rattle.std.specs.Prelude.{◌≡◌, ◌≤◌, ◌++◌, false, Err, IfErr, IfOk, IfSome, None, OnOk, Some};
ghost use Rattle.std.specs.Io.KnownBytes.{Appends};
ghost use Rattle.std.specs.Str.Lines.{lines};
ghost use Rattle.captures.specs.Versions.{MayStart, start_bytes};
ghost use Rattle.message.specs.Capture.{capture};
ghost use Rattle.message.specs.Version.{most_harts};
ghost use Rattle.output.specs.Begun.{AppendsBeginning};
ghost use Rattle.captures.specs.Capture.{capture_of_text, header_with};
ghost use Rattle.captures.specs.Pass.{no_lines, pass};

use crate::line_checking::{check, form_of};
use crate::line_fault::LinesFault;
use crate::line_form::Form;
use crate::line_settings::Settings;
use crate::passed_lines::PassedLines;
use crate::write_start;
use std::io::Write;

/// Writes the capture of a text's lines, one message a line, in the order of the lines.
///
/// A line has a hart, a number and bytes, or a hart and bytes alone; the first line decides which for all, but for a
/// count of numbers, with which each line has a number. In the second form the messages of each hart are numbered from
/// 0. A comma, a blank or a tab separates the fields, and there may be blanks and tabs around each. After the bytes
/// there may be a time, a field that begins with `@`. A line feed ends a line, and a carriage return may come before
/// it; the last line needs no end. The hart and the number are decimal. The bytes are 2 to 36 hexadecimal digits of
/// either case, two a byte, and `0x` may come before them. Empty lines and lines that begin with `#` are passed over,
/// and so is a time.
///
/// Where a field counts so many numbers alone, N, and then begins again at 0, it stands for one of N numbers. The first
/// of these is the greatest number of the hart's messages so far, plus 1, less N / 2; it is 0 where that is below 0,
/// and for the first message of a hart.
///
/// Where a line has a fault, the first such line is returned, and nothing is written. Where the writer fails, what was
/// written is a prefix of the capture. No memory is taken, and the writer is not flushed.
pub fn write_capture<W: Write>(
    settings: Settings,
    text: &[u8],
    sink: &mut W,
) -> Result<(), LinesFault>
    requires period { 1 ≤ settings.period }
    requires harts { IfSome settings.harts (λ harts. (1 ≤ harts) × (harts ≤ most_harts settings.version)) }
    requires numbers { IfSome settings.numbers (λ numbers. 2 ≤ numbers) }
    ensures capture { IfOk (capture_of_text settings text.now)
        (λ bytes. OnOk result (Appends (W.contents sink.old) (W.contents sink.new) bytes)) }
    ensures begun { IfOk (capture_of_text settings text.now)
        (λ bytes. AppendsBeginning bytes (W.contents sink.old) (W.contents sink.new)) }
    ensures write_fault { IfOk (capture_of_text settings text.now)
        (λ bytes. IfErr result (λ fault. fault ≡ LinesFault.Write)) }
    ensures line_fault { IfErr (capture_of_text settings text.now) (λ fault. result ≡ Err fault) }
    ensures unwritten { IfErr (capture_of_text settings text.now) (λ fault. sink.new ≡ sink.old) }
{
    let form = form_of(&settings, text);
    let harts = match check(&settings, form, text) {
        Ok(harts) => harts,
        Err(fault) => return Err(fault),
    };
    write_checked(&settings, form, harts, text, sink)
}

/// Writes the capture of a text's lines, which have so many harts. No line has a fault.
fn write_checked<W: Write>(
    settings: &Settings,
    form: Form,
    harts: u16,
    text: &[u8],
    sink: &mut W,
) -> Result<(), LinesFault>
    requires header { MayStart settings.now.version (header_with settings.now harts) }
    requires numbers { IfSome settings.now.numbers (λ numbers. 2 ≤ numbers) }
    requires right { (pass settings.now false (no_lines (Some form)) (lines text.now)).stop ≡ None }
    ensures written { OnOk result (Appends (W.contents sink.old) (W.contents sink.new)
        (start_bytes settings.now.version (header_with settings.now harts)
        ++ capture (pass settings.now false (no_lines (Some form)) (lines text.now)).messages)) }
    ensures begun { AppendsBeginning (start_bytes settings.now.version (header_with settings.now harts)
        ++ capture (pass settings.now false (no_lines (Some form)) (lines text.now)).messages)
        (W.contents sink.old) (W.contents sink.new) }
    ensures fault { IfErr result (λ fault. fault ≡ LinesFault.Write) }
{
    let harts = usize::from(settings.harts.unwrap_or(harts));
    let Ok(()) = write_start(
        sink,
        settings.version,
        settings.period,
        settings.mode,
        harts,
    ) else {
        return Err(LinesFault::Write);
    };
    let mut passed = PassedLines::of_form(Some(form));
    passed.add(settings, false, text, sink)
}
