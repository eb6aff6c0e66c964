//! Facts that follow from the definition of a text's capture.

ghost use Rattle.captures.specs.Pass.{PartsArePassed, PassedLinesStream};
ghost use Rattle.captures.specs.ReadBack.{LinesBecomeTheCapture, LinesSayTheirMessages};
ghost use Rattle.captures.specs.Recovered.{LowNumbersAreRecovered};
ghost use Rattle.captures.specs.Streamed.{LinesStreamTheCapture, LinesStreamTheirFirstFault};

/// The lines of hexadecimal that are written for legal logs, long ones among them, become the capture that is written
/// for them, in the same version and mode and at the same period.
pub fn hex_lines_become_the_capture()
    ensures { LinesBecomeTheCapture }
{}

/// The lines of hexadecimal of any messages say these messages.
pub fn hex_lines_say_their_messages()
    ensures { LinesSayTheirMessages }
{}

/// All of a hart's numbers are recovered from their low bits exactly when each of them is near those before it.
///
/// With B bits, that is: it is late by less than 2^(B-1), or a repeat so; it skips fewer than 2^(B-1); or it is below
/// 2^B, and those before it are below 2^(B-1), or there are none.
pub fn low_numbers_are_recovered()
    ensures { LowNumbersAreRecovered }
{}

/// Lines that are written as they come become the capture of their text, where no line has a fault and it is known
/// before them what the capture begins with. Where a line has a fault, the first fault of the text is the first that
/// they have.
///
/// They are the lines that [`PassedLines`](crate::PassedLines) passes: the same bytes are written, the same fault ends
/// them, and as many are skipped. A text may come in parts, each of whole lines.
pub fn lines_stream_the_capture()
    ensures capture { LinesStreamTheCapture }
    ensures fault { LinesStreamTheirFirstFault }
    ensures passed { PassedLinesStream }
    ensures parts { PartsArePassed }
{}
