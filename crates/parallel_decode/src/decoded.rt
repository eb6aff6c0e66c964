//! The logs of a capture's harts, decoded in several threads.

ghost use Rattle.std.specs.Prelude.{◌≡◌, ◌⊎◌, Err, IfOk};
ghost use Rattle.std.specs.Io.KnownBytes.{Keeps};
ghost use Rattle.rvclass.specs.Fetch.{words_of};
ghost use Rattle.captures.specs.Decoded.{IsDecodedOf};
ghost use Rattle.parallel_decode.specs.Surveyed.{NeverMemory};
ghost use Rattle.parallel_decode.specs.Written.{BeginsHartsOf, WritesHartsOf};

use crate::harts::write_harts_side_by_side;
use crate::sharing::Sharing;
use crate::{Selection, WatchSurvey, survey_capture_side_by_side};
use captures::CaptureFault;
use retire::WriteFault;
use std::alloc::Global;
use std::io::Write;
use std::thread::Threads;

/// How the decoding of a capture ended.
#[derive(Drop)]
pub struct DecodedHarts {
    /// Whether the closing packet of each hart was decoded. Of a hart whose messages are passed over none was.
    pub closed: Vec<bool>,
    /// Where decoding stopped before the end: at which message, counted from 0 over all harts, and why. At a header
    /// that is cut short or bad the number is 0.
    pub fault: Option<(u64, CaptureFault)>,
}

/// Decodes the messages that a capture has of the harts in a range, up to the first fault, and writes the logs of those of
/// them that the capture has, as far as the messages settle them: a line `hart H`, the number decimal, and then the text of
/// the log.
///
/// What is written is what `captures::decode_harts` returns of the same bytes, where no allocation fails there. Here none
/// can fail for the events of a packet: all of each hart before the first fault is written, and the fault returned. A fault
/// counts the messages of all harts. Where the bytes are no messages, or the header is cut short or bad, that is the fault,
/// whatever the range is, and no log has an event.
///
/// [`WriteFault::Memory`] comes before anything is written. Where the writer fails, what was written is a prefix of the
/// text. The writer is not flushed. `watch` is told of each message at most once, before one is decoded, and that the first
/// pass ended.
pub fn write_decoded_side_by_side<R: Threads + Sync, V: WatchSurvey, O: Write>(
    alloc: Global,
    rt: &R,
    sharing: Sharing,
    capture: &Selection<'_, '_>,
    watch: &V,
    out: &mut O,
) -> Result<DecodedHarts, WriteFault>
    ensures written { IfOk result (λ decoded. WritesHartsOf capture.now.range
        (IsDecodedOf capture.now.range (words_of capture.now.program.now) capture.now.harts capture.now.bytes.now)
        decoded.closed.items decoded.fault (O.contents out.old) (O.contents out.new)) }
    ensures begun { Keeps (O.contents out.old) (O.contents out.new) ⊎ BeginsHartsOf capture.now.range
        (IsDecodedOf capture.now.range (words_of capture.now.program.now) capture.now.harts capture.now.bytes.now)
        (O.contents out.old) (O.contents out.new) }
    ensures never_memory { IfOk result (λ decoded. NeverMemory decoded.fault) }
    ensures untouched { result ≡ Err WriteFault.Memory → out.new ≡ out.old }
{
    let surveyed = survey_capture_side_by_side(alloc, rt, capture, watch);
    watch.surveyed();
    let found = surveyed?;
    let messages = Selection {
        bytes: found.messages,
        ..*capture
    };
    write_harts_side_by_side(alloc, rt, sharing, &messages, &found.survey, out)?;
    Ok(DecodedHarts {
        closed: found.survey.closed,
        fault: found.survey.fault,
    })
}
