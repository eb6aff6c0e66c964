//! From logs to their messages, as captures and as lines.

ghost use Rattle.std.specs.Prelude.{◌≡◌, ◌+◌, ◌^◌, ◌≤◌, IfErr, OnOk, length};
ghost use Rattle.std.specs.Io.KnownBytes.{Appends};
ghost use Rattle.std.specs.List.{flat_map};
ghost use Rattle.output.specs.Begun.{AppendsBeginning};
ghost use Rattle.captures.specs.HexLines.{hex_text};
ghost use Rattle.message.specs.Numbered.{messages_from};
ghost use Rattle.captures.specs.Messages.{messages_of_harts};
ghost use Rattle.captures.specs.Versions.{MayStart, capture_of, header_of, start_bytes};
ghost use Rattle.encoder.specs.Payloads.{payloads};

use crate::form::{CaptureBytes, Form, HexLines};
use encoder::Source;
use legalpath::LegalLog;
use message::{Header, MOST_HARTS, Message, MessageFault, Version, write_header};
use payload::Mode;
use std::alloc::Allocator;
use std::io::Write;

/// Writes the capture of the messages of each hart's log, hart 0 first. Each hart's messages are numbered from 0 on. A
/// capture of version 2 begins with a header, which has the mode, the period and the count of logs.
///
/// Each packet has its shortest payload. A log's packets synchronise at each retirement whose number, from 0, the
/// period divides. The mode says what the address fields hold, and each hart's first message announces it. The only
/// fault is [`MessageFault::Write`], where the writer failed; what was written then is a prefix of the capture. No
/// memory is taken, and the writer is not flushed.
pub fn encode_capture<W: Write, A: Allocator>(
    logs: &[LegalLog<'_, A>],
    period: u16,
    mode: Mode,
    version: Version,
    sink: &mut W,
) -> Result<(), MessageFault>
    requires period { 1 ≤ period }
    requires few { length logs.now ≤ 2 ^ 16 }
    requires header { MayStart version (header_of period mode logs.now) }
    ensures capture { OnOk result (Appends (W.contents sink.old) (W.contents sink.new)
        (capture_of version period mode logs.now)) }
    ensures begun { AppendsBeginning (capture_of version period mode logs.now)
        (W.contents sink.old) (W.contents sink.new) }
    ensures fault { IfErr result (λ fault. fault ≡ MessageFault.Write) }
{
    write_start(sink, version, period, mode, logs.len())?;
    encode::<CaptureBytes, W, A>(logs, period, mode, sink)
}

/// Writes what comes before the messages of this many harts: nothing in version 1, and in version 2 the header.
///
/// The only fault is [`MessageFault::Write`], where the writer failed; what was written then is a prefix of the header.
/// No memory is taken, and the writer is not flushed.
pub fn write_start<W: Write>(
    sink: &mut W,
    version: Version,
    period: u16,
    mode: Mode,
    harts: usize,
) -> Result<(), MessageFault>
    requires header { MayStart version (record { mode = mode; period = period; harts = harts }) }
    ensures written { OnOk result (Appends (W.contents sink.old) (W.contents sink.new)
        (start_bytes version (record { mode = mode; period = period; harts = harts }))) }
    ensures begun { AppendsBeginning (start_bytes version (record { mode = mode; period = period; harts = harts }))
        (W.contents sink.old) (W.contents sink.new) }
    ensures fault { IfErr result (λ fault. fault ≡ MessageFault.Write) }
{
    match version {
        Version::One => Ok(()),
        Version::Two => write_header(
            sink,
            &Header {
                mode,
                period,
                harts: harts.min(usize::from(MOST_HARTS)) as u16,
            },
        ),
    }
}

/// Writes the same messages as [`encode_capture`], a line each. A line has the hart's number and the message's, both
/// decimal, and the payload's bytes in lower-case hexadecimal. Single spaces separate the three.
///
/// The only fault is [`MessageFault::Write`], where the writer failed; what was written then is a prefix of the text.
/// No memory is taken, and the writer is not flushed.
pub fn encode_hex<W: Write, A: Allocator>(
    logs: &[LegalLog<'_, A>],
    period: u16,
    mode: Mode,
    sink: &mut W,
) -> Result<(), MessageFault>
    requires period { 1 ≤ period }
    requires few { length logs.now ≤ 2 ^ 16 }
    ensures text { OnOk result (Appends (W.contents sink.old) (W.contents sink.new)
        (hex_text (messages_of_harts period mode 0 logs.now))) }
    ensures begun { AppendsBeginning (hex_text (messages_of_harts period mode 0 logs.now))
        (W.contents sink.old) (W.contents sink.new) }
    ensures fault { IfErr result (λ fault. fault ≡ MessageFault.Write) }
{
    encode::<HexLines, W, A>(logs, period, mode, sink)
}

/// Writes the messages of each hart's log in a form.
fn encode<F: Form, W: Write, A: Allocator>(
    logs: &[LegalLog<'_, A>],
    period: u16,
    mode: Mode,
    sink: &mut W,
) -> Result<(), MessageFault>
    requires period { 1 ≤ period }
    requires few { length logs.now ≤ 2 ^ 16 }
    ensures text { OnOk result (Appends (W.contents sink.old) (W.contents sink.new)
        (flat_map F.text (messages_of_harts period mode 0 logs.now))) }
    ensures begun { AppendsBeginning (flat_map F.text (messages_of_harts period mode 0 logs.now))
        (W.contents sink.old) (W.contents sink.new) }
    ensures fault { IfErr result (λ fault. fault ≡ MessageFault.Write) }
{
    for (hart, log) in logs.iter().enumerate() {
        encode_hart::<F, W, A>(hart as u16, log, period, mode, sink)?;
    }
    Ok(())
}

/// Writes the messages of a hart's log in a form. They are numbered from 0 on, and nothing is written before them.
///
/// The only fault is [`MessageFault::Write`], where the writer failed; what was written then is a prefix of the text.
/// No memory is taken, and the writer is not flushed.
pub fn encode_hart<F: Form, W: Write, A: Allocator>(
    hart: u16,
    log: &LegalLog<'_, A>,
    period: u16,
    mode: Mode,
    sink: &mut W,
) -> Result<(), MessageFault>
    requires period { 1 ≤ period }
    ensures text { OnOk result (Appends (W.contents sink.old) (W.contents sink.new)
        (flat_map F.text (messages_from hart 0 (payloads period mode log.now)))) }
    ensures begun { AppendsBeginning (flat_map F.text (messages_from hart 0 (payloads period mode log.now)))
        (W.contents sink.old) (W.contents sink.new) }
    ensures fault { IfErr result (λ fault. fault ≡ MessageFault.Write) }
{
    let mut source = Source::new(log, period, mode);
    for number in 0..log.events().len() as u64 + 2 {
        let Some(payload) = source.next() else {
            return Ok(());
        };
        let message = Message {
            hart,
            number,
            payload,
        };
        F::write(sink, &message)?;
    }
    Ok(())
}
