//! Captures as text.

ghost use Rattle.std.specs.Prelude.{◌≡◌, ◌∷◌, IfErr, IfOk, OnErr, OnOk, [], option_map};
ghost use Rattle.std.specs.List.{list_any};
ghost use Rattle.std.specs.Io.KnownBytes.{Appends};
ghost use Rattle.output.specs.Begun.{AppendsBeginning};
ghost use Rattle.message.specs.steps.Filling.{AreBytes};
ghost use Rattle.captures.specs.Dump.{AppendsDump, AreMessagesDumped, BeginsDump, IsDump, IsDumpOf, header_line};
ghost use Rattle.captures.specs.Dump.{dump_line, dump_text, has_bad_payload, line_with, mode_text};
ghost use Rattle.captures.specs.PacketText.{address_name};
ghost use Rattle.message.specs.Range.{selected};

use crate::packet_text::{ReadingText, address_of};
use message::{HartRange, Header, Message, MessageFault, Messages, NoProgress, ProgressSink};
use output::{write_bytes, write_text};
use payload::{Mode, PackFault, Packet, unpack};
use retire::WriteFault;
use std::alloc::Allocator;
use std::io::Write;
use symbols::{Symbols, write_name};

/// What was found in a capture that was dumped.
#[derive(Clone, Copy)]
pub struct Dumped {
    /// Whether the payload of some message is no packet.
    pub bad: bool,
    /// Where the lines end before the capture does: how many messages come before that place, and why there is no
    /// message. At a header that is cut short or bad the number is 0.
    pub fault: Option<(u64, MessageFault)>,
}

/// Writes a capture as text. Of a capture of version 2 the first line is that of its header, the numbers decimal:
/// `capture 2 mode=diff period=N harts=N`, or `mode=full`. Then comes a line for each message: the hart's number and
/// the message's, both decimal, and the text of its packet, whose numbers are in lower-case hexadecimal, or `bad` and
/// the reason where the payload is no packet. An address field is named `addr` where the header's mode is full, and
/// else `diff`.
///
/// The lines are in the order of the capture, and go on after a bad payload. They end at the first place where there is
/// no complete message. There are none where the header is cut short or bad. The only fault is [`WriteFault::Write`],
/// where the writer failed; what was written then is a prefix of the text. No memory is taken.
pub fn dump_capture<W: Write>(capture: &[u8], sink: &mut W) -> Result<Dumped, WriteFault>
    ensures dumped { IfOk result (λ dumped.
        AppendsDump (IsDump capture.now) dumped.bad dumped.fault (W.contents sink.old) (W.contents sink.new)) }
    ensures begun { OnErr result (BeginsDump (IsDump capture.now) (W.contents sink.old) (W.contents sink.new)) }
    ensures fault { IfErr result (λ fault. fault ≡ WriteFault.Write) }
{
    dump_watched(capture, sink, &NoProgress)
}

/// Writes a capture as [`dump_capture`] does, and tells `watch` of each message that is worked through.
pub fn dump_watched<W: Write, V: ProgressSink>(
    capture: &[u8],
    sink: &mut W,
    watch: &V,
) -> Result<Dumped, WriteFault>
    ensures dumped { IfOk result (λ dumped.
        AppendsDump (IsDump capture.now) dumped.bad dumped.fault (W.contents sink.old) (W.contents sink.new)) }
    ensures begun { OnErr result (BeginsDump (IsDump capture.now) (W.contents sink.old) (W.contents sink.new)) }
    ensures fault { IfErr result (λ fault. fault ≡ WriteFault.Write) }
{
    dump_harts(capture, HartRange::ALL, None::<&Symbols>, sink, watch)
}

/// Writes what a capture has of these harts, as [`dump_watched`] writes a capture: the line of its header as it is, and
/// the lines of their messages alone. Messages of other harts are passed over, whatever their payloads are. The place
/// in [`Dumped::fault`] counts them all the same, and `watch` is told of them.
///
/// Where symbols are given, the line of a packet that reports an address ends with its name: that of a sync or a trap
/// packet, and that of an address packet where the header's mode is full.
pub fn dump_harts<S: Allocator, W: Write, V: ProgressSink>(
    capture: &[u8],
    harts: HartRange,
    symbols: Option<&Symbols<S>>,
    sink: &mut W,
    watch: &V,
) -> Result<Dumped, WriteFault>
    ensures dumped { IfOk result (λ dumped. AppendsDump (IsDumpOf (option_map (λ file. file.now) symbols.entry) harts capture.now)
        dumped.bad dumped.fault (W.contents sink.old) (W.contents sink.new)) }
    ensures begun { OnErr result
        (BeginsDump (IsDumpOf (option_map (λ file. file.now) symbols.entry) harts capture.now)
        (W.contents sink.old) (W.contents sink.new)) }
    ensures fault { IfErr result (λ fault. fault ≡ WriteFault.Write) }
{
    let mut messages = Messages::new(capture);
    match messages.header() {
        Ok(Some(header)) => {
            write_header_line(sink, &header)?;
            dump_messages(messages, harts, symbols, header.mode, sink, watch)
        }
        Ok(None) => dump_messages(messages, harts, symbols, Mode::Differential, sink, watch),
        Err(fault) => Ok(Dumped {
            bad: false,
            fault: Some((0, fault)),
        }),
    }
}

/// Writes the line of a header, as [`dump_capture`] writes it before all others:
/// `capture 2 mode=diff period=N harts=N`, or `mode=full`, the numbers decimal.
///
/// The only fault is [`WriteFault::Write`], where the writer failed; what was written then is a prefix of the line. No
/// memory is taken, and the writer is not flushed.
pub fn write_header_line<W: Write>(sink: &mut W, header: &Header) -> Result<(), WriteFault>
    ensures text { OnOk result (Appends (W.contents sink.old) (W.contents sink.new) (header_line header.now)) }
    ensures begun { AppendsBeginning (header_line header.now) (W.contents sink.old) (W.contents sink.new) }
    ensures fault { IfErr result (λ fault. fault ≡ WriteFault.Write) }
{
    let mode = mode_text(header.mode);
    let period = header.period;
    let harts = header.harts;
    write_text(
        sink,
        format_args!("capture 2 mode={mode} period={period} harts={harts}\n"),
    )?;
    Ok(())
}

/// The name of a mode.
fn mode_text(mode: Mode) -> &'static str
    ensures { result.now ≡ mode_text mode }
{
    match mode {
        Mode::Differential => "diff",
        Mode::Full => "full",
    }
}

/// Writes a line for each message of these harts, its address field named by this mode, and its address by the symbols.
fn dump_messages<S: Allocator, W: Write, V: ProgressSink>(
    all: Messages<'_>,
    harts: HartRange,
    symbols: Option<&Symbols<S>>,
    mode: Mode,
    sink: &mut W,
    watch: &V,
) -> Result<Dumped, WriteFault>
    requires { AreBytes all }
    ensures dumped { IfOk result (λ dumped. AppendsDump
        (AreMessagesDumped (option_map (λ file. file.now) symbols.entry) harts mode all.entry) dumped.bad dumped.fault
        (W.contents sink.old) (W.contents sink.new)) }
    ensures begun { OnErr result
        (BeginsDump (AreMessagesDumped (option_map (λ file. file.now) symbols.entry) harts mode all.entry)
        (W.contents sink.old) (W.contents sink.new)) }
    ensures fault { IfErr result (λ fault. fault ≡ WriteFault.Write) }
{
    let mut messages = all;
    let mut count = 0;
    let mut bad = false;
    loop {
        match messages.next() {
            Ok(Some(message)) => {
                bad |= write_selected_line(sink, harts, symbols, mode, &message)?;
                count += 1;
                watch.note(1);
            }
            Ok(None) => return Ok(Dumped { bad, fault: None }),
            Err(fault) => {
                return Ok(Dumped {
                    bad,
                    fault: Some((count, fault)),
                });
            }
        }
    }
}

/// Writes the line of a message if it is of one of these harts, its address field named by this mode, and its address by
/// the symbols. Returns whether the payload of such a message is no packet.
fn write_selected_line<S: Allocator, W: Write>(
    sink: &mut W,
    harts: HartRange,
    symbols: Option<&Symbols<S>>,
    mode: Mode,
    message: &Message,
) -> Result<bool, WriteFault>
    ensures bad { IfOk result (λ bad. bad ≡ list_any has_bad_payload (selected harts (message.now ∷ []))) }
    ensures text { OnOk result (Appends (W.contents sink.old) (W.contents sink.new)
        (dump_text (option_map (λ file. file.now) symbols.entry) mode (selected harts (message.now ∷ [])))) }
    ensures begun { AppendsBeginning
        (dump_text (option_map (λ file. file.now) symbols.entry) mode (selected harts (message.now ∷ [])))
        (W.contents sink.old) (W.contents sink.new) }
    ensures fault { IfErr result (λ fault. fault ≡ WriteFault.Write) }
{
    if harts.selects(message.hart) {
        write_message_line(sink, symbols, mode, message)
    } else {
        Ok(false)
    }
}

/// Writes the line of a message, as [`dump_harts`] writes it, its address field named by this mode. Returns whether its
/// payload is no packet.
///
/// The only fault is [`WriteFault::Write`], where the writer failed; what was written then is a prefix of the line. No
/// memory is taken, and the writer is not flushed.
pub fn write_message_line<S: Allocator, W: Write>(
    sink: &mut W,
    symbols: Option<&Symbols<S>>,
    mode: Mode,
    message: &Message,
) -> Result<bool, WriteFault>
    ensures bad { IfOk result (λ bad. bad ≡ has_bad_payload message.now) }
    ensures text { OnOk result (Appends (W.contents sink.old) (W.contents sink.new)
        (dump_line (option_map (λ file. file.now) symbols.entry) mode message.now)) }
    ensures begun { AppendsBeginning (dump_line (option_map (λ file. file.now) symbols.entry) mode message.now)
        (W.contents sink.old) (W.contents sink.new) }
    ensures fault { IfErr result (λ fault. fault ≡ WriteFault.Write) }
{
    let unpacked = unpack(message.payload.bytes());
    write_line_with(sink, symbols, mode, message, &unpacked)?;
    Ok(unpacked.is_err())
}

/// Writes the line of a message whose payload unpacks to this.
fn write_line_with<S: Allocator, W: Write>(
    sink: &mut W,
    symbols: Option<&Symbols<S>>,
    mode: Mode,
    message: &Message,
    read: &Result<Packet, PackFault>,
) -> Result<(), WriteFault>
    ensures text { OnOk result (Appends (W.contents sink.old) (W.contents sink.new)
        (line_with (option_map (λ file. file.now) symbols.entry) mode message.now read.now)) }
    ensures begun { AppendsBeginning
        (line_with (option_map (λ file. file.now) symbols.entry) mode message.now read.now)
        (W.contents sink.old) (W.contents sink.new) }
    ensures fault { IfErr result (λ fault. fault ≡ WriteFault.Write) }
{
    let hart = message.hart;
    let number = message.number;
    let text = ReadingText { mode, read };
    write_text(sink, format_args!("{hart} {number} {text}"))?;
    write_address_name(symbols, address_of(mode, read), sink)?;
    write_bytes(sink, b"\n")?;
    Ok(())
}

/// Writes what an address is named, if there is one and symbols are given.
fn write_address_name<S: Allocator, W: Write>(
    symbols: Option<&Symbols<S>>,
    address: Option<u64>,
    sink: &mut W,
) -> Result<(), WriteFault>
    ensures text { OnOk result (Appends (W.contents sink.old) (W.contents sink.new)
        (address_name (option_map (λ file. file.now) symbols.entry) address)) }
    ensures begun { AppendsBeginning (address_name (option_map (λ file. file.now) symbols.entry) address)
        (W.contents sink.old) (W.contents sink.new) }
    ensures fault { IfErr result (λ fault. fault ≡ WriteFault.Write) }
{
    match address {
        Some(address) => write_name(symbols, address, sink),
        None => Ok(()),
    }
}
