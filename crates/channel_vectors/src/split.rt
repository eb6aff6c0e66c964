//! Messages that are split by hart.

use cases::{Case, message_of};
use message::{Demux, DemuxFault, Message};
use payload::Packet;

/// `demux HARTS`: a new demultiplexer.
pub(crate) fn begin(case: &Case) -> Option<Demux> {
    let harts = case.word();
    let harts = case.short(harts);
    case.sets();
    let demux = Demux::new(case.alloc, harts).ok();
    if demux.is_none() {
        case.no_memory();
    }
    demux
}

/// What a call returns for a message, with how many numbers are missing before it.
fn answer(demux: &mut Demux, call: &str, message: &Message) -> Result<(Packet, u64), DemuxFault> {
    if call == "lossy" {
        return demux.accept_lossy(message);
    }
    match demux.accept(message) {
        Ok(packet) => Ok((packet, 0)),
        Err(fault) => Err(fault),
    }
}

/// Appends what a call returns for a message, and which harts are closed then.
fn put_answer(case: &Case, demux: &mut Demux, call: &str, message: &Message) {
    match answer(demux, call, message) {
        Ok((packet, missing)) => {
            if payload::unpack(message.payload.bytes()) != Ok(packet) {
                case.put_part("another packet");
            }
            case.put_shown(missing);
            case.put(" missing");
        }
        Err(fault) => case.put_part(fault),
    }
    for hart in [0u16, 1, 2, 65_535] {
        if demux.is_closed(hart) {
            case.put_part(hart);
            case.put(" closed");
        }
    }
}

/// `accept next|lossy MESSAGE`: how many numbers are missing before the message, whose packet is returned, or why it is
/// refused; and which of the harts 0, 1, 2 and 65535 are closed then.
pub(crate) fn accept(case: &Case, known: &mut Option<Demux>) {
    let (call, word) = (case.word(), case.word());
    let message = message_of(case, word);
    let Some(demux) = known.as_mut() else {
        return case.unread();
    };
    if let Some(message) = message {
        put_answer(case, demux, call, &message);
    }
}
