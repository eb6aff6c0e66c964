//! Bytes to messages.
ghost use Rattle.std.specs.Prelude.{◌⊎◌, List, ◌≡◌, ◌≢◌, ◌<◌, ◌++◌, ℕ, length, take, slice_index, Ok, Err, Some, None};
ghost use Rattle.std.specs.Prelude.{IfOk, IfErr, IfSome};
ghost use Rattle.std.specs.Io.KnownBytes.{Consumes, IsAtEnd, Keeps};
ghost use Rattle.message.specs.Capture.{head_bytes, message_bytes};
ghost use Rattle.message.specs.Cut.{IsCut, IsMessage, IsBadLength, HasBadLength};
ghost use Rattle.message.specs.Header.{HasBadHeader, IsCutHeader, IsHeader, IsMarked, header_bytes, setting_bytes};
ghost use Rattle.message.specs.Started.{IsStart};
ghost use Rattle.message.specs.steps.Settings.{AreBadSettings};
ghost use Rattle.message.specs.declared.header.Header.{Header as AnyHeader};
ghost use Rattle.message.specs.declared.header.Start.{Start as AnyStart};
ghost use Rattle.message.specs.steps.Filling.{Fills};
ghost use Rattle.message.specs.declared.message.Message.{Message as AnyMessage};

use crate::head::{HEAD, message_of, payload_length};
use crate::header::{MARK, SETTINGS, header_of};
use crate::{Header, Message, MessageFault, Start};
use payload::MOST_BYTES;
use std::io::{ErrorKind, Read};

/// Reads the next message, or `None` where the input ends before it.
///
/// [`MessageFault::Read`] comes only where the reader failed; a reader that is interrupted is asked again. Bytes are
/// counted as they come, so an error of the reader is never taken for the end of the input. After a fault the place in
/// the stream is unknown.
pub fn read_message<R: Read>(r: &mut R) -> Result<Option<Message>, MessageFault>
    ensures message { IfOk result (λ found. IfSome found
        (λ message. Consumes (R.remaining r.old) (R.remaining r.new) (message_bytes message))) }
    ensures end { result ≡ Ok None → IsAtEnd (R.remaining r.old) × Keeps (R.remaining r.old) (R.remaining r.new) }
    ensures short { result ≡ Err MessageFault.Short → IfSome (R.remaining r.old) IsCut }
    ensures bad_length { result ≡ Err MessageFault.BadLength → IfSome (R.remaining r.old) HasBadLength }
    ensures never_write { IfErr result (λ fault. fault ≢ MessageFault.Write) }
    ensures never_bad_header { IfErr result (λ fault. fault ≢ MessageFault.BadHeader) }

    // A message that the input begins with is read, unless the reader fails.
    ensures reads_back { (message : AnyMessage) (rest : List ℕ) → IsMessage message
        → R.remaining r.old ≡ Some (message_bytes message ++ rest)
        → (result ≡ Ok (Some message)) ⊎ (result ≡ Err MessageFault.Read) }
{
    next_message(r)
}

/// Reads what a capture begins with: a header, or else the first message, or `None` where there are no bytes.
///
/// [`MessageFault::Short`] comes where the input ends inside the header or the message, [`MessageFault::BadHeader`]
/// where the mode, the period or the count of harts of a header is out of range. All else is as in [`read_message`].
pub fn read_start<R: Read>(r: &mut R) -> Result<Start, MessageFault>
    ensures start { IfOk result (λ start. IsStart (R.remaining r.old) (R.remaining r.new) start) }
    ensures short { result ≡ Err MessageFault.Short
        → IfSome (R.remaining r.old) (λ bytes. IsCut bytes ⊎ IsCutHeader bytes) }
    ensures bad_length { result ≡ Err MessageFault.BadLength
        → IfSome (R.remaining r.old) (λ bytes. HasBadLength bytes × ¬ IsMarked bytes) }
    ensures bad_header { result ≡ Err MessageFault.BadHeader → IfSome (R.remaining r.old) HasBadHeader }
    ensures never_write { IfErr result (λ fault. fault ≢ MessageFault.Write) }

    // A header that the input begins with is read, and so is a message, unless the reader fails.
    ensures header_reads_back { (header : AnyHeader) (rest : List ℕ) → IsHeader header
        → R.remaining r.old ≡ Some (header_bytes header ++ rest)
        → (result ≡ Ok (AnyStart.Version2 header)) ⊎ (result ≡ Err MessageFault.Read) }
    ensures message_reads_back { (message : AnyMessage) (rest : List ℕ) → IsMessage message
        → R.remaining r.old ≡ Some (message_bytes message ++ rest)
        → (result ≡ Ok (AnyStart.Version1 (Some message))) ⊎ (result ≡ Err MessageFault.Read) }
{
    first_part(r)
}

/// Reads a header, or else the first message.
fn first_part<R: Read>(r: &mut R) -> Result<Start, MessageFault>
    ensures start { IfOk result (λ start. IsStart (R.remaining r.old) (R.remaining r.new) start) }
    ensures short { result ≡ Err MessageFault.Short
        → IfSome (R.remaining r.old) (λ bytes. IsCut bytes ⊎ IsCutHeader bytes) }
    ensures bad_length { result ≡ Err MessageFault.BadLength
        → IfSome (R.remaining r.old) (λ bytes. HasBadLength bytes × ¬ IsMarked bytes) }
    ensures bad_header { result ≡ Err MessageFault.BadHeader → IfSome (R.remaining r.old) HasBadHeader }
    ensures never_write { IfErr result (λ fault. fault ≢ MessageFault.Write) }
{
    let mut head = [0; HEAD];
    match fill(r, &mut head)? {
        0 => Ok(Start::Version1(None)),
        HEAD if head == MARK => Ok(Start::Version2(read_settings(r)?)),
        HEAD => Ok(Start::Version1(Some(read_payload(r, &head)?))),
        _ => Err(MessageFault::Short),
    }
}

/// Reads the settings of a header, after its mark.
fn read_settings<R: Read>(r: &mut R) -> Result<Header, MessageFault>
    ensures header { IfOk result
        (λ header. IsHeader header × Consumes (R.remaining r.old) (R.remaining r.new) (setting_bytes header)) }
    ensures short { result ≡ Err MessageFault.Short → IfSome (R.remaining r.old) (λ rest. length rest < 5) }
    ensures bad_header { result ≡ Err MessageFault.BadHeader → IfSome (R.remaining r.old) AreBadSettings }
    ensures never_write { IfErr result (λ fault. fault ≢ MessageFault.Write) }
    ensures never_bad_length { IfErr result (λ fault. fault ≢ MessageFault.BadLength) }
{
    let mut settings = [0; SETTINGS];
    if fill(r, &mut settings)? < SETTINGS {
        return Err(MessageFault::Short);
    }
    match header_of(&settings) {
        Some(header) => Ok(header),
        None => Err(MessageFault::BadHeader),
    }
}

/// The message that comes next, or `None` at the end.
fn next_message<R: Read>(r: &mut R) -> Result<Option<Message>, MessageFault>
    ensures ranges { IfOk result (λ found. IfSome found (λ message. IsMessage message)) }
    ensures message { IfOk result (λ found. IfSome found
        (λ message. Consumes (R.remaining r.old) (R.remaining r.new) (message_bytes message))) }
    ensures end { result ≡ Ok None → IsAtEnd (R.remaining r.old) × Keeps (R.remaining r.old) (R.remaining r.new) }
    ensures short { result ≡ Err MessageFault.Short → IfSome (R.remaining r.old) IsCut }
    ensures bad_length { result ≡ Err MessageFault.BadLength → IfSome (R.remaining r.old) HasBadLength }
    ensures never_write { IfErr result (λ fault. fault ≢ MessageFault.Write) }
    ensures never_bad_header { IfErr result (λ fault. fault ≢ MessageFault.BadHeader) }
{
    let mut head = [0; HEAD];
    match fill(r, &mut head)? {
        0 => Ok(None),
        HEAD => Ok(Some(read_payload(r, &head)?)),
        _ => Err(MessageFault::Short),
    }
}

/// Reads the payload of a message of this head.
fn read_payload<R: Read>(r: &mut R, head: &[u8]) -> Result<Message, MessageFault>
    requires { length head.now ≡ 11 }
    ensures ranges { IfOk result (λ message. IsMessage message) }
    ensures head { IfOk result (λ message. head_bytes message ≡ head.now) }
    ensures payload { IfOk result (λ message. Consumes (R.remaining r.old) (R.remaining r.new) message.payload) }
    ensures short { result ≡ Err MessageFault.Short → IfSome (R.remaining r.old) (λ rest. IsCut (head.now ++ rest)) }
    ensures bad_length { result ≡ Err MessageFault.BadLength → IsBadLength (slice_index head.now 10) }
    ensures never_write { IfErr result (λ fault. fault ≢ MessageFault.Write) }
    ensures never_bad_header { IfErr result (λ fault. fault ≢ MessageFault.BadHeader) }
{
    let length = payload_length(head)?;
    let mut bytes = [0; MOST_BYTES];
    if fill(r, &mut bytes[..length])? < length {
        return Err(MessageFault::Short);
    }
    Ok(message_of(head, &bytes[..length]))
}

/// Reads until the buffer `room` is full or the input ends, and returns how many bytes came.
fn fill<R: Read>(r: &mut R, room: &mut [u8]) -> Result<usize, MessageFault>
    ensures filled { IfOk result (λ count. Fills (R.remaining r.old) (R.remaining r.new) room.new count) }
    ensures fault { IfErr result (λ fault. fault ≡ MessageFault.Read) }
{
    let mut count = 0;
    for _ in 0..u64::MAX {
        if count == room.len() {
            return Ok(count);
        }
        match r.read(&mut room[count..]) {
            Ok(0) => return Ok(count),
            Ok(more) => count += more,
            Err(error) => {
                if error.kind() != ErrorKind::Interrupted {
                    return Err(MessageFault::Read);
                }
            }
        }
    }
    Err(MessageFault::Read)
}
