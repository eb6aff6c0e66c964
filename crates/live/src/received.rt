//! The bytes of RECEIVED, read as they come.

ghost use Rattle.std.specs.Prelude.{◌≡◌, ◌≤◌, ◌<◌, ◌+◌, ◌-◌, ◌*◌, ◌^◌, ◌++◌, ℕ, ◌⊎◌, IfErr, IfOk, List, [], None, OnOk};
ghost use Rattle.std.specs.Prelude.{Some, drop, false, length, take, true};
ghost use Rattle.std.specs.Io.KnownBytes.{ReadConsumes};
ghost use Rattle.frames.specs.Frame.{frame_in, frame_size, is_complete};
ghost use Rattle.frames.specs.declared.span.Span.TheVariants as Span;
ghost use Rattle.message.specs.declared.message.Message.{Message as AnyMessage};
ghost use Rattle.live.specs.Following.{Audited, IsAudited, Reads};
ghost use Rattle.live.specs.Received.{bytes_to_next, first_span, is_taken};
ghost use Rattle.live.specs.ReceivedLeft.{FollowsOn, IsBegun, IsLeft, IsNextSpan, ReceivedHeld, Receives, most_sought, rule_of};
ghost use Rattle.live.specs.ReceivedLeft.{sought_to};
ghost use Rattle.live.specs.steps.Receiving.{IsDecided, IsPassed, IsSure, ReadsSome};
ghost use Rattle.frames.specs.Start.{first_place};

use crate::fault::ReceivedFault;
use crate::received_seen::Pause;
use crate::received_taking::{MOST_SIZE, is_taken};
use crate::source::SentSource;
use crate::window::Window;
use frames::{CaptureStart, Span, first_place, message_in, message_size, start_of};
use log_streams::{FileFault, FileReader};
use message::HEADER_SIZE;
use std::alloc::{AllocError, Allocator, Global};
use std::marker::Model;

/// How many bytes are read at once, at most.
const BLOCK_BYTES: usize = 65_536;

/// The bytes of RECEIVED that were read and are not taken yet. A clause sees the bytes that are held, how many come before
/// them, and whether RECEIVED ends with them.
#[derive(Drop)]
pub struct Received<A: Allocator = Global> {
    /// How many harts are known.
    harts: u16,
    /// Bytes that were read.
    buffer: Vec<u8, A>,
    /// Where those begin that are held.
    start: usize,
    /// Where they end.
    end: usize,
    /// How many bytes of RECEIVED come before them.
    offset: usize,
    /// Whether RECEIVED ends with them.
    ended: bool,
}

impl<A: Allocator> Model for Received<A> {
    ghost Value = { ReceivedHeld };

    ghost view = { λ own. record {
      harts = own.harts;
      offset = own.offset;
      bytes = drop own.start (take own.end own.buffer.items);
      ended = own.ended;
      most = length own.buffer.items;
      room = length own.buffer.items - own.end;
    } };

    ghost invariant = { λ own. (own.start ≤ own.end) × (own.end ≤ length own.buffer.items)
        × (29 * (own.harts + 3) ≤ length own.buffer.items) };
}

impl<A: Allocator> Received<A> {
    /// Before the first byte is read, where so many harts are known. Memory is taken once: 29 bytes for each hart and 64 KiB.
    pub fn new(alloc: A, harts: u16) -> Result<Received<A>, AllocError>
        ensures empty { IfOk result (λ own. (own.harts ≡ harts) × (own.offset ≡ 0)
            × (own.bytes ≡ []) × (own.ended ≡ false)) }
        ensures receives { IfOk result (Receives harts) }
    {
        let most = (usize::from(harts) + 3) * MOST_SIZE + BLOCK_BYTES;
        Ok(Received {
            harts,
            buffer: vec![in alloc; 0; most]?,
            start: 0,
            end: 0,
            offset: 0,
            ended: false,
        })
    }

    /// The bytes that are held.
    fn held(&self) -> &[u8]
        ensures value { result.now ≡ self.now.bytes }
        ensures few { length self.now.bytes ≤ self.now.most }
    {
        &self.buffer[self.start..self.end]
    }

    /// Passes over so many bytes that are held.
    fn pass(&mut self, count: usize)
        requires { count ≤ length self.old.bytes }
        ensures bytes { self.new.bytes ≡ drop count self.old.bytes }
        ensures offset { self.old.offset + count < 2 ^ 64 → self.new.offset ≡ self.old.offset + count }
        ensures harts { self.new.harts ≡ self.old.harts }
        ensures ended { self.new.ended ≡ self.old.ended }
        ensures most { self.new.most ≡ self.old.most }
        ensures few { length self.new.bytes ≤ self.new.most }
    {
        self.start += count;
        self.offset = self.offset.wrapping_add(count);
    }

    /// If there is no place for one byte more after what is held, that is moved to the front.
    fn make_place(&mut self)
        ensures same { self.new ≡ record self.old { room = self.new.room } }
        ensures room { length self.old.bytes < self.old.most → 0 < self.new.room }
    {
        if self.end < self.buffer.len() {
            return;
        }
        self.buffer.copy_within(self.start..self.end, 0);
        self.end -= self.start;
        self.start = 0;
    }

    /// Reads some bytes more, for which there is a place.
    fn read<R: FileReader>(&mut self, reader: &mut R) -> Result<(), ReceivedFault>
        requires { length self.old.bytes < self.old.most }
        ensures reads { (rest : List ℕ) → IsLeft self.old (R.left reader.old) rest
            → ReadsSome rest result self.new (R.left reader.new) }
        ensures harts { self.new.harts ≡ self.old.harts }
        ensures offset { self.new.offset ≡ self.old.offset }
        ensures most { self.new.most ≡ self.old.most }
    {
        self.make_place();
        self.read_on(reader)
    }

    /// The same, where there is a place after what is held.
    fn read_on<R: FileReader>(&mut self, reader: &mut R) -> Result<(), ReceivedFault>
        requires { 0 < self.old.room }
        ensures reads { (rest : List ℕ) → IsLeft self.old (R.left reader.old) rest
            → ReadsSome rest result self.new (R.left reader.new) }
        ensures harts { self.new.harts ≡ self.old.harts }
        ensures offset { self.new.offset ≡ self.old.offset }
        ensures most { self.new.most ≡ self.old.most }
    {
        match read_after(reader, &mut self.buffer, self.end) {
            Ok(0) => {
                self.ended = true;
                Ok(())
            }
            Ok(count) => {
                self.end += count;
                Ok(())
            }
            Err(why) => Err(ReceivedFault::File(why)),
        }
    }

    /// Reads as many bytes as a header has, or to the end.
    fn read_start<R: FileReader>(&mut self, reader: &mut R) -> Result<(), ReceivedFault>
        ensures read { (rest : List ℕ) → IsLeft self.old (R.left reader.old) rest
            → ReadsSome rest result self.new (R.left reader.new) }
        ensures start { OnOk result (self.new.ended ≡ false → 16 ≤ length self.new.bytes) }
        ensures harts { self.new.harts ≡ self.old.harts }
        ensures offset { self.new.offset ≡ self.old.offset }
        ensures most { self.new.most ≡ self.old.most }
    {
        for _ in 0..u64::MAX {
            if self.ended || self.end - self.start >= HEADER_SIZE {
                return Ok(());
            }
            match self.read(reader) {
                Ok(()) => {}
                Err(why) => return Err(why),
            }
        }
        // No file is read so often.
        Err(ReceivedFault::File(FileFault::Memory))
    }

    /// How RECEIVED begins: with a header, which is passed over, or with none, or with one that is cut short or bad. To be called
    /// before the first message is read. It fails if the bytes cannot be read.
    pub fn begin<R: FileReader>(&mut self, reader: &mut R) -> Result<CaptureStart, ReceivedFault>
        ensures start { (rest : List ℕ) → IsLeft self.old (R.left reader.old) rest
            → IsBegun rest result self.new (R.left reader.new) }
        ensures offset { self.old.offset ≡ 0
            → IfOk result (λ start. self.new.offset ≡ first_place start.header) }
        ensures harts { self.new.harts ≡ self.old.harts }
        ensures receives { (harts : ℕ) → Receives harts self.old → OnOk result (Receives harts self.new) }
    {
        match self.read_start(reader) {
            Ok(()) => {}
            Err(why) => return Err(why),
        }
        let start = start_of(self.held());
        self.pass(first_place(start.header));
        Ok(start)
    }

    /// Whether a message begins what is held that is taken. RECEIVED is read as far as that asks for.
    fn is_taken<R: FileReader, S: SentSource, B: Allocator>(
        &mut self,
        astray: bool,
        reader: &mut R,
        window: &mut Window<B>,
        source: &mut S,
    ) -> Result<bool, ReceivedFault>
        ensures decided { (all : Audited) (came : List AnyMessage) (front first : ℕ) (rest : List ℕ) → IsAudited all
            → Reads all first came front window.old (S.left source.old) → IsLeft self.old (R.left reader.old) rest
            → IsDecided all came front first (is_taken (rule_of self.old.harts all front) astray) rest
            (most_sought self.old.harts) result self.new (R.left reader.new) window.new (S.left source.new) }
        ensures sure { IfOk result (IsSure self.new.bytes self.new.ended) }
        ensures harts { self.new.harts ≡ self.old.harts }
        ensures offset { self.new.offset ≡ self.old.offset }
        ensures most { self.new.most ≡ self.old.most }
        ensures few { OnOk result (length self.new.bytes ≤ self.new.most) }
    {
        for _ in 0..u64::MAX {
            match is_taken(self.held(), self.ended, astray, self.harts, window, source) {
                Ok(taken) => return Ok(taken),
                Err(Pause::Bytes) => match self.read(reader) {
                    Ok(()) => {}
                    Err(why) => return Err(why),
                },
                Err(Pause::Sent(why)) => return Err(ReceivedFault::Sent(why)),
            }
        }
        // No file is read so often.
        Err(ReceivedFault::File(FileFault::Memory))
    }

    /// Passes over what is held up to the next message that is taken wherever it is, or to the end, and returns how many bytes
    /// that are: at least one, whatever begins there.
    fn pass_run<R: FileReader, S: SentSource, B: Allocator>(
        &mut self,
        reader: &mut R,
        window: &mut Window<B>,
        source: &mut S,
    ) -> Result<usize, ReceivedFault>
        requires { 1 ≤ length self.old.bytes }
        ensures decided { (all : Audited) (came : List AnyMessage) (front first : ℕ) (rest : List ℕ) → IsAudited all
            → Reads all first came front window.old (S.left source.old) → IsLeft self.old (R.left reader.old) rest
            → self.old.offset + length rest < 2 ^ 64
            → IsPassed all came front first (bytes_to_next (rule_of self.old.harts all front) (drop 1 rest) + 1) self.old rest
            result self.new (R.left reader.new) window.new (S.left source.new) }
        ensures harts { self.new.harts ≡ self.old.harts }
        ensures most { self.new.most ≡ self.old.most }
        ensures few { OnOk result (length self.new.bytes ≤ self.new.most) }
    {
        let mut count = 0usize;
        for _ in 0..u64::MAX {
            self.pass(1);
            count = count.wrapping_add(1);
            match self.is_taken(true, reader, window, source) {
                Ok(true) => return Ok(count),
                Ok(false) => {
                    if self.start == self.end {
                        return Ok(count);
                    }
                }
                Err(why) => return Err(why),
            }
        }
        // No run is so long.
        Err(ReceivedFault::File(FileFault::Memory))
    }

    /// The next message that is taken, or the next run of bytes between messages; `None` at the end.
    pub(crate) fn next<R: FileReader, S: SentSource, B: Allocator>(
        &mut self,
        reader: &mut R,
        window: &mut Window<B>,
        source: &mut S,
    ) -> Result<Option<Span>, ReceivedFault>
        ensures span { (all : Audited) (came : List AnyMessage) (front first : ℕ) (rest : List ℕ) → IsAudited all
            → Reads all first came front window.old (S.left source.old) → IsLeft self.old (R.left reader.old) rest
            → self.old.offset + length rest < 2 ^ 64
            → IsNextSpan all front self.old rest result self.new (R.left reader.new) }
        ensures follows { (all : Audited) (came : List AnyMessage) (front first : ℕ) (rest : List ℕ) → IsAudited all
            → Reads all first came front window.old (S.left source.old) → IsLeft self.old (R.left reader.old) rest
            → self.old.offset + length rest < 2 ^ 64
            → FollowsOn all came front first rest (sought_to self.old self.new) result window.new (S.left source.new) }
        ensures receives { (harts : ℕ) → Receives harts self.old → OnOk result (Receives harts self.new) }
    {
        let offset = self.offset;
        match self.is_taken(false, reader, window, source) {
            Ok(true) => Ok(Some(self.take_message())),
            Ok(false) => {
                if self.start == self.end {
                    return Ok(None);
                }
                match self.pass_run(reader, window, source) {
                    Ok(count) => Ok(Some(Span::Bytes { offset, count })),
                    Err(why) => Err(why),
                }
            }
            Err(why) => Err(why),
        }
    }

    /// Takes the complete message that begins what is held.
    fn take_message(&mut self) -> Span
        requires { is_complete self.old.bytes ≡ true }
        ensures span { result ≡ Span.Frame self.old.offset (frame_in self.old.bytes) }
        ensures bytes { self.new.bytes ≡ drop (frame_size self.old.bytes) self.old.bytes }
        ensures offset { self.old.offset + length self.old.bytes < 2 ^ 64
            → self.new.offset ≡ self.old.offset + frame_size self.old.bytes }
        ensures harts { self.new.harts ≡ self.old.harts }
        ensures ended { self.new.ended ≡ self.old.ended }
        ensures most { self.new.most ≡ self.old.most }
        ensures few { length self.new.bytes ≤ self.new.most }
    {
        let offset = self.offset;
        let (Some(size), Some(message)) = (message_size(self.held()), message_in(self.held()))
        else {
            unreachable!();
        };
        self.pass(size);
        Span::Frame { offset, message }
    }
}

/// Reads bytes into a buffer from this place on, and returns how many.
fn read_after<R: FileReader>(
    reader: &mut R,
    buffer: &mut [u8],
    from: usize,
) -> Result<usize, FileFault>
    requires { from < length buffer.old }
    ensures length { length buffer.new ≡ length buffer.old }
    ensures kept { take from buffer.new ≡ take from buffer.old }
    ensures within { IfOk result (λ count. from + count ≤ length buffer.new) }
    ensures read { ReadConsumes (R.left reader.old) (R.left reader.new) result (drop from buffer.new) }
    ensures fault { IfErr result (λ why. (why ≡ FileFault.Memory) ⊎ (R.left reader.old ≡ None)) }
{
    reader.read(&mut buffer[from..])
}
