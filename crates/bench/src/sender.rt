//! A hart that sends its log's messages.

ghost use Rattle.std.specs.Prelude.{ℕ, ◌≡◌, ◌≤◌, IfOk, IfSome, slice_get};
ghost use Rattle.legalpath.specs.ProgramLog.{IsLegalLog, ProgramLog};
ghost use Rattle.payload.specs.declared.mode.Mode.{Mode as AnyMode};
ghost use Rattle.encoder.specs.Payloads.{payloads};
ghost use Rattle.encoder.specs.SourceAt.{number_behind};
ghost use Rattle.bench.specs.steps.Sending.{AreNewSenders, message_with, sender_at};

use encoder::Source;
use legalpath::LegalLog;
use message::Message;
use payload::Mode;
use std::alloc::{AllocError, Allocator};

/// A hart that sends.
#[derive(Drop)]
pub(crate) struct Sender<'l, 'p, B: Allocator> {
    source: Source<'l, 'p, B>,
    /// How many messages it sent.
    number: u64,
}

impl<'l, 'p, B: Allocator> Sender<'l, 'p, B> {
    /// The next message of the hart, where it has one.
    pub(crate) fn next(&mut self, hart: u16) -> Option<Message>
        ensures given { (period : ℕ) (mode : AnyMode) (count : ℕ) (log : ProgramLog) → IsLegalLog log
            → self.old ≡ sender_at period mode log count
            → result ≡ message_with hart count (slice_get (payloads period mode log) count) }
        ensures hart { IfSome result (λ message. message.hart ≡ hart) }
        ensures goes_on { (period : ℕ) (mode : AnyMode) (count : ℕ) (log : ProgramLog) → IsLegalLog log
            → self.old ≡ sender_at period mode log count
            → self.new ≡ sender_at period mode log (number_behind count (slice_get (payloads period mode log) count)) }
    {
        let Some(payload) = self.source.next() else {
            return None;
        };
        let number = self.number;
        self.number = number.saturating_add(1);
        Some(Message {
            hart,
            number,
            payload,
        })
    }
}

/// A sender for each log, which sent nothing.
pub(crate) fn senders_of<'l, 'p, A: Allocator, B: Allocator>(
    alloc: A,
    logs: &'l [LegalLog<'p, B>],
    period: u16,
    mode: Mode,
) -> Result<Vec<Sender<'l, 'p, B>, A>, AllocError>
    requires { 1 ≤ period }
    ensures { IfOk result (λ senders. AreNewSenders period mode logs.now senders.items) }
{
    let mut senders = Vec::with_capacity(alloc, logs.len())?;
    for place in 0..logs.len() {
        senders.push_reserved(Sender {
            source: Source::new(&logs[place], period, mode),
            number: 0,
        });
    }
    Ok(senders)
}
