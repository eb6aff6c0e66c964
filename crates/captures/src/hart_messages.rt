//! The messages of a hart, from its log, which comes a piece at a time.

ghost use Rattle.std.specs.Prelude.{◌≡◌, ◌≤◌, ℕ, List, [], ◌++◌, true, IfOk, OnOk};
ghost use Rattle.std.specs.List.{flat_map};
ghost use Rattle.retire.specs.declared.event.Event.{Event};
ghost use Rattle.rvclass.specs.Fetch.{words_of};
ghost use Rattle.rvclass.specs.Words.{Words};
ghost use Rattle.legalpath.specs.Legal.{Legal};
ghost use Rattle.legalpath.specs.ProgramLog.{program_log};
ghost use Rattle.payload.specs.declared.mode.Mode.{Mode};
ghost use Rattle.encoder.specs.Payloads.{payloads};
ghost use Rattle.message.specs.Numbered.{messages_from};
ghost use Rattle.captures.specs.HasEncoded.{HasEncoded};
ghost use Rattle.captures.specs.steps.Encodes.{Encodes, EncodedSoFar};

use crate::Form;
use crate::messages::Messages;
use encoder::Encoder;
use payload::Mode;
use retire::Event;
use rvclass::ProgramOver;
use std::alloc::{AllocError, Global};
use std::marker::PhantomData;

/// Writes the messages of a hart while the events of its log come, so that no list holds all of them. The messages are
/// numbered from 0 on and written in the form `F`: together they are what [`crate::encode_hart`] writes of the log.
///
/// The events of all pieces together have to be a log that is legal for the program. Otherwise no clause says what the
/// messages are.
#[derive(Drop)]
pub struct HartMessages<F> {
    encoder: Encoder,
    /// Whether the message that opens the trace is written.
    is_open: bool,
    messages: Messages,
    form: PhantomData<F>,
}

impl<F: Form> HartMessages<F> {
    /// The messages of a log of which no event came yet. It synchronises at each retirement whose number, from 0, the
    /// period divides, and reports addresses in this mode. The call allocates nothing.
    pub fn new(alloc: Global, hart: u16, period: u16, mode: Mode) -> HartMessages<F>
        requires { 1 ≤ period }
        ensures { (words : Words) → HasEncoded F.text words period mode hart [] result }
    {
        HartMessages {
            encoder: Encoder::new(period, mode),
            is_open: false,
            messages: Messages {
                hart,
                number: 0,
                bytes: Vec::new(alloc),
            },
            form: PhantomData,
        }
    }

    /// Takes the next events of the log, and writes the messages of the packets that they make due. There may be any
    /// number of events, and none. The error says that an allocation failed. After it no clause says what the messages
    /// are.
    pub fn add(&mut self, program: &ProgramOver, events: &[Event]) -> Result<(), AllocError>
        ensures { (period : ℕ) (mode : Mode) (hart : ℕ) (seen : List Event) →
            HasEncoded F.text (words_of program.now) period mode hart seen self.old →
            Legal (words_of program.now) (seen ++ events.now) →
            OnOk result
            (HasEncoded F.text (words_of program.now) period mode hart (seen ++ events.now) self.new) }
    {
        self.open()?;
        push_all::<F>(&mut self.encoder, program, events, &mut self.messages)
    }

    /// Takes the end of the log, and returns its messages as they are written. The error says that an allocation
    /// failed.
    pub fn finish(mut self, program: &ProgramOver) -> Result<Vec<u8>, AllocError>
        ensures { (period : ℕ) (mode : Mode) (hart : ℕ) (seen : List Event) →
            HasEncoded F.text (words_of program.now) period mode hart seen self →
            Legal (words_of program.now) seen →
            IfOk result (λ bytes. bytes.items ≡
            flat_map F.text (messages_from hart 0 (payloads period mode (program_log program.now seen)))) }
    {
        self.open()?;
        let HartMessages {
            encoder,
            mut messages,
            ..
        } = self;
        messages.write_all::<F>(encoder.finish(program).as_slice())?;
        Ok(messages.bytes)
    }

    /// Writes the message that opens the trace, if it is not written yet.
    #[inline]
    fn open(&mut self) -> Result<(), AllocError>
        ensures encoded { (words : Words) (period : ℕ) (mode : Mode) (hart : ℕ) (seen : List Event) →
            HasEncoded F.text words period mode hart seen self.old →
            OnOk result (EncodedSoFar F.text words period mode hart seen self.new.encoder self.new.messages) }
        ensures open { OnOk result (self.new.is_open ≡ true) }
    {
        if !self.is_open {
            self.messages.write::<F>(&self.encoder.open())?;
            self.is_open = true;
        }
        Ok(())
    }
}

/// Gives an encoder the next events of its log, and writes the messages of the packets that they make due.
fn push_all<F: Form>(
    encoder: &mut Encoder,
    program: &ProgramOver,
    events: &[Event],
    messages: &mut Messages,
) -> Result<(), AllocError>
    ensures { OnOk result
        (Encodes F.text (words_of program.now) events.now encoder.old messages.old encoder.new messages.new) }
{
    let mut taken = 0;
    while taken < events.len() {
        let (count, next) = encoder.push_until_packet(program, &events[taken..]);
        taken += count;
        match next {
            Some(packet) => messages.write::<F>(&packet)?,
            None => return Ok(()),
        }
    }
    Ok(())
}
