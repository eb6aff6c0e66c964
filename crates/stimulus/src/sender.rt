//! A hart that sends its messages.

ghost use Rattle.std.specs.Prelude.{ℕ, ◌≡◌, ◌≤◌, ◌%◌, All, IfErr, [], ◌∷◌, OnOk, map};
ghost use Rattle.output.specs.Begun.{AppendsBeginning};
ghost use Rattle.rvclass.specs.Fetch.{words_of};
ghost use Rattle.rvclass.specs.Words.{Words};
ghost use Rattle.message.specs.Capture.{capture, message_bytes};
ghost use Rattle.message.specs.Numbered.{messages_from};
ghost use Rattle.payload.specs.Profile.{InProfile};
ghost use Rattle.payload.specs.Spelling.{payload_of};
ghost use Rattle.stimulus.specs.Mixed.{Plan, Stand, closes, has_turn, sent_between, unsent};
ghost use Rattle.stimulus.specs.Walk.{first_walk};
ghost use Rattle.stimulus.specs.Walked.{HasWalked};
ghost use Rattle.stimulus.specs.steps.Sending.{Gives, HasGiven, HasSent, Numbered, Sends};

use crate::capturing::Capture;
use crate::hart::Hart;
use crate::walk::Extent;
use encoder::{Burst, Encoder};
use message::{Message, MessageFault, write_message};
use payload::{Mode, Packet, pack};
use rvclass::ProgramOver;
use std::io::Write;

/// How far a hart's trace is.
#[derive(Clone, Copy)]
pub(crate) enum Phase {
    /// No packet was given.
    Fresh,
    /// The packet that opens the trace was given, and others.
    Open,
    /// The packet that closes the trace was given, and no more come.
    Closed,
}

/// A hart whose events are encoded as they come.
#[derive(Drop)]
pub(crate) struct Tracer {
    hart: Hart,
    encoder: Encoder,
    phase: Phase,
}

impl Tracer {
    /// A hart of which no packet was given.
    fn new(hart: Hart, period: u16, mode: Mode) -> Tracer
        requires { 1 ≤ period }
        ensures { (words : Words) (plan : Plan) (number : ℕ) → plan.period ≡ period → plan.mode ≡ mode
            → HasWalked words (plan.start number) [] hart → HasGiven words plan number unsent result }
    {
        Tracer {
            hart,
            encoder: Encoder::new(period, mode),
            phase: Phase::Fresh,
        }
    }

    /// The packet that opens the trace, or the next one: the hart goes on until one is due. There is none where the
    /// hart has no event more, and after the trace was closed.
    fn next(&mut self, program: &ProgramOver) -> Burst
        ensures given { (plan : Plan) (number : ℕ) (stand : Stand)
            → HasGiven (words_of program.now) plan number stand self.old
            → Gives (words_of program.now) plan number stand (has_turn stand) self.new result.items }
        ensures profile { (plan : Plan) (number : ℕ) (stand : Stand)
            → HasGiven (words_of program.now) plan number stand self.old → All InProfile result.items }
        ensures opened { self.old.phase ≡ Phase.Fresh → self.new.phase ≡ Phase.Open }
    {
        match self.phase {
            Phase::Fresh => {
                let mut burst = Burst::new();
                burst.push(self.encoder.open());
                self.phase = Phase::Open;
                burst
            }
            Phase::Open => self.run(program),
            Phase::Closed => Burst::new(),
        }
    }

    /// Goes on until a packet is due.
    fn run(&mut self, program: &ProgramOver) -> Burst
        requires { self.old.phase ≡ Phase.Open }
        ensures given { (plan : Plan) (number : ℕ) (stand : Stand)
            → HasGiven (words_of program.now) plan number stand self.old
            → Gives (words_of program.now) plan number stand (has_turn stand) self.new result.items }
        ensures profile { (plan : Plan) (number : ℕ) (stand : Stand)
            → HasGiven (words_of program.now) plan number stand self.old → All InProfile result.items }
    {
        while let Some(event) = self.hart.next_event(program) {
            let burst = self.encoder.push(program, event);
            if !burst.is_empty() {
                return burst;
            }
        }
        Burst::new()
    }

    /// Closes the trace, and returns the packets that are left.
    fn close(&mut self, program: &ProgramOver) -> Burst
        requires { self.old.phase ≡ Phase.Open }
        ensures given { (plan : Plan) (number : ℕ) (stand : Stand)
            → HasGiven (words_of program.now) plan number stand self.old
            → Gives (words_of program.now) plan number stand (closes stand) self.new result.items }
        ensures profile { (plan : Plan) (number : ℕ) (stand : Stand)
            → HasGiven (words_of program.now) plan number stand self.old → All InProfile result.items }
        ensures closed { self.new.phase ≡ Phase.Closed }
    {
        self.phase = Phase::Closed;
        Encoder::from_state(self.encoder.state()).finish(program)
    }
}

/// Which message of a hart comes next.
#[derive(Clone, Copy)]
pub(crate) struct Numbers {
    hart: u16,
    number: u64,
}

impl Numbers {
    /// Writes the messages of these packets. The error is that of [`Numbers::write`].
    fn write_all<W: Write>(&mut self, packets: &[Packet], sink: &mut W) -> Result<(), MessageFault>
        ensures numbered { All InProfile packets.now → OnOk result
            (Numbered packets.now self.old self.new (W.contents sink.old) (W.contents sink.new)) }
        ensures begun { All InProfile packets.now → AppendsBeginning
            (capture (messages_from self.old.hart self.old.number (map payload_of packets.now)))
            (W.contents sink.old) (W.contents sink.new) }
        ensures fault { IfErr result (λ fault. fault ≡ MessageFault.Write) }
    {
        for packet in packets {
            self.write(packet, sink)?;
        }
        Ok(())
    }

    /// Writes the message of this packet. A packet that is not of the profile has no payload and gives no message; a
    /// legal log has none. The error says that the writer failed, or that no number is left.
    fn write<W: Write>(&mut self, packet: &Packet, sink: &mut W) -> Result<(), MessageFault>
        ensures numbered { InProfile packet.now → OnOk result
            (Numbered (packet.now ∷ []) self.old self.new (W.contents sink.old) (W.contents sink.new)) }
        ensures begun { InProfile packet.now → AppendsBeginning (message_bytes
            (record { hart = self.old.hart; number = self.old.number; payload = payload_of packet.now }))
            (W.contents sink.old) (W.contents sink.new) }
        ensures fault { IfErr result (λ fault. fault ≡ MessageFault.Write) }
    {
        if !packet.in_profile() {
            return Ok(());
        }
        let message = Message {
            hart: self.hart,
            number: self.number,
            payload: pack(packet),
        };
        self.number = match self.number.checked_add(1) {
            Some(next) => next,
            None => return Err(MessageFault::Write),
        };
        write_message(sink, &message)
    }
}

/// A hart that sends the messages of its trace.
#[derive(Drop)]
pub(crate) struct Sender {
    tracer: Tracer,
    numbers: Numbers,
}

impl Sender {
    /// The hart of this number, which sent no message.
    pub(crate) fn new(extent: Extent, asked: &Capture, hart: u16) -> Sender
        requires period { 1 ≤ asked.now.period }
        requires even { extent.base % 2 ≡ 0 }
        ensures { (words : Words) (plan : Plan) → plan.period ≡ asked.now.period → plan.mode ≡ asked.now.mode
            → plan.start hart ≡ first_walk extent asked.now.mix asked.now.seed hart
            → HasSent words plan hart unsent result }
    {
        let walker = Hart::within(extent, asked.mix, asked.seed, hart);
        Sender {
            tracer: Tracer::new(walker, asked.period, asked.mode),
            numbers: Numbers { hart, number: 0 },
        }
    }

    /// Sends the next message, if the trace is not closed and the hart has events left.
    pub(crate) fn send<W: Write>(
        &mut self,
        program: &ProgramOver,
        sink: &mut W,
    ) -> Result<(), MessageFault>
        ensures sent { (plan : Plan) (hart : ℕ) (stand : Stand)
            → HasSent (words_of program.now) plan hart stand self.old
            → OnOk result (Sends (words_of program.now) plan hart stand (has_turn stand) self.new
            (W.contents sink.old) (W.contents sink.new)) }
        ensures begun { (plan : Plan) (hart : ℕ) (stand : Stand)
            → HasSent (words_of program.now) plan hart stand self.old
            → AppendsBeginning (capture (sent_between (words_of program.now) plan hart stand (has_turn stand)))
            (W.contents sink.old) (W.contents sink.new) }
        ensures opened { self.old.tracer.phase ≡ Phase.Fresh → self.new.tracer.phase ≡ Phase.Open }
        ensures fault { IfErr result (λ fault. fault ≡ MessageFault.Write) }
    {
        let burst = self.tracer.next(program);
        self.numbers.write_all(burst.as_slice(), sink)
    }

    /// Sends the messages that are left and the one that closes the trace, unless it is closed.
    pub(crate) fn finish<W: Write>(
        &mut self,
        program: &ProgramOver,
        sink: &mut W,
    ) -> Result<(), MessageFault>
        ensures sent { (plan : Plan) (hart : ℕ) (stand : Stand)
            → HasSent (words_of program.now) plan hart stand self.old
            → OnOk result (Sends (words_of program.now) plan hart stand (closes stand) self.new
            (W.contents sink.old) (W.contents sink.new)) }
        ensures begun { (plan : Plan) (hart : ℕ) (stand : Stand)
            → HasSent (words_of program.now) plan hart stand self.old
            → AppendsBeginning (capture (sent_between (words_of program.now) plan hart stand (closes stand)))
            (W.contents sink.old) (W.contents sink.new) }
        ensures closed { OnOk result (self.new.tracer.phase ≡ Phase.Closed) }
        ensures fault { IfErr result (λ fault. fault ≡ MessageFault.Write) }
    {
        match self.tracer.phase {
            Phase::Fresh => {
                self.send(program, sink)?;
                self.close(program, sink)
            }
            Phase::Open => self.close(program, sink),
            Phase::Closed => Ok(()),
        }
    }

    /// Sends the messages that are left of a trace that was opened, and the one that closes it.
    fn close<W: Write>(&mut self, program: &ProgramOver, sink: &mut W) -> Result<(), MessageFault>
        requires { self.old.tracer.phase ≡ Phase.Open }
        ensures sent { (plan : Plan) (hart : ℕ) (stand : Stand)
            → HasSent (words_of program.now) plan hart stand self.old
            → OnOk result (Sends (words_of program.now) plan hart stand (closes stand) self.new
            (W.contents sink.old) (W.contents sink.new)) }
        ensures begun { (plan : Plan) (hart : ℕ) (stand : Stand)
            → HasSent (words_of program.now) plan hart stand self.old
            → AppendsBeginning (capture (sent_between (words_of program.now) plan hart stand (closes stand)))
            (W.contents sink.old) (W.contents sink.new) }
        ensures closed { self.new.tracer.phase ≡ Phase.Closed }
        ensures fault { IfErr result (λ fault. fault ≡ MessageFault.Write) }
    {
        let burst = self.tracer.close(program);
        self.numbers.write_all(burst.as_slice(), sink)
    }
}
