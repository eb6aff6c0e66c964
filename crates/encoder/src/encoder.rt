//! From events to packets, one event at a time.

ghost use Rattle.std.specs.Prelude.{◌≡◌, ◌≤◌, ◌<◌, ℕ, All, IfSome, List, [], ◌∷◌, ◌++◌, None, length, take};
ghost use Rattle.std.specs.Option.{option_to_list};
ghost use Rattle.retire.specs.declared.event.Event.{Event};
ghost use Rattle.retire.specs.Is64Bit.{Is64Bit};
ghost use Rattle.rvclass.specs.Fetch.{words_of};
ghost use Rattle.rvclass.specs.Words.{Words};
ghost use Rattle.legalpath.specs.Legal.{Legal};
ghost use Rattle.payload.specs.Limits.{most_outcomes};
ghost use Rattle.payload.specs.Profile.{InProfile};
ghost use Rattle.payload.specs.declared.mode.Mode.{Mode};
ghost use Rattle.encoder.specs.Packets.{packets, closing};
ghost use Rattle.encoder.specs.PacketsSoFar.{packets_so_far};
ghost use Rattle.encoder.specs.EncoderStands.{EncoderStands};
ghost use Rattle.encoder.specs.StateStands.{StateStands, encoder_of, state_of};
ghost use Rattle.encoder.specs.steps.Becomes.{Becomes, GivesNothing};
ghost use Rattle.encoder.specs.steps.Stepping as stepping;

use crate::due::{Due, due_behind};
use crate::packet::{handler_packet, packet_by, reported_by};
use crate::passing::passes;
use crate::rule::{Rule, rule_at_end, rule_before};
use crate::state::EncoderState;
use arrayvec::ArrayVec;
use payload::{MOST_OUTCOMES, Mode, Outcomes, Packet, Support};
use retire::Event;
use rvclass::ProgramOver;

/// The packets that one event gives: two at most.
pub type Burst = ArrayVec<Packet, 2>;

/// Gives the packets of a log while its events come.
#[derive(Drop)]
pub struct Encoder {
    /// How many retirements come between two periodic syncs.
    between: u16,
    /// How many retirements come before the next periodic sync.
    left: u16,
    /// The last event, which is held back until it is known what follows.
    held: Option<Event>,
    /// What is due for it.
    due: Due,
    /// The outcomes of the branches that no packet has reported yet.
    pending: Outcomes,
    /// What the address fields hold.
    mode: Mode,
    /// The last reported address.
    reported: u64,
}

impl Encoder {
    /// An encoder that no event was pushed to. It syncs at each retirement whose number, from 0, the period divides,
    /// and reports addresses in this mode.
    pub fn new(period: u16, mode: Mode) -> Encoder
        requires { 1 ≤ period }
        ensures { (words : Words) → EncoderStands words period mode [] result }
    {
        Encoder {
            between: period - 1,
            left: 0,
            held: None,
            due: Due::Nothing,
            pending: Outcomes::new(),
            mode,
            reported: 0,
        }
    }

    /// The packet that opens the trace and announces the mode. It is asked for once, before the first push.
    pub fn open(&mut self) -> Packet
        ensures open { (words : Words) (period : ℕ) (mode : Mode) (log : List Event) →
            EncoderStands words period mode log self.old →
            result ≡ Packet.Support (Support.Open mode) }
        ensures packets { (words : Words) (period : ℕ) (mode : Mode) (log : List Event) →
            EncoderStands words period mode log self.old →
            packets_so_far words period mode [] ≡ result ∷ [] }
        ensures same { self.new ≡ self.old }
    {
        Packet::Support(self.opening())
    }

    /// Takes the next event, and returns the packets that this event makes due.
    #[inline]
    pub fn push(&mut self, program: &ProgramOver, event: Event) -> Burst
        ensures stands { (period : ℕ) (mode : Mode) (log : List Event) →
            EncoderStands (words_of program.now) period mode log self.old →
            Legal (words_of program.now) (log ++ event ∷ []) →
            EncoderStands (words_of program.now) period mode (log ++ event ∷ []) self.new }
        ensures packets { (period : ℕ) (mode : Mode) (log : List Event) →
            EncoderStands (words_of program.now) period mode log self.old →
            Legal (words_of program.now) (log ++ event ∷ []) →
            packets_so_far (words_of program.now) period mode (log ++ event ∷ [])
            ≡ packets_so_far (words_of program.now) period mode log ++ result.items }
        ensures profile { (period : ℕ) (mode : Mode) (log : List Event) →
            EncoderStands (words_of program.now) period mode log self.old →
            Legal (words_of program.now) (log ++ event ∷ []) →
            All InProfile result.items }
    {
        burst_of(self.step(program, &event))
    }

    /// Takes the next events, up to and with the first that makes a packet due, or all of them where none does. Returns
    /// how many it took, and that packet, if there is one. Over the rest of a log, calls until `None` give the packets
    /// that a [`Encoder::push`] of each event gives, in less time; [`Encoder::finish`] gives those that are left. A
    /// call that returns a packet takes one event at least.
    pub fn push_until_packet(
        &mut self,
        program: &ProgramOver,
        events: &[Event],
    ) -> (usize, Option<Packet>)
        ensures within { result.0 ≤ length events.now }
        ensures stands { (period : ℕ) (mode : Mode) (log : List Event) →
            EncoderStands (words_of program.now) period mode log self.old →
            Legal (words_of program.now) (log ++ take result.0 events.now) →
            EncoderStands (words_of program.now) period mode (log ++ take result.0 events.now) self.new }
        ensures packets { (period : ℕ) (mode : Mode) (log : List Event) →
            EncoderStands (words_of program.now) period mode log self.old →
            Legal (words_of program.now) (log ++ take result.0 events.now) →
            packets_so_far (words_of program.now) period mode (log ++ take result.0 events.now)
            ≡ packets_so_far (words_of program.now) period mode log ++ option_to_list result.1 }
        // No event before the last one that is taken makes a packet due.
        ensures first { (period count : ℕ) (mode : Mode) (log : List Event) →
            EncoderStands (words_of program.now) period mode log self.old →
            Legal (words_of program.now) (log ++ take count events.now) →
            count < result.0 →
            packets_so_far (words_of program.now) period mode (log ++ take count events.now)
            ≡ packets_so_far (words_of program.now) period mode log }
        ensures some { IfSome result.1 (λ _. 1 ≤ result.0) }
        ensures all { result.1 ≡ None → result.0 ≡ length events.now }
        ensures profile { (period : ℕ) (mode : Mode) (log : List Event) →
            EncoderStands (words_of program.now) period mode log self.old →
            Legal (words_of program.now) (log ++ take result.0 events.now) →
            IfSome result.1 InProfile }
    {
        self.run(program, events)
    }

    /// Takes the end of the log, and returns the packets that are left. The last of them closes the trace.
    pub fn finish(self, program: &ProgramOver) -> Burst
        ensures packets { (period : ℕ) (mode : Mode) (log : List Event) →
            EncoderStands (words_of program.now) period mode log self →
            packets (words_of program.now) period mode log
            ≡ packets_so_far (words_of program.now) period mode log ++ result.items }
        ensures profile { (period : ℕ) (mode : Mode) (log : List Event) →
            EncoderStands (words_of program.now) period mode log self →
            Legal (words_of program.now) log →
            All InProfile result.items }
    {
        let mut burst = burst_of(self.last());
        burst.push(Packet::Support(self.closing()));
        burst
    }

    /// What this encoder keeps, from which [`Encoder::from_state`] makes the same encoder.
    pub fn state(&self) -> EncoderState
        ensures stands { (words : Words) (period : ℕ) (mode : Mode) (log : List Event) →
            EncoderStands words period mode log self.now →
            StateStands words period mode log result }
        ensures back { encoder_of result ≡ self.now }
    {
        EncoderState {
            between: self.between,
            left: self.left,
            held: self.held,
            due: self.due,
            pending: self.pending,
            mode: self.mode,
            reported: self.reported,
        }
    }

    /// The encoder that keeps this, from which [`Encoder::state`] gives the same state.
    pub fn from_state(state: EncoderState) -> Encoder
        ensures stands { (words : Words) (period : ℕ) (mode : Mode) (log : List Event) →
            StateStands words period mode log state →
            EncoderStands words period mode log result }
        ensures back { state_of result ≡ state }
    {
        Encoder {
            between: state.between,
            left: state.left,
            held: state.held,
            due: state.due,
            pending: state.pending,
            mode: state.mode,
            reported: state.reported,
        }
    }

    /// Takes the next event, and returns the packet that this event makes due.
    #[inline]
    fn step(&mut self, program: &ProgramOver, event: &Event) -> Option<Packet>
        ensures after { self.new ≡ stepping.encoder_after (words_of program.now) self.old event.now }
        ensures given { option_to_list result ≡ stepping.given (words_of program.now) self.old event.now }
        ensures numbers { Is64Bit event.now }
    {
        let due = due_behind(&self.held, self.due, self.left, event);
        let rule = self.rule_of_held(program, event, due);
        if self.is_quiet(rule) {
            self.hold(*event, due);
            return None;
        }
        self.report(rule, event, due)
    }

    /// Takes events, up to and with the first that makes a packet due, or all of them where none does. Returns how many
    /// it took, and that packet, if there is one.
    fn run(&mut self, program: &ProgramOver, events: &[Event]) -> (usize, Option<Packet>)
        ensures within { result.0 ≤ length events.now }
        ensures becomes { Becomes (words_of program.now) self.old (take result.0 events.now) self.new
            (option_to_list result.1) }
        ensures first { (count : ℕ) → count < result.0 →
            GivesNothing (words_of program.now) self.old (take count events.now) }
        ensures some { IfSome result.1 (λ _. 1 ≤ result.0) }
        ensures all { result.1 ≡ None → result.0 ≡ length events.now }
    {
        let mut taken = 0;
        for _ in 0..events.len() {
            let at = taken + self.pass(program, &events[taken..]);
            if at == events.len() {
                return (at, None);
            }
            taken = at + 1;
            if let Some(packet) = self.step(program, &events[at]) {
                return (taken, Some(packet));
            }
        }
        (taken, None)
    }

    /// Takes events from the front, as long as each follows a retirement for which nothing is due and gives no packet.
    /// Returns how many it took.
    fn pass(&mut self, program: &ProgramOver, events: &[Event]) -> usize
        ensures within { result ≤ length events.now }
        ensures becomes { Becomes (words_of program.now) self.old (take result events.now) self.new [] }
    {
        let Some(mut held) = self.held else {
            return 0;
        };
        if !matches!(self.due, Due::Nothing) {
            return 0;
        }
        let mut left = self.left;
        let mut pending = self.pending;
        let mut taken = 0;
        for event in events {
            if !passes(program, &held, left, &pending, *event) {
                break;
            }
            left -= 1;
            add_outcome(&mut pending, event);
            held = *event;
            taken += 1;
        }
        self.left = left;
        self.pending = pending;
        self.held = Some(held);
        taken
    }

    /// How the trace opens: this announces the mode.
    pub(crate) fn opening(&self) -> Support
        ensures { result ≡ Support.Open self.now.mode }
    {
        Support::Open(self.mode)
    }

    /// The packet of the last event, if none has reported it yet.
    pub(crate) fn last(&self) -> Option<Packet>
        ensures { option_to_list result ≡ stepping.last_given self.now self.now.held }
    {
        match &self.held {
            Some(held) => packet_by(
                rule_at_end(self.due),
                held,
                &self.pending,
                self.mode,
                self.reported,
            ),
            None => None,
        }
    }

    /// How the trace closes after the last event.
    pub(crate) fn closing(&self) -> Support
        ensures { result ≡ stepping.ends_by self.now self.now.held }
    {
        match self.held {
            Some(_) => closing(rule_at_end(self.due)),
            None => Support::EndedNtr,
        }
    }

    /// The rule of the held event, if there is one, before the next event, for which `due` is due.
    #[inline]
    fn rule_of_held(&self, program: &ProgramOver, next: &Event, due: Due) -> Option<Rule>
        ensures { result ≡ stepping.rule_of_held (words_of program.now) self.now.held self.now.due next.now due }
    {
        match &self.held {
            Some(held) => Some(rule_before(program, held, self.due, next, due)),
            None => None,
        }
    }

    /// Whether there is a held event, whose rule this is, and it gives no packet.
    #[inline]
    fn is_quiet(&self, rule: Option<Rule>) -> bool
        ensures { result ≡ stepping.gives_nothing rule self.now.pending }
    {
        matches!(rule, Some(Rule::MapOrNothing)) && self.pending.len() < MOST_OUTCOMES
    }

    /// Returns the packet that the next event makes due, by the rule of the held event, and holds the next event, for
    /// which `due` is due.
    #[inline(always)]
    fn report(&mut self, rule: Option<Rule>, event: &Event, due: Due) -> Option<Packet>
        ensures after { self.new
            ≡ stepping.hold self.old [] (stepping.reported_for_rule self.old self.old.held rule event.now due) event.now
            due }
        ensures given { option_to_list result ≡ stepping.packets_for_rule self.old self.old.held rule event.now due }
        ensures numbers { Is64Bit event.now }
    {
        let mut packet = None;
        if let (Some(held), Some(rule)) = (self.held, rule) {
            if due.is_handler() {
                packet = Some(handler_packet(&held, event));
                self.reported = event.place();
            } else {
                packet = packet_by(rule, &held, &self.pending, self.mode, self.reported);
                self.reported = reported_by(rule, self.reported, &held);
            }
        }
        self.pending = Outcomes::new();
        self.hold(*event, due);
        packet
    }

    /// Holds an event, for which `due` is due.
    #[inline]
    fn hold(&mut self, event: Event, due: Due)
        requires { length self.old.pending < most_outcomes }
        ensures after { self.new ≡ stepping.hold self.old self.old.pending self.old.reported event due }
        ensures numbers { Is64Bit event }
    {
        if let Event::Retire { .. } = event {
            self.left = if self.left == 0 {
                self.between
            } else {
                self.left - 1
            };
        }
        if !due.is_handler() {
            add_outcome(&mut self.pending, &event);
        }
        self.held = Some(event);
        self.due = due;
    }
}

/// Adds the outcome of an event, if it is a branch.
#[inline(always)]
fn add_outcome(pending: &mut Outcomes, event: &Event)
    requires { length pending.old < most_outcomes }
    ensures { pending.new ≡ stepping.pending_with Due.Nothing event.now pending.old }
{
    if event.is_branch() {
        pending.push(event.is_taken());
    }
}

/// A burst of this packet, if there is one.
#[inline]
fn burst_of(packet: Option<Packet>) -> Burst
    ensures { result.items ≡ option_to_list packet }
{
    let mut burst = Burst::new();
    if let Some(packet) = packet {
        burst.push(packet);
    }
    burst
}

/// How the trace closes after an event with this rule.
fn closing(rule: Rule) -> Support
    ensures { result ≡ closing rule }
{
    match rule {
        Rule::Explicit => Support::EndedRep,
        _ => Support::EndedNtr,
    }
}
