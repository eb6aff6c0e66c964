//! The live audit.

ghost use Rattle.std.specs.Prelude.{◌≡◌, ◌+◌, ◌<◌, ◌≤◌, ◌^◌, ℕ, IfOk, List, Ok, OnOk, Some, drop, length, max, min, slice_get, take};
ghost use Rattle.message.specs.declared.message.Message.{Message as AnyMessage};
ghost use Rattle.live.specs.Auditing.{Ended, GoesTo, LiveHolding, ReadsSent, Stands, StandsOn, Went};
ghost use Rattle.live.specs.Course.{doubted_to, going_on, looking, settling, taking, taking_of, then_goes};
ghost use Rattle.live.specs.Following.{Audited, IsAudited, Left, WasAsked, left_after, looked_to};
ghost use Rattle.live.specs.ReceivedLeft.{IsLeft, IsNextSpan, Receives, sought_to};
ghost use Rattle.live.specs.Live.{State, finished, is_outage, judged, met, passes, passes_all, start, strange, waits};
ghost use Rattle.live.specs.steps.Advancing.{IsAsked, IsJudged, IsSettled, MakesPlace, NoneBefore, ReadsNext, reaching};

use crate::arrived::Arrived;
use crate::fault::{LookFault, ReceivedFault, SourceFault};
use crate::giving::{give, give_all, tell_runs, tell_waiting};
use crate::judged::Judged;
use crate::lines::LiveLines;
use crate::looking::{is_outage, look, next_sent, read_placed};
use crate::received::Received;
use crate::run::Run;
use crate::source::SentSource;
use crate::waiting::{none_waiting, take_met, take_waiting, wait};
use crate::window::{MOST_WINDOW, Window};
use auditing::{By, Finding};
use frames::Span;
use log_streams::FileReader;
use message::Message;
use std::alloc::{AllocError, Allocator, Global};
use std::marker::Model;

/// What is held while messages of RECEIVED come.
#[derive(Drop)]
pub struct LiveAudit<A: Allocator = Global> {
    /// What is held of SENT.
    window: Window<A>,
    /// Of each hart the message that is undecided, if one is.
    waiting: Vec<Option<Arrived>, A>,
    /// Of each hart the run of lost numbers that goes on.
    runs: Vec<Run, A>,
}

impl<A: Allocator> Model for LiveAudit<A> {
    ghost Value = { LiveHolding };

    ghost view = { λ audit. record {
      window = audit.window;
      waiting = audit.waiting.items;
      runs = audit.runs.items;
    } };
}

impl<A: Allocator + Copy> LiveAudit<A> {
    /// Before the first message of RECEIVED, where this many messages of SENT may be in view before the front and after it,
    /// where there are so many harts, and where payloads are compared by these. No window is as one of 1, and more than
    /// [`MOST_WINDOW`] are as many as that. By packets a message is true as by [`auditing::Audit::with`].
    ///
    /// Memory is taken once, as by [`Window::new`] and for one message and a run of each hart. No other call takes any.
    pub fn new(alloc: A, window: u32, harts: u16, by: By) -> Result<LiveAudit<A>, AllocError>
        ensures { IfOk result (λ own. (all : Audited) → all.window ≡ min (max window 1) MOST_WINDOW → all.harts ≡ harts
            → all.by ≡ by → Stands all 0 (start by) own (left_after all 0)) }
    {
        Ok(LiveAudit {
            window: Window::new(alloc, window.max(1), harts, by)?,
            waiting: none_waiting(alloc, harts)?,
            runs: vec![in alloc; Run::NONE; usize::from(harts)]?,
        })
    }
}

impl<A: Allocator> LiveAudit<A> {
    /// The front comes to the next message of SENT: what waits for it is decided.
    fn meet<L: LiveLines>(&mut self, lines: &mut L)
        ensures { (all : Audited) (read : ℕ) (state : State) (left : Left) (message : AnyMessage) → IsAudited all
            → Stands all read state self.old left → state.front < read → slice_get all.sent state.front ≡ Some message
            → GoesTo all read (λ told. L.Told lines.old told lines.new)
            (met all.sent state message (state.waiting message.hart)) self.new left }
    {
        let Some(one) = take_met(&mut self.waiting, self.window.next()) else {
            return;
        };
        match self.window.judge(&one.message) {
            Judged::Found { finding, .. } => {
                lines.decided(
                    &one,
                    finding,
                    self.window.changed_from(&one.message, finding),
                )
            }
            Judged::TooLate => {}
            Judged::Undecided => {}
        }
    }

    /// The front goes on to the next message of SENT, and the message that is then more than a window before it is given up.
    fn pass<L: LiveLines>(&mut self, lines: &mut L)
        ensures { (all : Audited) (read : ℕ) (state : State) (left : Left) (message : AnyMessage) → IsAudited all
            → Stands all read state self.old left → state.front < read → slice_get all.sent state.front ≡ Some message
            → GoesTo all read (λ told. L.Told lines.old told lines.new) (passes all.window all.sent state message) self.new
            left }
    {
        self.meet(lines);
        match self.window.pass() {
            Some(slot) => give(&mut self.runs, &slot, lines),
            None => {}
        }
    }

    /// The front goes on by so many messages of SENT, which were read.
    fn pass_all<L: LiveLines>(&mut self, count: usize, lines: &mut L)
        ensures { (all : Audited) (read : ℕ) (state : State) (left : Left) → IsAudited all
            → Stands all read state self.old left → state.front + count ≤ read
            → GoesTo all read (λ told. L.Told lines.old told lines.new)
            (passes_all all.window all.sent state (take count (drop state.front all.sent))) self.new left }
    {
        for _ in 0..count {
            self.pass(lines);
        }
    }

    /// Looks a message up, and decides it if it is not beyond the view. Then the front goes on to it, if it is new and after
    /// the front. Returns whether it is beyond.
    fn judge<S: SentSource, L: LiveLines>(
        &mut self,
        one: &Arrived,
        source: &mut S,
        lines: &mut L,
    ) -> Result<bool, LookFault>
        ensures { (all : Audited) (read asked : ℕ) (state : State) → IsAudited all
            → Stands all read state self.old (S.left source.old) → WasAsked all asked read
            → IsJudged all (λ told. L.Told lines.old told lines.new) asked state one.now result self.new
            (S.left source.new) }
    {
        match look(
            &mut self.window,
            source,
            one.message.hart,
            one.message.number,
        ) {
            Ok(()) => Ok(self.judge_looked(one, lines)),
            Err(why) => Err(why),
        }
    }

    /// The same, where SENT was read as far as the message asks for.
    fn judge_looked<L: LiveLines>(&mut self, one: &Arrived, lines: &mut L) -> bool
        ensures { (all : Audited) (read asked : ℕ) (state : State) (left : Left) → IsAudited all
            → Stands all read state self.old left → IsSettled all read state one.now
            → WasAsked all (looked_to all state.front one.now.message.hart one.now.message.number asked) read
            → IsJudged all (λ told. L.Told lines.old told lines.new) asked state one.now (Ok result) self.new left }
    {
        match self.window.judge(&one.message) {
            Judged::TooLate => {
                lines.too_late(one);
                false
            }
            Judged::Undecided => true,
            Judged::Found { finding, ahead } => {
                lines.decided(
                    one,
                    finding,
                    self.window.changed_from(&one.message, finding),
                );
                self.pass_all(ahead, lines);
                false
            }
        }
    }

    /// Whether the path was out between two messages of a hart.
    fn is_outage<S: SentSource>(
        &mut self,
        first: &Message,
        second: &Message,
        source: &mut S,
    ) -> Result<bool, LookFault>
        ensures { (all : Audited) (read asked : ℕ) (state : State) → IsAudited all
            → Stands all read state self.old (S.left source.old) → WasAsked all asked read
            → IsAsked all asked (doubted_to all state first.now second.now asked) state
            (is_outage all.window all.sent state first.now second.now) result self.new (S.left source.new) }
    {
        is_outage(&mut self.window, source, first, second)
    }

    /// The next message of RECEIVED that is taken, or the next run of bytes between messages, `None` at the end. A message is
    /// to be taken ([`LiveAudit::take`]) before the next call. As many harts are to be known as those of the audit. Takes no
    /// memory.
    ///
    /// It fails if the bytes cannot be read on, or if SENT cannot, which is read only to look messages up. Then nothing of
    /// RECEIVED is lost but bytes of a run that were passed over.
    pub fn next_received<R: FileReader, S: SentSource>(
        &mut self,
        received: &mut Received<A>,
        reader: &mut R,
        source: &mut S,
    ) -> Result<Option<Span>, ReceivedFault>
        ensures span { (all : Audited) (read : ℕ) (state : State) (rest : List ℕ) → IsAudited all
            → Stands all read state self.old (S.left source.old) → IsLeft received.old (R.left reader.old) rest
            → received.old.offset + length rest < 2 ^ 64
            → IsNextSpan all state.front received.old rest result received.new (R.left reader.new) }
        ensures stands { (all : Audited) (read : ℕ) (state : State) (rest : List ℕ) → IsAudited all
            → Stands all read state self.old (S.left source.old) → IsLeft received.old (R.left reader.old) rest
            → received.old.offset + length rest < 2 ^ 64
            → StandsOn all read state rest (sought_to received.old received.new) result self.new (S.left source.new) }
        ensures receives { (harts : ℕ) → Receives harts received.old → OnOk result (Receives harts received.new) }
    {
        received.next(reader, &mut self.window, source)
    }

    /// If there is no place for one message more of SENT, the front goes on by one.
    fn make_place<L: LiveLines>(&mut self, lines: &mut L)
        ensures { (all : Audited) (read : ℕ) (state : State) (left : Left) → IsAudited all
            → Stands all read state self.old left
            → MakesPlace all read (λ told. L.Told lines.old told lines.new) state self.new left }
    {
        if !self.window.is_full() {
            return;
        }
        self.pass(lines);
    }

    /// Reads one message more of SENT. Returns whether that is the one of this hart with this number, or SENT has ended.
    fn read_next<S: SentSource, L: LiveLines>(
        &mut self,
        hart: usize,
        number: u64,
        source: &mut S,
        lines: &mut L,
    ) -> Result<bool, LookFault>
        ensures { (all : Audited) (read : ℕ) (state : State) → IsAudited all
            → Stands all read state self.old (S.left source.old)
            → ReadsNext all read (λ told. L.Told lines.old told lines.new) state hart number result self.new
            (S.left source.new) }
    {
        match next_sent(&self.window, source) {
            Ok(Some(message)) => {
                self.make_place(lines);
                read_placed(&mut self.window, message, hart, number)
            }
            Ok(None) => Ok(true),
            Err(why) => Err(why),
        }
    }

    /// Reads SENT up to the message of this hart with this number, or to its end. The front goes on as it has to.
    fn read_on<S: SentSource, L: LiveLines>(
        &mut self,
        hart: usize,
        number: u64,
        source: &mut S,
        lines: &mut L,
    ) -> Result<(), LookFault>
        ensures { (all : Audited) (read asked : ℕ) (state : State) → IsAudited all
            → Stands all read state self.old (S.left source.old) → WasAsked all asked read → NoneBefore all read hart number
            → Went all (λ told. L.Told lines.old told lines.new) asked (reaching all state hart number asked) result self.new
            (S.left source.new) }
    {
        for _ in 0..u64::MAX {
            match self.read_next(hart, number, source, lines) {
                Ok(true) => return Ok(()),
                Ok(false) => {}
                Err(why) => return Err(why),
            }
        }
        // SENT has not so many.
        Err(LookFault::Source(SourceFault::Memory))
    }

    /// If the path was out between two messages of a hart, SENT is read to the first of them.
    fn go_on<S: SentSource, L: LiveLines>(
        &mut self,
        first: &Message,
        second: &Message,
        source: &mut S,
        lines: &mut L,
    ) -> Result<(), LookFault>
        ensures { (all : Audited) (read asked : ℕ) (state : State) → IsAudited all
            → Stands all read state self.old (S.left source.old) → WasAsked all asked read
            → Went all (λ told. L.Told lines.old told lines.new) asked (going_on all state first.now second.now asked) result
            self.new (S.left source.new) }
    {
        match self.is_outage(first, second, source) {
            Ok(true) => self.read_on(usize::from(first.hart), first.number, source, lines),
            Ok(false) => Ok(()),
            Err(why) => Err(why),
        }
    }

    /// What waits of the hart of a message is decided, before that message is looked up.
    fn settle<S: SentSource, L: LiveLines>(
        &mut self,
        message: &Message,
        source: &mut S,
        lines: &mut L,
    ) -> Result<(), LookFault>
        ensures { (all : Audited) (read asked : ℕ) (state : State) (place : ℕ) → IsAudited all
            → Stands all read state self.old (S.left source.old) → WasAsked all asked read
            → Went all (λ told. L.Told lines.old told lines.new) asked
            (settling all state (record { place = place; message = message.now }) (state.waiting message.now.hart) asked)
            result self.new (S.left source.new) }
    {
        match take_waiting(&mut self.waiting, message.hart) {
            Some(first) => self.settle_first(&first, message, source, lines),
            None => Ok(()),
        }
    }

    /// What waited is decided, which is this.
    fn settle_first<S: SentSource, L: LiveLines>(
        &mut self,
        first: &Arrived,
        message: &Message,
        source: &mut S,
        lines: &mut L,
    ) -> Result<(), LookFault>
        ensures { (all : Audited) (read asked : ℕ) (state : State) → IsAudited all
            → Stands all read state self.old (S.left source.old) → WasAsked all asked read
            → Went all (λ told. L.Told lines.old told lines.new) asked
            (then_goes (going_on all state first.now.message message.now asked)
            (λ next. looking all next first.now.message (judged strange all.window all.sent next first.now))) result self.new
            (S.left source.new) }
    {
        match self.go_on(&first.message, message, source, lines) {
            Ok(()) => self.judge_last(first, source, lines),
            Err(why) => Err(why),
        }
    }

    /// A message that waited is looked up. If it is beyond, it is a stranger.
    fn judge_last<S: SentSource, L: LiveLines>(
        &mut self,
        one: &Arrived,
        source: &mut S,
        lines: &mut L,
    ) -> Result<(), LookFault>
        ensures { (all : Audited) (read asked : ℕ) (state : State) → IsAudited all
            → Stands all read state self.old (S.left source.old) → WasAsked all asked read
            → Went all (λ told. L.Told lines.old told lines.new) asked
            (looking all state one.now.message (judged strange all.window all.sent state one.now) asked) result self.new
            (S.left source.new) }
    {
        match self.judge(one, source, lines) {
            Ok(true) => {
                lines.decided(one, Finding::Stranger, None);
                Ok(())
            }
            Ok(false) => Ok(()),
            Err(why) => Err(why),
        }
    }

    /// Takes a message of a hart that is known.
    fn take_known<S: SentSource, L: LiveLines>(
        &mut self,
        one: Arrived,
        source: &mut S,
        lines: &mut L,
    ) -> Result<(), LookFault>
        ensures { (all : Audited) (read asked : ℕ) (state : State) → IsAudited all
            → Stands all read state self.old (S.left source.old) → WasAsked all asked read → one.message.hart < all.harts
            → Went all (λ told. L.Told lines.old told lines.new) asked (taking all state one asked) result self.new
            (S.left source.new) }
    {
        match self.settle(&one.message, source, lines) {
            Ok(()) => self.judge_first(one, source, lines),
            Err(why) => Err(why),
        }
    }

    /// A message is looked up. If it is beyond, it waits.
    fn judge_first<S: SentSource, L: LiveLines>(
        &mut self,
        one: Arrived,
        source: &mut S,
        lines: &mut L,
    ) -> Result<(), LookFault>
        ensures { (all : Audited) (read asked : ℕ) (state : State) → IsAudited all
            → Stands all read state self.old (S.left source.old) → WasAsked all asked read → one.message.hart < all.harts
            → Went all (λ told. L.Told lines.old told lines.new) asked
            (looking all state one.message (judged waits all.window all.sent state one) asked) result self.new
            (S.left source.new) }
    {
        match self.judge(&one, source, lines) {
            Ok(true) => {
                wait(&mut self.waiting, one);
                Ok(())
            }
            Ok(false) => Ok(()),
            Err(why) => Err(why),
        }
    }

    /// Takes the next message of RECEIVED: what waits of its hart is decided, and then it is looked up itself. The lines
    /// of what is decided are handed over. Takes no memory.
    ///
    /// SENT is read only to look the message up, and the one of its hart that waits: until it is found, SENT ends, or its number
    /// less those of its hart that were read is not below the places left in view. If SENT cannot be read on, the lines up to
    /// there were handed over. What a call after that does is in no clause.
    pub fn take<S: SentSource, L: LiveLines>(
        &mut self,
        one: Arrived,
        source: &mut S,
        lines: &mut L,
    ) -> Result<(), LookFault>
        ensures { (all : Audited) (read : ℕ) (state : State) → IsAudited all
            → Stands all read state self.old (S.left source.old)
            → Went all (λ told. L.Told lines.old told lines.new) read (taking_of all state one read) result self.new
            (S.left source.new) }
    {
        if usize::from(one.message.hart) < self.waiting.len() {
            return self.take_known(one, source, lines);
        }
        lines.decided(&one, Finding::Stranger, None);
        Ok(())
    }

    /// The lines that are left are handed over, where SENT was read to its end.
    fn finish<L: LiveLines>(&mut self, lines: &mut L)
        ensures { (all : Audited) (state : State) (left : Left) → IsAudited all
            → Stands all (length all.sent) state self.old left
            → L.Told lines.old (finished all.harts all.window all.sent state).lines lines.new }
    {
        let ahead = self.window.ahead();
        self.pass_all(ahead, lines);
        give_all(self.window.slots(), &mut self.runs, lines);
        tell_waiting(&self.waiting, lines);
        tell_runs(&self.runs, lines);
    }

    /// RECEIVED has ended: reads one message more of SENT, and the lines of what the front passes are handed over. Returns
    /// whether SENT has ended too. Takes no memory.
    ///
    /// [`LiveAudit::end`] reads what is left. Who hands lines on while SENT still comes calls this first, until it is `true`.
    pub fn read_sent<S: SentSource, L: LiveLines>(
        &mut self,
        source: &mut S,
        lines: &mut L,
    ) -> Result<bool, LookFault>
        ensures { (all : Audited) (read : ℕ) (state : State) → IsAudited all
            → Stands all read state self.old (S.left source.old)
            → ReadsSent all read (λ told. L.Told lines.old told lines.new) state result self.new (S.left source.new) }
    {
        let harts = self.waiting.len();
        self.read_next(harts, 0, source, lines)
    }

    /// RECEIVED has ended: SENT is read to its end, and the lines that are left are handed over. What a call after that does
    /// is in no clause.
    pub fn end<S: SentSource, L: LiveLines>(
        &mut self,
        source: &mut S,
        lines: &mut L,
    ) -> Result<(), LookFault>
        ensures { (all : Audited) (read : ℕ) (state : State) → IsAudited all
            → Stands all read state self.old (S.left source.old)
            → Ended all read (λ told. L.Told lines.old told lines.new) state result (S.left source.new) }
    {
        let harts = self.waiting.len();
        match self.read_on(harts, 0, source, lines) {
            Ok(()) => {
                self.finish(lines);
                Ok(())
            }
            Err(why) => Err(why),
        }
    }
}
